// The lines of all pairs of events.
ghost use Rattle.std.specs.Prelude.{◌≡◌, ◌+◌, ◌-◌, ◌*◌, ◌<◌, ◌≤◌, length};
ghost use Rattle.listing.specs.ClosedNets.{state_in};
ghost use Rattle.listing.specs.Listings.{ends_of};
ghost use Rattle.listing.specs.Standing.{Stands};
ghost use Rattle.listing.specs.Texts.{pair_text, row_text, windows_text};

use super::asking::ClosedNet;
use lines::line::Line;
use lines::writing::WindowLine;

// Events go as plain numbers, which the loops below count.
impl ClosedNet<'_> {
    // The low and the high end of the window of two events.
    fn window(&self, from: usize, to: usize) -> (Option<i64>, Option<i64>)
        requires row { from < (state_in self.now).events }
        requires column { to < (state_in self.now).events }
        ensures { result ≡ ends_of (state_in self.now) from to }
    {
        let (low, high) = self.net.window(from, to).unwrap();
        // the field itself: `i64::from` would say no more
        (low.map(|micros| micros.0), high.map(|micros| micros.0))
    }

    // The line of one pair, at the front of the place; its length is told.
    fn write_pair(&self, place: &mut [u8], from: usize, to: usize) -> usize
        requires row { from < (state_in self.now).events }
        requires column { to < (state_in self.now).events }
        requires room { 50 ≤ length place.old }
        ensures short { result ≤ 50 }
        ensures place { Stands place.old place.new (pair_text (ends_of (state_in self.now)) from to) 0 result }
    {
        let (low, high) = self.window(from, to);
        let line = WindowLine {
            // `as`: the events here are below 32
            from: from as u8,
            to: to as u8,
            low,
            high,
        };
        line.write(place).unwrap()
    }

    // The lines of an event with each greater one.
    fn write_row(&self, place: &mut [u8], from: usize) -> usize
        requires row { from < (state_in self.now).events }
        requires room { 50 * ((state_in self.now).events - (from + 1)) ≤ length place.old }
        ensures short { result ≤ 50 * ((state_in self.now).events - (from + 1)) }
        ensures place { Stands place.old place.new (row_text (state_in self.now).events (ends_of (state_in self.now)) from) 0 result }
    {
        let mut at = 0;
        // no `fold`: its proof leaves open that `at` stays within the place, and what stands there
        for to in from + 1..self.net.events() {
            at += self.write_pair(&mut place[at..], from, to);
        }
        at
    }

    // The lines of all pairs.
    pub fn write_windows(&self, place: &mut [u8]) -> usize
        requires room { 24800 ≤ length place.old }
        ensures short { result ≤ 24800 }
        ensures place { Stands place.old place.new (windows_text (state_in self.now).events (ends_of (state_in self.now))) 0 result }
    {
        let mut at = 0;
        // the loop of `write_row`: a function for both would take the step as a closure, whose clauses are longer than this
        for from in 0..self.net.events() {
            at += self.write_row(&mut place[at..], from);
        }
        at
    }
}
