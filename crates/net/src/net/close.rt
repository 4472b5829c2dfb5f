// How a net is closed.
ghost use Rattle.std.specs.Prelude.{◌≡◌, ◌-◌, ◌*◌, ◌/◌, ◌<◌, ◌≤◌, ◌↔◌, length, IfOk, Err};
ghost use Rattle.walks.specs.Bounds.{InForce};
ghost use Rattle.walks.specs.Walks.{Schedule};
ghost use Rattle.net.specs.State.{state, room, Sound};
ghost use Rattle.net.specs.Kept.{Kept};
ghost use Rattle.net.specs.Closing.{closing, closed, numbered, carried, Shown, Rest};

use super::super::links::counts;
use super::super::mode::Mode;
use super::super::refusal::Refusal;
use super::Net;
use closing::close::close_cells;
use kinds::kind::Kind;
use order::counts::Counts;

impl<'t, K: Kind> Net<'t, K> {
    // Closes the net and tells the counts; or, where the bounds contradict, writes a loop at the start of the place.
    pub fn close(&mut self, place: &mut [u8]) -> Result<Counts, Refusal>
        ensures outcome { Sound K.Kind.arithmetic (state K.Kind.amount self.old) → closing (numbered result) (state K.Kind.amount self.new) ≡ closed K.Kind.arithmetic (length place.old) (state K.Kind.amount self.old) }
        ensures short { (numbered result ≡ Err 5) ↔ (length place.old < (state K.Kind.amount self.old).events) }
        ensures schedules { Sound K.Kind.arithmetic (state K.Kind.amount self.old) → (state K.Kind.amount self.old).events ≤ length place.old → (numbered result ≡ Err 16) ↔ ¬ (Schedule K.Kind.arithmetic (InForce (state K.Kind.amount self.old).bounds)) }
        ensures shows { Sound K.Kind.arithmetic (state K.Kind.amount self.old) → Shown K.Kind.arithmetic (state K.Kind.amount self.old).bounds place.new (carried result) }
        ensures rest { Rest (state K.Kind.amount self.old).events place.old place.new (carried result) }
        ensures bounded { IfOk result (λ c. c.looks ≤ c.width * (state K.Kind.amount self.old).events * ((state K.Kind.amount self.old).events - 1) / 2) }
        ensures untouched { numbered result ≡ Err 5 → self.new ≡ self.old }
        ensures kept { room self.new ≡ room self.old }
        ensures sound { Sound K.Kind.arithmetic (state K.Kind.amount self.old) → Sound K.Kind.arithmetic (state K.Kind.amount self.new) }
        ensures faithful { Kept K.Kind.arithmetic K.Kind.amount self.old → Kept K.Kind.arithmetic K.Kind.amount self.new }
    {
        if place.len() < self.table.events() {
            return Err(Refusal::PlaceTooShort);
        }
        self.mode = Mode::Open;
        close_cells(&mut self.table, place)?;
        self.mode = Mode::Closed;
        let table = &mut self.table;
        // the ordering first, and the cells whole, as in `close_cells`
        let order = &table.order;
        let cells = &mut *table.cells;
        Ok(counts(cells, order))
    }
}
