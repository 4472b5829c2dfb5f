// What a closed net tells of two events: their distance, their window and a walk.
ghost use Rattle.std.specs.Prelude.{◌≡◌, ◌^◌, ◌<◌, ◌≤◌, length, IfOk, Some, OnOk};
ghost use Rattle.walks.specs.Bounds.{InForce};
ghost use Rattle.walks.specs.Walks.{Told, Window};
ghost use Rattle.walks.specs.Least as walks;
ghost use Rattle.table.specs.Cells.{amount_of};
ghost use Rattle.net.specs.declared.mode.Mode.TheVariants.{Closed};
ghost use Rattle.net.specs.Refusals.{answered};
ghost use Rattle.net.specs.State.{state};
ghost use Rattle.net.specs.Told.{amounts_told};
ghost use Rattle.net.specs.Kept.{Kept};
ghost use Rattle.net.specs.Asking.{done, pair_asked, distance_told, window_told, ends_told, walk_asked, WalkRest, WalkTold};

use super::super::mode::Mode;
use super::super::refusal::Refusal;
use super::Net;
use super::laying::check_events;
use closing::walk::walk_cells;
use kinds::kind::Kind;

impl<'t, K: Kind> Net<'t, K> {
    // The least sum of all walks from i to j; none where there is no walk.
    pub fn distance(&self, i: usize, j: usize) -> Result<Option<K>, Refusal>
        ensures refused { done (answered result) ≡ pair_asked i j (state K.Kind.amount self.now) }
        ensures told { Kept K.Kind.arithmetic K.Kind.amount self.now → amounts_told K.Kind.amount (answered result) ≡ distance_told K.Kind.arithmetic i j (state K.Kind.amount self.now) }
        ensures least { Kept K.Kind.arithmetic K.Kind.amount self.now → IfOk result (λ d. Told K.Kind.arithmetic (InForce (state K.Kind.amount self.now).bounds) i j (amount_of K.Kind.amount d)) }
    {
        self.check_asked(i, j)?;
        let there = self.table.at(i, j);
        Ok(there.distance)
    }

    // The two ends for the time of j minus the time of i; a none is an open end.
    pub fn window(&self, i: usize, j: usize) -> Result<(Option<K>, Option<K>), Refusal>
        ensures refused { done (answered result) ≡ pair_asked i j (state K.Kind.amount self.now) }
        ensures told { Kept K.Kind.arithmetic K.Kind.amount self.now → ends_told K.Kind.amount (answered result) ≡ window_told K.Kind.arithmetic K.Kind.minus i j (state K.Kind.amount self.now) }
        ensures exact { Kept K.Kind.arithmetic K.Kind.amount self.now → IfOk result (λ ends. Window K.Kind.arithmetic (InForce (state K.Kind.amount self.now).bounds) i j (amount_of K.Kind.amount ends.0, amount_of K.Kind.amount ends.1)) }
    {
        self.check_asked(i, j)?;
        let there = self.table.at(i, j);
        let back = self.table.at(j, i);
        Ok((opposed(back.distance), there.distance))
    }

    // Writes the events of one walk of least sum from i to j, none twice, and tells their number.
    // a number, since the place stays the caller's; so at a close
    pub fn walk(&self, i: usize, j: usize, place: &mut [u8]) -> Result<Option<usize>, Refusal>
        ensures refused { done (answered result) ≡ walk_asked i j (length place.old) (state K.Kind.amount self.now) }
        ensures rest { WalkRest (state K.Kind.amount self.now).events place.old place.new result }
        ensures told { Kept K.Kind.arithmetic K.Kind.amount self.now → WalkTold K.Kind.arithmetic (state K.Kind.amount self.now) i j place.old place.new result }
    {
        self.check_asked(i, j)?;
        if place.len() < self.table.events() {
            return Err(Refusal::PlaceTooShort);
        }
        let there = self.table.at(i, j);
        // Not by `map`: what a closure wrote to the place is lost to the proof.
        if there.distance.is_none() {
            return Ok(None);
        }
        let events = walk_cells(self.table.cells, &self.table.order, i, j, place);
        Ok(Some(events))
    }

    // Whether the net answers questions about i and j.
    fn check_asked(&self, i: usize, j: usize) -> Result<(), Refusal>
        ensures value { answered result ≡ pair_asked i j (state K.Kind.amount self.now) }
        ensures good { OnOk result ((i < (state K.Kind.amount self.now).events) × (j < (state K.Kind.amount self.now).events) × (self.now.mode ≡ Closed)) }
    {
        check_events(self.table.events(), i, j)?;
        if self.mode == Mode::Open {
            return Err(Refusal::NotClosed);
        }
        Ok(())
    }
}

// The opposite of a distance that may be none.
fn opposed<K: Kind>(distance: Option<K>) -> Option<K>
    ensures { ((d : K) → distance ≡ Some d → K.Kind.arithmetic.size (K.Kind.amount d) ≤ 2 ^ 60) → amount_of K.Kind.amount result ≡ walks.opposite K.Kind.minus (amount_of K.Kind.amount distance) }
{
    distance.and_then(K::opposite)
}
