// What a net tells of itself.
ghost use Rattle.std.specs.Prelude.{◌≡◌};
ghost use Rattle.order.specs.Orderings.{event_of_rank, rank_of_event};
ghost use Rattle.net.specs.Refusals.{answered};
ghost use Rattle.net.specs.State.{state, bound_told};
ghost use Rattle.net.specs.State as spec;
ghost use Rattle.net.specs.Told.{amounts_told, shut};

use super::super::mode::Mode;
use super::super::refusal::Refusal;
use super::Net;
use super::laying::check_events;
use kinds::kind::Kind;

// Some hand on what the table or the ordering tells, since hosts ask the net alone.
impl<'t, K: Kind> Net<'t, K> {
    pub fn events(&self) -> usize
        ensures { result ≡ (state K.Kind.amount self.now).events }
    {
        self.table.events()
    }

    // How many cells the net was made over.
    pub fn room(&self) -> usize
        ensures { result ≡ spec.room self.now }
    {
        self.table.room()
    }

    pub fn mode(&self) -> Mode
        ensures { result ≡ (state K.Kind.amount self.now).mode }
    {
        self.mode
    }

    pub fn is_closed(&self) -> bool
        ensures { result ≡ shut (state K.Kind.amount self.now).mode }
    {
        self.mode == Mode::Closed
    }

    // The bound in force from i to j, if any; an event has none to itself.
    pub fn bound(&self, i: usize, j: usize) -> Result<Option<K>, Refusal>
        ensures { amounts_told K.Kind.amount (answered result) ≡ bound_told i j (state K.Kind.amount self.now) }
    {
        check_events(self.table.events(), i, j)?;
        let cell = self.table.at(i, j);
        Ok(cell.bound)
    }

    // The event of a rank from 1 to n.
    pub fn event_at(&self, rank: usize) -> Option<usize>
        ensures { result ≡ event_of_rank (state K.Kind.amount self.now).order rank }
    {
        self.table.order.event_at(rank)
    }

    // The rank, from 1 to n, of an event.
    pub fn rank_of(&self, event: usize) -> Option<usize>
        ensures { result ≡ rank_of_event (state K.Kind.amount self.now).order event }
    {
        self.table.order.rank_of(event)
    }
}
