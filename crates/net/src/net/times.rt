// The times that a closed net sets.
ghost use Rattle.std.specs.Prelude.{◌≡◌, length, OnOk};
ghost use Rattle.net.specs.Refusals.{answered};
ghost use Rattle.net.specs.State.{state};
ghost use Rattle.net.specs.Kept.{Kept};
ghost use Rattle.net.specs.Asking.{times_asked, TimesRest, Timed, Schedules};

use super::super::earliest::write_times;
use super::super::mode::Mode;
use super::super::refusal::Refusal;
use super::Net;
use kinds::kind::Kind;

impl<'t, K: Kind> Net<'t, K> {
    // Writes a schedule that keeps every bound in force: the time of j is the least of all distances to j.
    pub fn times(&self, place: &mut [K]) -> Result<(), Refusal>
        ensures refused { answered result ≡ times_asked (length place.old) (state K.Kind.amount self.now) }
        ensures rest { TimesRest (state K.Kind.amount self.now).events place.old place.new result }
        ensures told { Kept K.Kind.arithmetic K.Kind.amount self.now → Timed K.Kind.arithmetic K.Kind.amount (state K.Kind.amount self.now) place.old place.new result }
        ensures schedule { Kept K.Kind.arithmetic K.Kind.amount self.now → OnOk result (Schedules K.Kind.arithmetic K.Kind.amount (state K.Kind.amount self.now) place.new) }
    {
        if self.mode == Mode::Open {
            return Err(Refusal::NotClosed);
        }
        if place.len() < self.table.events() {
            return Err(Refusal::PlaceTooShort);
        }
        write_times(self.table.cells, self.table.events(), place);
        Ok(())
    }
}
