// How a net is made, and how it begins.
ghost use Rattle.std.specs.Prelude.{◌≡◌, ◌≤◌, length, OnOk};
ghost use Rattle.net.specs.Kept.{Kept};
ghost use Rattle.net.specs.Limits.{most_events, cells_needed};
ghost use Rattle.net.specs.Refusals.{answered};
ghost use Rattle.net.specs.State.{State, state, room, outcome, Untouched, Sound};
ghost use Rattle.net.specs.State as call;

use super::super::mode::Mode;
use super::super::refusal::Refusal;
use super::Net;
use kinds::kind::Kind;
use table::cell::Cell;
use table::lent::Table;

// The most events of a net.
pub const MOST_EVENTS: usize = 128;

impl<'t, K: Kind> Net<'t, K> {
    pub fn make(cells: &'t mut [Cell<K>]) -> Net<'t, K>
        ensures made { state K.Kind.amount result ≡ call.made }
        ensures kept { room result ≡ length cells.old }
        ensures sound { Sound K.Kind.arithmetic (state K.Kind.amount result) }
        ensures faithful { Kept K.Kind.arithmetic K.Kind.amount result }
    {
        let table = Table::over(cells);
        Net {
            table,
            mode: Mode::Open,
        }
    }

    // Sets the number of events: no bound is in force then, and event i has rank i + 1.
    pub fn begin(&mut self, n: usize) -> Result<(), Refusal>
        ensures outcome { outcome (answered result) (state K.Kind.amount self.new) ≡ call.begun (room self.old) n (state K.Kind.amount self.old) }
        ensures untouched { Untouched result self.old self.new }
        ensures kept { room self.new ≡ room self.old }
        ensures sound { Sound K.Kind.arithmetic (state K.Kind.amount self.old) → Sound K.Kind.arithmetic (state K.Kind.amount self.new) }
        ensures faithful { Kept K.Kind.arithmetic K.Kind.amount self.old → Kept K.Kind.arithmetic K.Kind.amount self.new }
    {
        check_begin(n, self.table.room())?;
        self.table.begin(n);
        self.mode = Mode::Open;
        Ok(())
    }
}

// Whether a net over that many cells can begin with n events.
pub fn check_begin(n: usize, cells: usize) -> Result<(), Refusal>
    ensures value { (s : State) → answered result ≡ (call.begun cells n s).answer }
    ensures good { OnOk result ((1 ≤ n) × (n ≤ most_events) × (cells_needed n ≤ cells)) }
{
    // two comparisons: `contains` of a range is no shorter
    if n < 1 || n > MOST_EVENTS {
        return Err(Refusal::EventsOutOfRange);
    }
    if n * n > cells {
        return Err(Refusal::TooFewCells);
    }
    Ok(())
}
