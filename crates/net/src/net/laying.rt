// How bounds are laid down and withdrawn.
ghost use Rattle.std.specs.Prelude.{◌≡◌, ◌<◌, ◌≤◌, OnOk, ◌≢◌};
ghost use Rattle.net.specs.Kept.{Kept};
ghost use Rattle.net.specs.Limits.{most_size};
ghost use Rattle.net.specs.Refusals.{answered};
ghost use Rattle.net.specs.State.{State, state, room, outcome, Untouched, Sound};
ghost use Rattle.net.specs.State as call;

use super::super::lesser::lesser;
use super::super::mode::Mode;
use super::super::refusal::Refusal;
use super::Net;
use kinds::kind::Kind;

// The greatest size of a bound.
pub const MOST_SIZE: u64 = 1 << 40;

impl<'t, K: Kind> Net<'t, K> {
    // Lays down a bound: the time of j minus the time of i is at most it.
    pub fn require(&mut self, i: usize, j: usize, bound: K) -> Result<(), Refusal>
        ensures outcome { outcome (answered result) (state K.Kind.amount self.new) ≡ call.required K.Kind.arithmetic i j (K.Kind.amount bound) (state K.Kind.amount self.old) }
        ensures untouched { Untouched result self.old self.new }
        ensures kept { room self.new ≡ room self.old }
        ensures sound { Sound K.Kind.arithmetic (state K.Kind.amount self.old) → Sound K.Kind.arithmetic (state K.Kind.amount self.new) }
        ensures faithful { Kept K.Kind.arithmetic K.Kind.amount self.old → Kept K.Kind.arithmetic K.Kind.amount self.new }
    {
        check_require(self.table.events(), i, j, bound)?;
        let mut cell = self.table.at(i, j);
        cell.bound = lesser(cell.bound, Some(bound));
        self.table.put(i, j, cell);
        self.mode = Mode::Open;
        Ok(())
    }

    // Takes away the bound in force from i to j.
    pub fn withdraw(&mut self, i: usize, j: usize) -> Result<(), Refusal>
        ensures outcome { outcome (answered result) (state K.Kind.amount self.new) ≡ call.withdrawn i j (state K.Kind.amount self.old) }
        ensures untouched { Untouched result self.old self.new }
        ensures kept { room self.new ≡ room self.old }
        ensures sound { Sound K.Kind.arithmetic (state K.Kind.amount self.old) → Sound K.Kind.arithmetic (state K.Kind.amount self.new) }
        ensures faithful { Kept K.Kind.arithmetic K.Kind.amount self.old → Kept K.Kind.arithmetic K.Kind.amount self.new }
    {
        check_pair(self.table.events(), i, j)?;
        let mut held = self.table.at(i, j);
        held.bound.take().ok_or(Refusal::NothingToWithdraw)?;
        self.table.put(i, j, held);
        self.mode = Mode::Open;
        Ok(())
    }
}

// Whether i and j are events of a net of n.
// two plain numbers, as hosts give them: a pair would be made and taken apart in each call
pub(super) fn check_events(n: usize, i: usize, j: usize) -> Result<(), Refusal>
    ensures value { answered result ≡ call.known n i j }
    ensures good { OnOk result ((i < n) × (j < n)) }
{
    if i >= n || j >= n {
        return Err(Refusal::NoSuchEvent);
    }
    Ok(())
}

// Whether a bound can join i and j in a net of n events.
fn check_pair(n: usize, i: usize, j: usize) -> Result<(), Refusal>
    ensures value { answered result ≡ call.paired n i j }
    ensures good { OnOk result ((i < n) × (j < n) × (i ≢ j)) }
{
    check_events(n, i, j)?;
    if i == j {
        return Err(Refusal::SameEvent);
    }
    Ok(())
}

// Whether a net of n events takes the bound from i to j.
pub fn check_require<K: Kind>(n: usize, i: usize, j: usize, bound: K) -> Result<(), Refusal>
    ensures value { (s : State) → s.events ≡ n → answered result ≡ (call.required K.Kind.arithmetic i j (K.Kind.amount bound) s).answer }
    ensures good { OnOk result ((i < n) × (j < n) × (i ≢ j) × (K.Kind.arithmetic.size (K.Kind.amount bound) ≤ most_size)) }
{
    check_pair(n, i, j)?;
    if bound.size() > MOST_SIZE {
        return Err(Refusal::TooLarge);
    }
    Ok(())
}
