// What the requests of a sheet are performed on: the net, or an outline that foresees what the net will answer.
ghost use Rattle.std.specs.Prelude.{◌≡◌, ℕ};
ghost use Rattle.net.specs.Kept.{Kept};
ghost use Rattle.net.specs.Refusals.{answered};
ghost use Rattle.net.specs.State.{State, state, room, outcome, Sound};
ghost use Rattle.sheet.specs.Outlines.{Performed};
ghost use Rattle.sheet.specs.Sheets.{performed};
ghost use Rattle.sheet.specs.Told.{asking};

use super::form::Request;
use kinds::kind::Kind;
use net::net::Net;
use net::refusal::Refusal;

// what a request keeps is said of before and after, so no type can hold it
pub trait Performs<K: Kind> {
    // the states that it may stand for
    ghost shows: { Self → State → Type 0 };

    // the cells of the table
    ghost cells: { Self → ℕ };

    // what no request breaks
    ghost keeps: { Self → Self → Type 0 };

    // Answers as the net does in each state that it may stand for, and stands for the state after it then.
    fn perform(&mut self, request: Request<'_, K>) -> Result<(), Refusal>
        ensures performed { (s : State) → shows self.old s → Performed (performed K.Kind.arithmetic (cells self.old) (asking K.Kind.amount request.entry) s) (answered result) (shows self.new) }
        ensures room { cells self.new ≡ cells self.old }
        ensures kept { keeps self.old self.new };

    ghost keeps_on: { (a b c : Self) → keeps a b → keeps b c → keeps a c };

    ghost keeps_none: { (a : Self) → keeps a a };
}

impl<K: Kind> Performs<K> for Net<'_, K> {
    ghost shows = { λ net s. state K.Kind.amount net ≡ s };

    ghost cells = { λ net. room net };

    ghost keeps = { λ a b. (Sound K.Kind.arithmetic (state K.Kind.amount a) → Sound K.Kind.arithmetic (state K.Kind.amount b)) × (Kept K.Kind.arithmetic K.Kind.amount a → Kept K.Kind.arithmetic K.Kind.amount b) };

    fn perform(&mut self, request: Request<'_, K>) -> Result<(), Refusal>
        ensures outcome { outcome (answered result) (state K.Kind.amount self.new) ≡ performed K.Kind.arithmetic (room self.old) (asking K.Kind.amount request.entry) (state K.Kind.amount self.old) }
        ensures kept { room self.new ≡ room self.old }
        ensures sound { Sound K.Kind.arithmetic (state K.Kind.amount self.old) → Sound K.Kind.arithmetic (state K.Kind.amount self.new) }
        ensures faithful { Kept K.Kind.arithmetic K.Kind.amount self.old → Kept K.Kind.arithmetic K.Kind.amount self.new }
    {
        match request {
            Request::Begin { n } => self.begin(usize::from(n)),
            Request::Require { from, to, bound } => self.require(
                usize::from(from),
                usize::from(to),
                bound,
            ),
            Request::Arrange { events } => self.arrange(events),
        }
    }

    ghost keeps_on = { λ a b c f g. (λ s. g.0 (f.0 s), λ k. g.1 (f.1 k)) };

    ghost keeps_none = { λ a. (λ s. s, λ k. k) };
}
