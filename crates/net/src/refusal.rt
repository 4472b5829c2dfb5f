// Why a net refuses a call.
ghost use Rattle.std.specs.Prelude.{◌≡◌};
ghost use Rattle.net.specs.Lacks.{refusal_of};

use closing::close::Contradiction;
use order::event_order::Misordered;

pub mod number;

// No words of its own: programs print its number.
#[derive(Clone, Copy, Debug, PartialEq, Eq)]
pub enum Refusal {
    // the number of events is not from 1 to 128
    EventsOutOfRange,
    // the table has fewer cells than the events need
    TooFewCells,
    // an event is not below the number of events
    NoSuchEvent,
    // an event is paired with itself
    SameEvent,
    // the place to write to is too short
    PlaceTooShort,
    // the net is not closed
    NotClosed,
    // the size of a bound is over the limit
    TooLarge,
    // no bound is in force to withdraw
    NothingToWithdraw,
    // an ordering has not as many events as the net
    WrongCount,
    // an ordering names an event outside the net
    OutsideNet,
    // an ordering names an event that stood earlier
    NamedTwice,
    // the bounds contradict: so many events of the loop are shown
    Contradiction(usize),
}

// Each lack is a refusal of its own: hosts know them by different numbers.
impl From<Misordered> for Refusal {
    ghost from_gives = { λ why r. r ≡ refusal_of why };

    fn from(why: Misordered) -> Refusal {
        match why {
            Misordered::Count => Refusal::WrongCount,
            Misordered::Outside => Refusal::OutsideNet,
            Misordered::Again => Refusal::NamedTwice,
        }
    }
}

// By hand: a derived `From` has no contract.
impl From<Contradiction> for Refusal {
    ghost use Rattle.net.specs.declared.refusal.Refusal.{Refusal};

    ghost from_gives = { λ why r. r ≡ Refusal.Contradiction why.shown };

    fn from(why: Contradiction) -> Refusal {
        Refusal::Contradiction(why.shown)
    }
}
