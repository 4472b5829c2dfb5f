// The number by which a refusal is known.
ghost use Rattle.std.specs.Prelude.{◌≡◌};
ghost use Rattle.net.specs.Refusals.{reason};

use super::Refusal;

impl Refusal {
    // Hosts know these numbers, which leave gaps; an enum that carries a value has no discriminants to cast.
    pub fn number(self) -> u8
        ensures { result ≡ (reason self).number }
    {
        match self {
            Refusal::EventsOutOfRange => 1,
            Refusal::TooFewCells => 2,
            Refusal::NoSuchEvent => 3,
            Refusal::SameEvent => 4,
            Refusal::PlaceTooShort => 5,
            Refusal::NotClosed => 6,
            Refusal::TooLarge => 11,
            Refusal::NothingToWithdraw => 12,
            Refusal::WrongCount => 13,
            Refusal::OutsideNet => 14,
            Refusal::NamedTwice => 15,
            Refusal::Contradiction(_) => 16,
        }
    }
}
