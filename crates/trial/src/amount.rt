// The trial's own numbers: a number and a mark, added part by part and compared by number and then by mark.
// Sums and opposites wrap, since no contract says how much is added; what the trial adds is far from 2^127.
use kinds::kind::Kind;
use kinds::micros::Micros;
use kinds::strict::StrictMicros;
use std::ops::{Add, Neg};

#[derive(Clone, Copy, PartialEq, Eq, PartialOrd, Ord)]
pub struct Amount {
    pub number: i128,
    pub mark: i128,
}

impl Amount {
    pub const ZERO: Amount = Amount { number: 0, mark: 0 };
}

impl Add for Amount {
    type Output = Amount;

    fn add(self, other: Amount) -> Amount {
        Amount {
            number: self.number.wrapping_add(other.number),
            mark: self.mark.wrapping_add(other.mark),
        }
    }
}

impl Neg for Amount {
    type Output = Amount;

    fn neg(self) -> Amount {
        Amount {
            number: self.number.wrapping_neg(),
            mark: self.mark.wrapping_neg(),
        }
    }
}

// The lesser of two where either may be missing.
pub fn lesser(a: Option<Amount>, b: Option<Amount>) -> Option<Amount> {
    match (a, b) {
        (Some(x), Some(y)) => Some(x.min(y)),
        _ => a.or(b),
    }
}

// The sum of two where both are there.
pub fn sum(a: Option<Amount>, b: Option<Amount>) -> Option<Amount> {
    Some(a? + b?)
}

// A kind that the trial can make bounds of, and read them.
pub trait Sample: Kind {
    // whether a bound has a mark beside its number
    const MARKED: bool;

    fn made(number: i64, mark: i64) -> Self;

    // A method and no `Into`: generic code asks for it by this trait.
    fn told(self) -> Amount;
}

// An impl for each kind, as they are two types.
impl Sample for Micros {
    const MARKED: bool = false;

    fn made(number: i64, _mark: i64) -> Micros {
        Micros(number)
    }

    fn told(self) -> Amount {
        Amount {
            number: i128::from(self.0),
            mark: 0,
        }
    }
}

impl Sample for StrictMicros {
    const MARKED: bool = true;

    fn made(number: i64, mark: i64) -> StrictMicros {
        StrictMicros { number, mark }
    }

    fn told(self) -> Amount {
        Amount {
            number: i128::from(self.number),
            mark: i128::from(self.mark),
        }
    }
}
