// Kind 2: strict microseconds. "Less than 5" is (5, -1) and "at most 5" is (5, 0).
ghost use Rattle.std.specs.Prelude.{◌≡◌, List, [], ◌∷◌};
ghost use Rattle.kinds.specs.Rows.{rows};
ghost use Rattle.kinds.specs.Rows as row;
ghost use Rattle.kinds.specs.Bytes.{row_bytes, row_of};
ghost use Rattle.kinds.specs.RowLaws.{rows_lawful, rows_inverse};
ghost use Rattle.std.proofs.Common.{rules};

use super::bytes::{get_whole, put_whole};
use super::kind::{Kind, LARGEST_SUM, WrongLength, has_sum};
use std::cmp::Ordering;
use std::fmt;

// The kind's own number, and how many bytes a bound has.
const NUMBER: u8 = 2;

const WIDTH: usize = 16;

// Kinds 1 and 2 are no one type of N numbers: hosts name the parts, and the laws are shared already, as `rows n`.
#[derive(Clone, Copy, Debug, PartialEq, Eq, PartialOrd, Ord)]
pub struct StrictMicros {
    pub number: i64,
    pub mark: i64,
}

impl Kind for StrictMicros {
    ghost arithmetic = { rows 2 };

    ghost minus = { row.minus };

    ghost amount = { λ m. m.number ∷ m.mark ∷ [] };

    ghost number = { 2 };

    ghost width = { 16 };

    ghost encoded = { row_bytes };

    ghost decoded = { row_of 2 };

    ghost lawful = { rows_lawful 2 };

    ghost inverse = { rows_inverse 2 };

    ghost amounts = { Prim.search rules };

    ghost injective = { Prim.search rules };

    fn zero() -> StrictMicros {
        StrictMicros { number: 0, mark: 0 }
    }

    fn sum(self, other: StrictMicros) -> Option<StrictMicros> {
        has_sum(self.size(), other.size()).then(|| StrictMicros {
            number: self.number + other.number,
            mark: self.mark + other.mark,
        })
    }

    fn opposite(self) -> Option<StrictMicros> {
        (self.size() <= LARGEST_SUM).then(|| StrictMicros {
            number: -self.number,
            mark: -self.mark,
        })
    }

    fn compare(self, other: StrictMicros) -> Ordering {
        self.cmp(&other)
    }

    fn size(self) -> u64 {
        self.number.unsigned_abs().max(self.mark.unsigned_abs())
    }

    fn number() -> u8 {
        NUMBER
    }

    fn width() -> usize {
        WIDTH
    }

    fn write(self, out: &mut [u8]) -> Result<(), WrongLength> {
        if out.len() != WIDTH {
            return Err(WrongLength);
        }
        let (number, mark) = out.split_at_mut(8);
        put_whole(self.number, number)?;
        put_whole(self.mark, mark)
    }

    fn read(from: &[u8]) -> Option<StrictMicros> {
        let (number, mark) = from.split_at_checked(8)?;
        Some(StrictMicros {
            number: get_whole(number)?,
            mark: get_whole(mark)?,
        })
    }
}

impl fmt::Display for StrictMicros {
    fn fmt<W: fmt::Write>(&self, f: &mut fmt::Formatter<W>) -> fmt::Result {
        let StrictMicros { number, mark } = self;
        write!(f, "({number}, {mark})")
    }
}
