// Kind 1: whole microseconds.
ghost use Rattle.std.specs.Prelude.{◌≡◌, List, [], ◌∷◌};
ghost use Rattle.kinds.specs.Rows.{rows};
ghost use Rattle.kinds.specs.Rows as row;
ghost use Rattle.kinds.specs.Bytes.{row_bytes, row_of};
ghost use Rattle.kinds.specs.RowLaws.{rows_lawful, rows_inverse};
ghost use Rattle.std.proofs.Common.{rules};

use super::bytes::{get_whole, put_whole};
use super::kind::{Kind, LARGEST_SUM, WrongLength, has_sum};
use std::cmp::Ordering;
use std::fmt;

// The kind's own number, and how many bytes a bound has.
const NUMBER: u8 = 1;

const WIDTH: usize = 8;

#[derive(Clone, Copy, Debug, PartialEq, Eq, PartialOrd, Ord)]
pub struct Micros(pub i64);

impl Kind for Micros {
    ghost arithmetic = { rows 1 };

    ghost minus = { row.minus };

    ghost amount = { λ m. m.0 ∷ [] };

    ghost number = { 1 };

    ghost width = { 8 };

    ghost encoded = { row_bytes };

    ghost decoded = { row_of 1 };

    ghost lawful = { rows_lawful 1 };

    ghost inverse = { rows_inverse 1 };

    ghost amounts = { Prim.search rules };

    ghost injective = { Prim.search rules };

    fn zero() -> Micros {
        Micros(0)
    }

    fn sum(self, other: Micros) -> Option<Micros> {
        has_sum(self.size(), other.size()).then(|| Micros(self.0 + other.0))
    }

    fn opposite(self) -> Option<Micros> {
        (self.size() <= LARGEST_SUM).then(|| Micros(-self.0))
    }

    fn compare(self, other: Micros) -> Ordering {
        self.cmp(&other)
    }

    fn size(self) -> u64 {
        self.0.unsigned_abs()
    }

    fn number() -> u8 {
        NUMBER
    }

    fn width() -> usize {
        WIDTH
    }

    fn write(self, out: &mut [u8]) -> Result<(), WrongLength> {
        put_whole(self.0, out)
    }

    fn read(from: &[u8]) -> Option<Micros> {
        get_whole(from).map(Micros)
    }
}

impl fmt::Display for Micros {
    fn fmt<W: fmt::Write>(&self, f: &mut fmt::Formatter<W>) -> fmt::Result {
        write!(f, "{}", self.0)
    }
}
