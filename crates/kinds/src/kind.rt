// What every kind of bound answers, and the laws that closing and all questions rest on.
ghost use Rattle.std.specs.Prelude.{◌≡◌, ℕ, ◌+◌, ◌^◌, ◌≤◌, false, List, length, ℤ, MatchOption, IsTrue, ◌↔◌};
ghost use Rattle.std.specs.Ordering.{MatchOrdering};
ghost use Rattle.kinds.specs.Arithmetic.{Arithmetic, Amount, Lawful, Inverse};
ghost use Rattle.kinds.specs.Answers.{Exact, Encoded, Decoded};

use std::cmp::Ordering;
use std::error::Error;
use std::fmt;

// Two bounds have a sum, and one an opposite, up to this size: 2^60.
pub const LARGEST_SUM: u64 = 1 << 60;

// Bytes of another number than the kind writes.
#[derive(Clone, Copy, Debug, PartialEq, Eq)]
pub struct WrongLength;

impl fmt::Display for WrongLength {
    fn fmt<W: fmt::Write>(&self, f: &mut fmt::Formatter<W>) -> fmt::Result {
        write!(f, "another number of bytes than the kind writes")
    }
}

impl Error for WrongLength {}

// Whether two bounds of these sizes have a sum.
pub(crate) fn has_sum(size: u64, other: u64) -> bool
    ensures { IsTrue result ↔ (size + other ≤ 2 ^ 60) }
{
    // Two comparisons: by `saturating_add` a dense close takes 3.6 percent more instructions.
    size <= LARGEST_SUM && other <= LARGEST_SUM - size
}

pub trait Kind: Copy {
    // zero, sum, order and size of its amounts
    ghost arithmetic: { Arithmetic };

    // the opposite of an amount
    ghost minus: { List ℤ → List ℤ };

    // the amount that a bound stands for
    ghost amount: { Self → List ℤ };

    // the kind's own number, and how many bytes a bound has
    ghost number: { ℕ };

    ghost width: { ℕ };

    // the bytes of an amount, and the amount of bytes
    ghost encoded: { List ℤ → List ℕ };

    ghost decoded: { List ℕ → List ℤ };

    fn zero() -> Self
        ensures { amount result ≡ arithmetic.zero };

    // None exactly when the sizes together exceed 2^60.
    fn sum(self, other: Self) -> Option<Self>
        ensures { Exact amount result (arithmetic.size (amount self) + arithmetic.size (amount other) ≤ 2 ^ 60) (arithmetic.plus (amount self) (amount other)) };

    // None exactly when the size exceeds 2^60.
    fn opposite(self) -> Option<Self>
        ensures { Exact amount result (arithmetic.size (amount self) ≤ 2 ^ 60) (minus (amount self)) };

    // Not by a supertrait `Ord`: its laws would stand beside those of the kind a second time.
    fn compare(self, other: Self) -> Ordering
        ensures { MatchOrdering result (arithmetic.at_most (amount other) (amount self) ≡ false) (amount self ≡ amount other) (arithmetic.at_most (amount self) (amount other) ≡ false) };

    fn size(self) -> u64
        ensures { result ≡ arithmetic.size (amount self) };

    // Methods, which hosts call by these names; a constant of the trait would say no more.
    fn number() -> u8
        ensures { result ≡ number };

    fn width() -> usize
        ensures value { result ≡ width }
        ensures bounded { result ≤ 64 };

    // Writes the bound over the whole of `out`; an `out` of another length is refused and left as it is.
    fn write(self, out: &mut [u8]) -> Result<(), WrongLength>
        ensures bytes { Encoded result width (encoded (amount self)) out.old out.new }
        ensures back { decoded (encoded (amount self)) ≡ amount self };

    // The bound that the bytes name; none exactly when they are not of the kind's length.
    // An Option, of which the facts on round trips are said: bytes fail in one way only.
    fn read(from: &[u8]) -> Option<Self>
        ensures { Decoded amount encoded decoded result width from.now };

    ghost lawful: { Lawful arithmetic };

    ghost inverse: { Inverse arithmetic minus };

    ghost amounts: { (x : Self) → Amount arithmetic (amount x) };

    ghost injective: { (x y : Self) → amount x ≡ amount y → x ≡ y };
}
