// Whole numbers as eight bytes, the highest first, in two's complement.
ghost use Rattle.std.specs.Prelude.{◌≡◌, ◌≢◌, length, MatchOption};
ghost use Rattle.kinds.specs.Answers.{Encoded};
ghost use Rattle.kinds.specs.Bytes.{whole_bytes, whole_of};

use super::kind::WrongLength;

// Writes n over the whole of `out`; an `out` of another length than eight is refused and left as it is.
pub fn put_whole(n: i64, out: &mut [u8]) -> Result<(), WrongLength>
    ensures bytes { Encoded result 8 (whole_bytes n) out.old out.new }
    ensures long { length (whole_bytes n) ≡ 8 }
    ensures back { whole_of (whole_bytes n) ≡ n }
{
    if out.len() != 8 {
        return Err(WrongLength);
    }
    out.copy_from_slice(&n.to_be_bytes());
    Ok(())
}

// The whole number that bytes name; none exactly when they are not eight.
pub fn get_whole(from: &[u8]) -> Option<i64>
    ensures names { MatchOption result (length from.now ≢ 8) (λ n. (length from.now ≡ 8) × (n ≡ whole_of from.now)) }
    ensures back { MatchOption result (length from.now ≢ 8) (λ n. whole_bytes n ≡ from.now) }
{
    let bytes = from.try_into().ok()?;
    Some(i64::from_be_bytes(bytes))
}
