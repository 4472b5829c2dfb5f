// The sum of a row of bounds of any kind, and whether a loop of bounds can be kept.
ghost use Rattle.std.specs.Prelude.{◌≡◌, ℕ, ◌+◌, ◌^◌, ◌≤◌, true, List, length, is_some, IfSome};
ghost use Rattle.kinds.specs.Sums.{sum_of, AllSmall};

use super::kind::Kind;

// Exact where it is told, and told for up to 128 bounds of size at most 2^40 each.
pub fn total<K: Kind>(bounds: &[K]) -> Option<K>
    ensures exact { IfSome result (λ t. K.Kind.amount t ≡ sum_of K.Kind.arithmetic K.Kind.amount bounds.now) }
    ensures told { length bounds.now ≤ 128 → AllSmall K.Kind.arithmetic K.Kind.amount bounds.now → is_some result ≡ true }
{
    let mut sum = K::zero();
    // a `for` with `?`: as plain as `try_fold`, with an invariant on what is summed so far
    for b in bounds {
        sum = sum.sum(*b)?;
    }
    Some(sum)
}

// Whether some run keeps a loop of bounds: exactly when it does not sum to less than zero.
pub fn keepable<K: Kind>(bounds: &[K]) -> Option<bool>
    ensures exact { IfSome result (λ b. b ≡ K.Kind.arithmetic.at_most K.Kind.arithmetic.zero (sum_of K.Kind.arithmetic K.Kind.amount bounds.now)) }
    ensures told { length bounds.now ≤ 128 → AllSmall K.Kind.arithmetic K.Kind.amount bounds.now → is_some result ≡ true }
{
    total(bounds).map(|sum| sum.compare(K::zero()).is_ge())
}
