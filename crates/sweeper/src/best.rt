// The least of a bound and of the sums by way of some ranks.
ghost use Rattle.std.specs.Prelude.{◌≡◌, ℕ, ◌<◌, ◌≢◌, length, Option, MatchOption, slice_index};
ghost use Rattle.eliminator.specs.Members.{Among};
ghost use Rattle.eliminator.specs.Steps.{NoShorter, Shorter};
ghost use Rattle.sweeper.specs.Best.{Best, Tells};

use super::least::Least;
use eliminator::eliminate::shorter;
use kinds::kind::Kind;

// The sum of two bounds by rank j, where that is another rank and the sum less than what is there.
fn shorter_by<K: Kind>(
    skip: usize,
    j: usize,
    front: Option<K>,
    back: Option<K>,
    old: Option<K>,
) -> Option<K>
    ensures { MatchOption result (j ≢ skip → NoShorter K.Kind.arithmetic K.Kind.amount front back old) (λ s. (j ≢ skip) × Shorter K.Kind.arithmetic K.Kind.amount front back old s) }
{
    // an `if`: `then` would put an Option into an Option
    if j == skip {
        None
    } else {
        shorter(front, back, old)
    }
}

// The least of a bound and of the sums by the other ranks; `parts` tells the two parts of the sum by a rank.
pub fn best<K: Kind, F: Fn(usize) -> (Option<K>, Option<K>) + Drop>(
    direct: Option<K>,
    skip: usize,
    ranks: &[u8],
    parts: F,
) -> Least<K>
    requires { (t : ℕ) → t < length ranks.now → F.pre parts (slice_index ranks.now t) }
    ensures { (f g : ℕ → Option K) → Tells (F.post parts) ranks.now f g → Best K.Kind.arithmetic K.Kind.amount (Among ranks.now (length ranks.now)) skip direct f g result }
{
    let mut sum = direct;
    let mut by = None;
    for rank in ranks {
        let j = *rank as usize;
        let (front, back) = parts(j);
        if let Some(s) = shorter_by(skip, j, front, back, sum) {
            sum = Some(s);
            by = Some(*rank);
        }
    }
    Least { sum, by }
}
