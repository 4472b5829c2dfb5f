// The lesser of two bounds that may be none.
ghost use Rattle.std.specs.Prelude.{◌≡◌};
ghost use Rattle.table.specs.Cells.{amount_of};
ghost use Rattle.walks.specs.Least.{lesser};

use kinds::kind::Kind;

// The lesser of the two, where there are two; the first among equals.
pub fn lesser<K: Kind>(first: Option<K>, second: Option<K>) -> Option<K>
    ensures { amount_of K.Kind.amount result ≡ lesser K.Kind.arithmetic (amount_of K.Kind.amount first) (amount_of K.Kind.amount second) }
{
    // made of what is in them: with the arguments handed on whole, the times of a net take half as much again
    match (first, second) {
        (Some(a), Some(b)) => Some(if b.compare(a).is_lt() { b } else { a }),
        (None, _) => second,
        (_, None) => first,
    }
}
