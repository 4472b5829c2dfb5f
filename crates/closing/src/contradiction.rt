// The loop behind the pair at which the elimination failed.
ghost use Rattle.std.specs.Prelude.{◌≡◌, ℕ, ◌*◌, ◌<◌, ◌≤◌, length, take};
ghost use Rattle.eliminator.specs.Views.{view};
ghost use Rattle.closing.specs.Trace.{Names, Shows};

use super::trail::{expand, split_at};
use kinds::kind::Kind;
use order::event_order::EventOrder;
use table::cell::Cell;

// The ranks of the walk from i to k, and then of the walk back to i, without i again.
pub fn show_loop<K: Kind>(
    cells: &[Cell<K>],
    order: &EventOrder,
    i: usize,
    k: usize,
    out: &mut [u8],
) -> usize
    requires fits { order.now.count * order.now.count ≤ length cells.now }
    requires lower { i < k }
    requires within { k < order.now.count }
    requires room { order.now.count ≤ length out.old }
    ensures held { result ≤ length out.new }
    ensures names { Names order.now.count (take result out.new) }
    ensures shows { Shows K.Kind.arithmetic K.Kind.amount order.now.count (view order.now cells.now) i k (take result out.new) }
{
    out[0] = i as u8;
    let mut len = expand(cells, order, i, k, out, 1);
    let mut x = k;
    // `while`: the next question begins at the rank that was found
    while let Some(v) = split_at(cells, order, x, i) {
        len = expand(cells, order, x, v, out, len);
        x = v;
    }
    len
}
