// A walk of least sum between two events of a closed table.
ghost use Rattle.std.specs.Prelude.{◌≡◌, ℕ, ◌*◌, ◌<◌, ◌≤◌, [], ◌∷◌, length, take, drop, MatchOption};
ghost use Rattle.eliminator.specs.Views.{view};
ghost use Rattle.closing.specs.Trace.{Names};
ghost use Rattle.sweeper.specs.Sums.{leasts, Leads};
ghost use Rattle.closing.specs.Walked.{Toward, Walked};
ghost use Rattle.closing.specs.Closed.{Walks};

use super::trail::{expand, tell};
use eliminator::ranks::at_ranks;
use kinds::kind::Kind;
use order::event_order::EventOrder;
use table::cell::Cell;

// The rank by which the distance from i to j was put together: lower than the higher of the two.
fn lead<K: Kind>(cells: &[Cell<K>], order: &EventOrder, i: usize, j: usize) -> Option<usize>
    requires fits { order.now.count * order.now.count ≤ length cells.now }
    requires row { i < order.now.count }
    requires column { j < order.now.count }
    ensures { MatchOption result ((m : ℕ) → Leads order.now.count (leasts (view order.now cells.now)) i j m → ⊥) (λ m. Leads order.now.count (leasts (view order.now cells.now)) i j m) }
{
    let c = at_ranks(cells, order, i, j);
    match c.by {
        None => None,
        Some(m) => {
            let m = m as usize;
            if m != i && m != j && i != j && m < i.max(j) {
                Some(m)
            } else {
                None
            }
        }
    }
}

// The ranks of a walk of least sum from i to j, without i.
// No one recursion for this and `expand`: here only one of the halves goes on in the same way.
fn trace<K: Kind>(
    cells: &[Cell<K>],
    order: &EventOrder,
    i: usize,
    j: usize,
    out: &mut [u8],
    len: usize,
) -> usize
    requires fits { order.now.count * order.now.count ≤ length cells.now }
    requires row { i < order.now.count }
    requires column { j < order.now.count }
    requires room { order.now.count ≤ length out.old }
    requires held { len ≤ length out.old }
    requires names { Names order.now.count (take len out.old) }
    ensures held { result ≤ length out.new }
    ensures names { Names order.now.count (take result out.new) }
    ensures walks { Toward K.Kind.arithmetic K.Kind.amount order.now.count (view order.now cells.now) (leasts (view order.now cells.now)) i j (take len out.old) (take result out.new) }
{
    // two arms: on which side of the rank in between the walk is traced on depends on the lower end
    match lead(cells, order, i, j) {
        None => expand(cells, order, i, j, out, len),
        Some(m) if i < j => {
            let a = trace(cells, order, i, m, out, len);
            expand(cells, order, m, j, out, a)
        }
        Some(m) => {
            let a = expand(cells, order, i, m, out, len);
            trace(cells, order, m, j, out, a)
        }
    }
}

// The ranks of a walk of least sum from i to j, none twice.
fn walk_ranks<K: Kind>(
    cells: &[Cell<K>],
    order: &EventOrder,
    i: usize,
    j: usize,
    out: &mut [u8],
) -> usize
    requires fits { order.now.count * order.now.count ≤ length cells.now }
    requires row { i < order.now.count }
    requires column { j < order.now.count }
    requires room { order.now.count ≤ length out.old }
    ensures held { result ≤ length out.new }
    ensures names { Names order.now.count (take result out.new) }
    ensures alone { i ≡ j → take result out.new ≡ i ∷ [] }
    ensures walks { Walked K.Kind.arithmetic K.Kind.amount order.now.count (view order.now cells.now) (leasts (view order.now cells.now)) i j (take result out.new) }
{
    out[0] = i as u8;
    if i == j {
        return 1;
    }
    trace(cells, order, i, j, out, 1)
}

// Writes the events of a walk of least sum from i to j at the start of the place, and tells their number.
// the caller has tested the length of the place, which is lent
pub fn walk_cells<K: Kind>(
    cells: &[Cell<K>],
    order: &EventOrder,
    i: usize,
    j: usize,
    place: &mut [u8],
) -> usize
    requires fits { order.now.count * order.now.count ≤ length cells.now }
    requires row { i < order.now.count }
    requires column { j < order.now.count }
    requires room { order.now.count ≤ length place.old }
    ensures few { result ≤ order.now.count }
    ensures rest { drop result place.new ≡ drop result place.old }
    ensures walks { Walks K.Kind.arithmetic K.Kind.amount order.now cells.now i j (take result place.new) }
{
    let mut ranks = [0u8; 128];
    let len = walk_ranks(
        cells,
        order,
        order.ranks[i] as usize,
        order.ranks[j] as usize,
        &mut ranks,
    );
    tell(order, &ranks, len, place);
    len
}
