// Elimination: ranks are taken out from the highest down, and the bounds by them worked into those that are left.
ghost use Rattle.std.specs.Prelude.{◌≡◌, ℕ, ◌+◌, ◌*◌, ◌^◌, ◌<◌, ◌≤◌, true, false, T, length, Some, None, MatchOption, slice_index};
ghost use Rattle.kinds.specs.Arithmetic.{Arithmetic, AtMost};
ghost use Rattle.marks.specs.Sets.{has};
ghost use Rattle.eliminator.specs.Views.{Same, seen};
ghost use Rattle.eliminator.specs.Members.{Apart, Others};
ghost use Rattle.eliminator.specs.Steps.{NoShorter, Shorter, OneCell, RowPart, Part, Lower, Near, Joined};
ghost use Rattle.eliminator.specs.State.{SameForce, Falls, Bears, FirstFailing, Outcome};

use super::members::listed;
use super::ranks::{at_ranks, put_ranks};
use kinds::kind::Kind;
use marks::set::Marks;
use table::cell::Cell;
use table::lent::Table;

// Whether the sum is less than what is there, or the first.
pub fn improves<K: Kind>(sum: K, old: Option<K>) -> bool
    ensures yes { T result → (a : K) → old ≡ Some a → AtMost K.Kind.arithmetic (K.Kind.amount a) (K.Kind.amount sum) → ⊥ }
    ensures no { (T result → ⊥) → (a : K) × (old ≡ Some a) × (AtMost K.Kind.arithmetic (K.Kind.amount a) (K.Kind.amount sum)) }
{
    old.is_none_or(|old| sum.compare(old).is_lt())
}

// The sum of two bounds, where it is less than what is there.
// three bounds as they are: a struct of them would be made and taken apart at each call
pub fn shorter<K: Kind>(front: Option<K>, back: Option<K>, old: Option<K>) -> Option<K>
    ensures { MatchOption result (NoShorter K.Kind.arithmetic K.Kind.amount front back old) (λ s. Shorter K.Kind.arithmetic K.Kind.amount front back old s) }
{
    let x = front?;
    let y = back?;
    let s = x.sum(y)?;
    // an `if`: in the innermost loop, and as short as `then_some`
    if improves(s, old) { Some(s) } else { None }
}

// The bound from rank i to rank j becomes the lesser of itself and the sum by rank k.
fn relax_cell<K: Kind>(table: &mut Table<'_, K>, k: usize, i: usize, j: usize, front: Option<K>)
    requires within { k < table.old.order.count }
    requires row { i < k }
    requires column { j < k }
    requires front { front ≡ (seen table.old i k).worked }
    ensures kept { Same table.old table.new }
    ensures one { OneCell K.Kind.arithmetic K.Kind.amount table.old.order.count k i j (seen table.old) (seen table.new) }
{
    // the ordering first, and the cells whole: so the checker lends both parts of a table
    let order = &table.order;
    let cells = &mut *table.cells;
    let old = at_ranks(cells, order, i, j);
    let back = at_ranks(cells, order, k, j);
    if let Some(s) = shorter(front, back.worked, old.worked) {
        let new = Cell {
            worked: Some(s),
            via: Some(k as u8),
            ..old
        };
        put_ranks(cells, order, i, j, new);
    }
}

// The bounds from rank i to the others of the ranks become the lesser of themselves and the sums by rank k.
fn relax_row<K: Kind>(table: &mut Table<'_, K>, k: usize, i: usize, ranks: &[u8])
    requires within { k < table.old.order.count }
    requires row { i < k }
    requires columns { (t : ℕ) → t < length ranks.now → slice_index ranks.now t < k }
    requires apart { Apart ranks.now (length ranks.now) }
    ensures kept { Same table.old table.new }
    ensures part { RowPart K.Kind.arithmetic K.Kind.amount table.old.order.count k i (Others ranks.now (length ranks.now) i) (seen table.old) (seen table.new) }
{
    // lent as in `relax_cell`
    let order = &table.order;
    let cells = &mut *table.cells;
    let front = at_ranks(cells, order, i, k).worked;
    for rank in ranks {
        let j = *rank as usize;
        if j != i {
            relax_cell(table, k, i, j, front);
        }
    }
}

// Takes rank k out: each two of its lower neighbours get the bounds by it, and become neighbours.
fn take_out<K: Kind>(table: &mut Table<'_, K>, near: &mut [Marks], k: usize, mine: Marks)
    requires room { table.old.order.count ≤ length near.old }
    requires within { k < table.old.order.count }
    requires members { (q : ℕ) → has mine q ≡ true → q < k }
    ensures kept { Same table.old table.new }
    ensures part { Part K.Kind.arithmetic K.Kind.amount table.old.order.count k (λ q. has mine q ≡ true) (λ q. has mine q ≡ true) (seen table.old) (seen table.new) }
    ensures joined { Joined (λ q. has mine q ≡ true) mine near.old near.new }
{
    let mut place = [0u8; 128];
    let ranks = listed(mine, &mut place);
    for i in mine.members() {
        relax_row(table, k, i, ranks);
        // joined in the same visit: `join` of the ordering would go through the members once more
        let others = mine.without(i);
        near[i] = near[i].union(others);
    }
}

// Whether two worked bounds, out and back, sum to less than zero.
fn falls<K: Kind>(into: Option<K>, out: Option<K>) -> bool
    ensures yes { T result → Falls K.Kind.arithmetic K.Kind.amount into out }
    ensures no { (T result → ⊥) → Bears K.Kind.arithmetic K.Kind.amount into out }
{
    let (Some(into), Some(out)) = (into, out) else {
        return false;
    };
    // by `compare`, as `keepable` does: a method for it would need a contract of its own
    into.sum(out).is_some_and(|s| s.compare(K::zero()).is_lt())
}

// The test of a lower neighbour of rank k.
fn fails<K: Kind>(table: &Table<'_, K>, i: usize, k: usize) -> bool
    requires row { i < table.now.order.count }
    requires column { k < table.now.order.count }
    ensures yes { T result → Falls K.Kind.arithmetic K.Kind.amount (seen table.now i k).worked (seen table.now k i).worked }
    ensures no { (T result → ⊥) → Bears K.Kind.arithmetic K.Kind.amount (seen table.now i k).worked (seen table.now k i).worked }
{
    // two reads, as in `touching`: a function that tells both cells would be no shorter
    let into = at_ranks(table.cells, &table.order, i, k);
    let out = at_ranks(table.cells, &table.order, k, i);
    falls(into.worked, out.worked)
}

// The first of the lower neighbours of rank k at which the test fails.
fn first_failing<K: Kind>(table: &Table<'_, K>, mine: Marks, k: usize) -> Option<usize>
    requires within { k < table.now.order.count }
    requires members { (q : ℕ) → has mine q ≡ true → q < k }
    ensures { FirstFailing K.Kind.arithmetic K.Kind.amount (seen table.now) mine k result }
{
    // a loop: `find` would need the clauses of the test on its closure
    for i in mine.members() {
        if fails(table, i, k) {
            return Some(i);
        }
    }
    None
}

// The neighbours of rank k that are lower.
// the sets are one slice, asked by index: a struct would hold nothing else
pub fn lower(near: &[Marks], k: usize) -> Marks
    requires few { k ≤ 128 }
    requires room { k < length near.now }
    ensures { Lower near.now k result }
{
    near[k].intersection(Marks::all_below(k))
}

// Two ranks whose worked bounds, out and back, sum to less than zero.
#[derive(Clone, Copy, Debug, PartialEq, Eq)]
pub struct Failing {
    pub low: usize,
    pub high: usize,
}

// Takes out the ranks from the highest down; left at the first two that fail.
pub fn eliminate<K: Kind>(table: &mut Table<'_, K>, near: &mut [Marks]) -> Result<(), Failing>
    requires room { table.old.order.count ≤ length near.old }
    requires near { Near table.old.order.count (seen table.old) near.old }
    ensures kept { Same table.old table.new }
    ensures same { SameForce table.old.order.count (seen table.old) (seen table.new) }
    ensures near { Near table.old.order.count (seen table.new) near.new }
    ensures outcome { Outcome K.Kind.arithmetic K.Kind.amount table.old.order.count (seen table.old) (seen table.new) result }
{
    for k in (0..table.order.count).rev() {
        let mine = lower(near, k);
        if let Some(i) = first_failing(table, mine, k) {
            return Err(Failing { low: i, high: k });
        }
        take_out(table, near, k, mine);
    }
    Ok(())
}
