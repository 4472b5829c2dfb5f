// The ranks of the walk behind a worked bound, written one after the other.
ghost use Rattle.std.specs.Prelude.{◌≡◌, ℕ, ◌+◌, ◌*◌, ◌<◌, ◌≤◌, [], ◌∷◌, map, length, take, drop, MatchOption};
ghost use Rattle.eliminator.specs.Views.{view, seen, event_at};
ghost use Rattle.closing.specs.Trace.{Names, names_prop, pushed, Onward, Splits};

use eliminator::ranks::at_ranks;
use kinds::kind::Kind;
use order::event_order::EventOrder;
use table::cell::Cell;
use table::lent::Table;

// Puts v behind the first len ranks of out; where it stands among them, what is behind it goes.
fn push(out: &mut [u8], len: usize, v: u8, n: usize) -> usize
    requires room { n ≤ length out.old }
    requires held { len ≤ length out.old }
    requires below { v < n }
    requires names { Names n (take len out.old) }
    ensures held { result ≤ length out.new }
    ensures value { take result out.new ≡ pushed (take len out.old) v }
    ensures names { Names n (take result out.new) }
{
    for p in 0..len {
        if out[p] == v {
            return p + 1;
        }
    }
    out[len] = v;
    len + 1
}

// The rank by which the worked bound from i to j last became less.
pub fn split_at<K: Kind>(cells: &[Cell<K>], order: &EventOrder, i: usize, j: usize) -> Option<usize>
    requires fits { order.now.count * order.now.count ≤ length cells.now }
    requires row { i < order.now.count }
    requires column { j < order.now.count }
    ensures { MatchOption result ((v : ℕ) → Splits order.now.count (view order.now cells.now) i j v → ⊥) (λ v. Splits order.now.count (view order.now cells.now) i j v) }
{
    let c = at_ranks(cells, order, i, j);
    match c.via {
        None => None,
        Some(v) => {
            let v = v as usize;
            if i < v && j < v && v < order.count {
                Some(v)
            } else {
                None
            }
        }
    }
}

// The ranks of the walk behind the worked bound from i to j, without i.
pub fn expand<K: Kind>(
    cells: &[Cell<K>],
    order: &EventOrder,
    i: usize,
    j: usize,
    out: &mut [u8],
    len: usize,
) -> usize
    requires fits { order.now.count * order.now.count ≤ length cells.now }
    requires row { i < order.now.count }
    requires column { j < order.now.count }
    requires room { order.now.count ≤ length out.old }
    requires held { len ≤ length out.old }
    requires names { Names order.now.count (take len out.old) }
    ensures held { result ≤ length out.new }
    ensures names { Names order.now.count (take result out.new) }
    ensures walks { Onward K.Kind.arithmetic K.Kind.amount order.now.count (view order.now cells.now) i j (take len out.old) (take result out.new) }
{
    match split_at(cells, order, i, j) {
        None => push(out, len, j as u8, order.count),
        Some(v) => {
            let m = expand(cells, order, i, v, out, len);
            expand(cells, order, v, j, out, m)
        }
    }
}

// Writes the events of the first len ranks at the start of the place, and leaves the rest of it.
pub fn tell(order: &EventOrder, ranks: &[u8], len: usize, place: &mut [u8])
    requires held { len ≤ length ranks.now }
    requires room { len ≤ length place.old }
    requires names { Names order.now.count (take len ranks.now) }
    ensures told { take len place.new ≡ map (event_at order.now) (take len ranks.now) }
    ensures rest { drop len place.new ≡ drop len place.old }
{
    // by index: after a `zip` with `iter_mut` a proof knows no element of the place
    for (p, &rank) in ranks[..len].iter().enumerate() {
        place[p] = order.events[rank as usize];
    }
}

// A walk as far as it is written: the first `len` of the ranks, none twice. There is no heap to put them on.
// For callers who hold a table; the functions above take a shared slice of cells and a place that is lent.
#[derive(Drop)]
pub struct Trail<'a, 't, K> {
    pub table: &'a Table<'t, K>,
    ranks: [u8; 128],
    len: usize,
    ghost held: { len ≤ length ranks },
    ghost names: { Names table.now.order.count (take len ranks) } by { names_prop table.now.order.count (take len ranks) },
}

impl<'a, 't, K: Kind> Trail<'a, 't, K> {
    ghost use Rattle.closing.specs.Trails.{written};

    // The walk that starts at rank i.
    pub fn from(table: &'a Table<'t, K>, i: usize) -> Trail<'a, 't, K>
        requires { i < table.now.order.count }
        ensures table { result.table.now ≡ table.now }
        ensures row { written result ≡ i ∷ [] }
    {
        Trail {
            table,
            ranks: [i as u8; 128],
            len: 1,
        }
    }

    // Goes on from rank i to rank j along the walk behind the worked bound.
    pub fn expand(&mut self, i: usize, j: usize)
        requires row { i < self.old.table.now.order.count }
        requires column { j < self.old.table.now.order.count }
        ensures table { self.new.table.now ≡ self.old.table.now }
        ensures walks { Onward K.Kind.arithmetic K.Kind.amount self.old.table.now.order.count (seen self.old.table.now) i j (written self.old) (written self.new) }
    {
        let table = self.table;
        self.len = expand(table.cells, &table.order, i, j, &mut self.ranks, self.len);
    }

    // Writes the events of the walk at the start of the place, leaves the rest of it, and tells their number.
    pub fn tell(&self, place: &mut [u8]) -> usize
        requires { length (written self.now) ≤ length place.old }
        ensures number { result ≡ length (written self.now) }
        ensures few { result ≤ self.now.table.now.order.count }
        ensures told { take result place.new ≡ map (event_at self.now.table.now.order) (written self.now) }
        ensures rest { drop result place.new ≡ drop result place.old }
    {
        tell(&self.table.order, &self.ranks, self.len, place);
        self.len
    }
}
