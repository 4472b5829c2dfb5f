// Sweep: by rising rank, each distance to and from a rank is the least over its lower neighbours of a distance and a worked bound.
ghost use Rattle.std.specs.Prelude.{◌≡◌, ℕ, ◌*◌, ◌<◌, ◌≤◌, true, ◌≢◌, length, MatchOption, slice_index};
ghost use Rattle.kinds.specs.Arithmetic.{Arithmetic, Lawful};
ghost use Rattle.eliminator.specs.Views.{Same, seen};
ghost use Rattle.eliminator.specs.Members.{Among};
ghost use Rattle.eliminator.specs.Steps.{NoShorter, Shorter, Near};
ghost use Rattle.sweeper.specs.Best.{BestInto, BestOut, Settles, Paired, Swept};

use super::best::best;
use super::least::Least;
use eliminator::eliminate::lower;
use eliminator::members::listed;
use eliminator::ranks::at_ranks;
use kinds::kind::Kind;
use marks::set::Marks;
use table::cell::Cell;
use table::grid::place;
use table::lent::Table;

// Writes a distance, and leaves what the elimination left.
fn settle<K: Kind>(table: &mut Table<'_, K>, r: usize, s: usize, least: Least<K>)
    requires row { r < table.old.order.count }
    requires column { s < table.old.order.count }
    ensures kept { Same table.old table.new }
    ensures settles { Settles table.old.order.count r s least (seen table.old) (seen table.new) }
{
    // in place, since two of the five fields are written; `put_ranks` takes a whole cell
    let p = place(
        table.order.events[r] as usize,
        table.order.events[s] as usize,
        table.order.count,
    );
    table.cells[p].distance = least.sum;
    table.cells[p].by = least.by;
}

// The cell of two ranks of the table.
// a `&Table`: the checker lends the cells of a `&mut Table` to no closure
fn cell_at<K: Kind>(table: &Table<'_, K>, r: usize, s: usize) -> Cell<K>
    requires row { r < table.now.order.count }
    requires column { s < table.now.order.count }
    ensures { result ≡ seen table.now r s }
{
    at_ranks(table.cells, &table.order, r, s)
}

// The distances between rank k and a lower rank, both ways.
fn sweep_pair<K: Kind>(table: &mut Table<'_, K>, i: usize, k: usize, ranks: &[u8])
    requires within { k < table.old.order.count }
    requires low { i < k }
    requires members { (t : ℕ) → t < length ranks.now → slice_index ranks.now t < k }
    ensures kept { Same table.old table.new }
    ensures paired { Paired K.Kind.arithmetic K.Kind.amount table.old.order.count k i (Among ranks.now (length ranks.now)) (seen table.old) (seen table.new) }
{
    let into = best(
        cell_at(table, i, k).worked,
        i,
        ranks,
        |j|
            requires { (j < table.now.order.count) × (i < table.now.order.count) × (k < table.now.order.count) }
            ensures { result ≡ ((seen table.entry.now i j).distance, (seen table.entry.now j k).worked) }
        { (cell_at(table, i, j).distance, cell_at(table, j, k).worked) },
    );
    let out = best(
        cell_at(table, k, i).worked,
        i,
        ranks,
        |j|
            requires { (j < table.now.order.count) × (i < table.now.order.count) × (k < table.now.order.count) }
            ensures { result ≡ ((seen table.entry.now k j).worked, (seen table.entry.now j i).distance) }
        { (cell_at(table, k, j).worked, cell_at(table, j, i).distance) },
    );
    settle(table, i, k, into);
    settle(table, k, i, out);
}

// The distances between all ranks.
// Not inlined: in one function with the rest of a close, its loops keep fewer values in registers.
#[inline(never)]
pub fn sweep<K: Kind>(table: &mut Table<'_, K>, near: &[Marks])
    requires room { table.old.order.count ≤ length near.now }
    requires near { Near table.old.order.count (seen table.old) near.now }
    ensures kept { Same table.old table.new }
    ensures swept { Swept K.Kind.arithmetic K.Kind.amount table.old.order.count (seen table.old) (seen table.new) }
{
    for k in 0..table.order.count {
        let mine = lower(near, k);
        let mut place = [0u8; 128];
        let ranks = listed(mine, &mut place);
        for i in 0..k {
            sweep_pair(table, i, k, ranks);
        }
        // written out: the one least sum that is not searched for
        let itself = Least {
            sum: Some(K::zero()),
            by: None,
        };
        settle(table, k, k, itself);
    }
}
