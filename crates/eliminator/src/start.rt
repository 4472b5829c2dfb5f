// The table as closing begins: worked bounds are the bounds in force, and ranks joined by a bound are neighbours.
// Ranks here, events in the net's links: one function for both takes closures, whose clauses are longer.
ghost use Rattle.std.specs.Prelude.{◌≡◌, ℕ, ◌*◌, ◌<◌, ◌≤◌, true, false, length, is_some, slice_index_or};
ghost use Rattle.marks.specs.Sets.{has};
ghost use Rattle.table.specs.Cells.{empty};
ghost use Rattle.eliminator.specs.Views.{Same, seen};
ghost use Rattle.eliminator.specs.Steps.{marked, Touching, Near};
ghost use Rattle.eliminator.specs.Begun.{begun, Begun};

use super::ranks::at_ranks;
use kinds::kind::Kind;
use marks::set::Marks;
use table::cell::Cell;
use table::grid::blank;
use table::lent::Table;

// The first m cells keep their bounds in force, work starts from these, and all else is gone.
fn begin<K: Kind>(cells: &mut [Cell<K>], m: usize)
    requires fits { m ≤ length cells.old }
    ensures long { length cells.new ≡ length cells.old }
    ensures begun { (p : ℕ) → p < m → slice_index_or cells.new p empty ≡ begun (slice_index_or cells.old p empty) }
{
    for cell in &mut cells[..m] {
        *cell = Cell {
            bound: cell.bound,
            worked: cell.bound,
            ..blank()
        };
    }
}

// Whether a bound is in force between two ranks, either way.
fn touching<K: Kind>(table: &Table<'_, K>, r: usize, s: usize) -> bool
    requires row { r < table.now.order.count }
    requires column { s < table.now.order.count }
    ensures { Touching (seen table.now) r s result }
{
    let out = at_ranks(table.cells, &table.order, r, s);
    let back = at_ranks(table.cells, &table.order, s, r);
    out.bound.is_some() || back.bound.is_some()
}

// The neighbours of rank r.
fn neighbours<K: Kind>(table: &Table<'_, K>, r: usize) -> Marks
    requires row { r < table.now.order.count }
    ensures { (s : ℕ) → s < table.now.order.count → Touching (seen table.now) r s (has result s) }
{
    Marks::of(table.events(), |s| touching(table, r, s))
}

// Makes the table ready, and marks the neighbours of each rank.
pub fn start<K: Kind>(table: &mut Table<'_, K>, near: &mut [Marks])
    requires room { table.old.order.count ≤ length near.old }
    ensures kept { Same table.old table.new }
    ensures begun { Begun table.old.order.count (seen table.old) (seen table.new) }
    ensures near { Near table.old.order.count (seen table.new) near.new }
{
    let n = table.order.count;
    begin(table.cells, n * n);
    for (r, marks) in near[..n].iter_mut().enumerate() {
        *marks = neighbours(table, r);
    }
}
