// Cells by the ranks of their events, counted from 0.
ghost use Rattle.std.specs.Prelude.{◌≡◌, ◌*◌, ◌<◌, ◌≤◌, length};
ghost use Rattle.eliminator.specs.Views.{view, Written};

use kinds::kind::Kind;
use order::event_order::EventOrder;
use table::cell::Cell;
use table::grid::{at, put};

pub fn at_ranks<K: Kind>(cells: &[Cell<K>], order: &EventOrder, r: usize, s: usize) -> Cell<K>
    requires fits { order.now.count * order.now.count ≤ length cells.now }
    requires row { r < order.now.count }
    requires column { s < order.now.count }
    ensures { result ≡ view order.now cells.now r s }
{
    let i = order.events[r] as usize;
    let j = order.events[s] as usize;
    at(cells, order.count, i, j)
}

pub fn put_ranks<K: Kind>(
    cells: &mut [Cell<K>],
    order: &EventOrder,
    r: usize,
    s: usize,
    cell: Cell<K>,
)
    requires fits { order.now.count * order.now.count ≤ length cells.old }
    requires row { r < order.now.count }
    requires column { s < order.now.count }
    ensures long { length cells.new ≡ length cells.old }
    ensures written { Written order.now.count r s cell (view order.now cells.old) (view order.now cells.new) }
{
    let i = order.events[r] as usize;
    let j = order.events[s] as usize;
    put(cells, order.count, i, j, cell);
}
