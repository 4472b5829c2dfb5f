// Closing: elimination, and then the sweep, or the loop of the contradiction that was found.
ghost use Rattle.std.specs.Prelude.{◌≡◌, ◌≤◌, length};
ghost use Rattle.table.specs.Cells.{bounds};
ghost use Rattle.eliminator.specs.Views.{Same};
ghost use Rattle.closing.specs.Closed.{Ends, Untouched};

use super::contradiction::show_loop;
use super::trail::tell;
use eliminator::eliminate::eliminate;
use eliminator::start::start;
use kinds::kind::Kind;
use marks::set::Marks;
use sweeper::sweep::sweep;
use table::lent::Table;

// The bounds contradict each other: how many events of a loop under zero stand at the start of the place.
#[derive(Clone, Copy, Debug, PartialEq, Eq)]
pub struct Contradiction {
    pub shown: usize,
}

// Closes the table; or writes the events of a loop under zero at the start of the place, and tells their number.
// the caller has tested the length of the place, which is lent
pub fn close_cells<K: Kind>(table: &mut Table<'_, K>, place: &mut [u8]) -> Result<(), Contradiction>
    requires room { table.old.order.count ≤ length place.old }
    ensures kept { Same table.old table.new }
    ensures same { bounds K.Kind.amount table.old.order.count table.new.cells.now ≡ bounds K.Kind.amount table.old.order.count table.old.cells.now }
    ensures rest { Untouched table.old.order.count place.old place.new result }
    ensures ends { Ends K.Kind.arithmetic K.Kind.amount table.old.order table.old.cells.now table.new.cells.now place.new result }
{
    let mut near = [Marks::none(); 128];
    start(table, &mut near);
    if let Err(failing) = eliminate(table, &mut near) {
        let mut ranks = [0u8; 128];
        // the ordering first, and the cells whole: so the checker lends both parts of a table
        let order = &table.order;
        let cells = &mut *table.cells;
        let shown = show_loop(cells, order, failing.low, failing.high, &mut ranks);
        tell(order, &ranks, shown, place);
        return Err(Contradiction { shown });
    }
    sweep(table, &near);
    Ok(())
}
