// The cells that a caller lent to a net.
ghost use Rattle.std.specs.Prelude.{◌≡◌, ◌+◌, ◌-◌, ◌*◌, ◌/◌, ◌<◌, ◌≤◌, length, take, drop, slice_set};
ghost use Rattle.order.specs.Orderings.{events_of};
ghost use Rattle.closing.specs.Closed.{Ends, Untouched, Walks};
ghost use Rattle.net.specs.Times.{Earliest};
ghost use Rattle.order.specs.Counted.{counts_of};
ghost use Rattle.order.specs.Ranking.{Ranked, ranking};
ghost use Rattle.table.specs.Cells.{at_cell, cleared, bounds, neighbours};

use super::earliest::write_times;
use super::links::{by_fewest, counts};
use closing::close::{Contradiction, close_cells};
use closing::walk::walk_cells;
use kinds::kind::Kind;
use order::counts::Counts;
use order::event_order::EventOrder;
use table::cell::Cell;
use table::grid::{at, clear, put};

// A net's table, for callers who keep the number of events and their ordering beside it: each call is told them.
#[derive(Drop)]
pub struct Table<'t, K> {
    // its own ordering is that of the last close
    held: table::lent::Table<'t, K>,
}

impl<'t, K: Kind> Table<'t, K> {
    pub fn over(cells: &'t mut [Cell<K>]) -> Table<'t, K>
        ensures { result.held.cells.now ≡ cells.old }
    {
        let held = table::lent::Table::over(cells);
        Table { held }
    }

    pub fn room(&self) -> usize
        ensures { result ≡ length self.now.held.cells.now }
    {
        self.held.room()
    }

    pub fn at(&self, n: usize, i: usize, j: usize) -> Cell<K>
        requires few { n ≤ 128 }
        requires fits { n * n ≤ length self.now.held.cells.now }
        requires row { i < n }
        requires column { j < n }
        ensures { result ≡ at_cell n self.now.held.cells.now i j }
    {
        at(self.held.cells, n, i, j)
    }

    pub fn put(&mut self, n: usize, i: usize, j: usize, cell: Cell<K>)
        requires few { n ≤ 128 }
        requires fits { n * n ≤ length self.old.held.cells.now }
        requires row { i < n }
        requires column { j < n }
        ensures { self.new.held.cells.now ≡ slice_set self.old.held.cells.now (i * n + j) cell }
    {
        let held = &mut self.held;
        put(held.cells, n, i, j, cell);
    }

    pub fn clear(&mut self, m: usize)
        requires { m ≤ length self.old.held.cells.now }
        ensures { self.new.held.cells.now ≡ cleared m self.old.held.cells.now }
    {
        let held = &mut self.held;
        clear(held.cells, m);
    }

    // The ordering of n events by fewest neighbours.
    pub fn by_fewest(&self, n: usize) -> EventOrder
        requires few { n ≤ 128 }
        requires fits { n * n ≤ length self.now.held.cells.now }
        ensures sized { result.count ≡ n }
        ensures value { events_of result ≡ ranking n (neighbours (bounds K.Kind.amount n self.now.held.cells.now)) n }
        ensures ruled { Ranked n (neighbours (bounds K.Kind.amount n self.now.held.cells.now)) (events_of result) }
    {
        by_fewest(self.held.cells, n)
    }

    // What an elimination in the ordering counts.
    pub fn counts(&self, order: &EventOrder) -> Counts
        requires fits { order.now.count * order.now.count ≤ length self.now.held.cells.now }
        ensures value { result ≡ counts_of order.now.count (neighbours (bounds K.Kind.amount order.now.count self.now.held.cells.now)) (events_of order.now) }
        ensures bounded { result.looks ≤ result.width * order.now.count * (order.now.count - 1) / 2 }
    {
        counts(self.held.cells, order)
    }

    // Closes the cells; or writes the loop of a contradiction, and tells its number of events.
    pub fn close(&mut self, order: &EventOrder, place: &mut [u8]) -> Result<(), Contradiction>
        requires fits { order.now.count * order.now.count ≤ length self.old.held.cells.now }
        requires room { order.now.count ≤ length place.old }
        ensures long { length self.new.held.cells.now ≡ length self.old.held.cells.now }
        ensures same { bounds K.Kind.amount order.now.count self.new.held.cells.now ≡ bounds K.Kind.amount order.now.count self.old.held.cells.now }
        ensures rest { Untouched order.now.count place.old place.new result }
        ensures ends { Ends K.Kind.arithmetic K.Kind.amount order.now self.old.held.cells.now self.new.held.cells.now place.new result }
    {
        self.held.order = *order;
        close_cells(&mut self.held, place)
    }

    // Writes a walk of least sum between two events of closed cells, and tells its number of events.
    pub fn walk(&self, order: &EventOrder, i: usize, j: usize, place: &mut [u8]) -> usize
        requires fits { order.now.count * order.now.count ≤ length self.now.held.cells.now }
        requires row { i < order.now.count }
        requires column { j < order.now.count }
        requires room { order.now.count ≤ length place.old }
        ensures few { result ≤ order.now.count }
        ensures rest { drop result place.new ≡ drop result place.old }
        ensures walks { Walks K.Kind.arithmetic K.Kind.amount order.now self.now.held.cells.now i j (take result place.new) }
    {
        walk_cells(self.held.cells, order, i, j, place)
    }

    // Writes the least of the distances to each of n events, where there is one.
    pub fn write_times(&self, n: usize, place: &mut [K])
        requires few { n ≤ 128 }
        requires fits { n * n ≤ length self.now.held.cells.now }
        requires room { n ≤ length place.old }
        ensures times { Earliest K.Kind.arithmetic K.Kind.amount n self.now.held.cells.now n place.new }
        ensures rest { drop n place.new ≡ drop n place.old }
    {
        write_times(self.held.cells, n, place);
    }
}
