// The cells that a caller lent to a net, with the ordering of its events.
ghost use Rattle.std.specs.Prelude.{◌≡◌, ◌+◌, ◌*◌, ◌<◌, ◌≤◌, length, slice_set};
ghost use Rattle.order.specs.Orderings.{events_of, upto};
ghost use Rattle.table.specs.Cells.{at_cell, cleared};

use super::cell::Cell;
use super::grid::{at, clear, put};
use order::event_order::EventOrder;

// There are cells enough for every pair of the events.
// Events and ranks go to it as plain numbers, pairs too: a type of them would have to carry the count that they lie below.
// What a call keeps of it stands at the call: a type speaks of one value, not of before and after.
#[derive(Drop)]
pub struct Table<'t, K> {
    pub cells: &'t mut [Cell<K>],
    pub order: EventOrder,
    ghost fits: { order.count * order.count ≤ length cells.now },
}

impl<'t, K: Copy> Table<'t, K> {
    // A table without events.
    pub fn over(cells: &'t mut [Cell<K>]) -> Table<'t, K>
        ensures cells { result.cells.now ≡ cells.old }
        ensures order { events_of result.order ≡ upto 0 }
    {
        let order = EventOrder::identity(0);
        Table { cells, order }
    }

    pub fn room(&self) -> usize
        ensures { result ≡ length self.now.cells.now }
    {
        self.cells.len()
    }

    pub fn events(&self) -> usize
        ensures { result ≡ self.now.order.count }
    {
        self.order.count
    }

    // What is held of the events i and j.
    pub fn at(&self, i: usize, j: usize) -> Cell<K>
        requires row { i < self.now.order.count }
        requires column { j < self.now.order.count }
        ensures { result ≡ at_cell self.now.order.count self.now.cells.now i j }
    {
        at(self.cells, self.order.count, i, j)
    }

    pub fn put(&mut self, i: usize, j: usize, cell: Cell<K>)
        requires row { i < self.old.order.count }
        requires column { j < self.old.order.count }
        ensures cells { self.new.cells.now ≡ slice_set self.old.cells.now (i * self.old.order.count + j) cell }
        ensures order { self.new.order ≡ self.old.order }
    {
        put(self.cells, self.order.count, i, j, cell);
    }

    // Begins with n events: nothing is held of them, and event i has rank i + 1.
    // a plain number, tested where a host gives it
    pub fn begin(&mut self, n: usize)
        requires few { n ≤ 128 }
        requires fits { n * n ≤ length self.old.cells.now }
        ensures cells { self.new.cells.now ≡ cleared (n * n) self.old.cells.now }
        ensures order { events_of self.new.order ≡ upto n }
    {
        clear(self.cells, n * n);
        self.order = EventOrder::identity(n);
    }

    // Sets the ordering of the same events.
    pub fn arrange(&mut self, order: EventOrder)
        requires { order.count ≡ self.old.order.count }
        ensures cells { self.new.cells.now ≡ self.old.cells.now }
        ensures order { self.new.order ≡ order }
    {
        self.order = order;
    }
}
