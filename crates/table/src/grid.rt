// Reading, writing and clearing the cells of a table of n rows of n cells, row by row in one slice.
ghost use Rattle.std.specs.Prelude.{◌≡◌, ◌+◌, ◌*◌, ◌<◌, ◌≤◌, length, slice_set};
ghost use Rattle.table.specs.Cells.{empty, at_cell, cleared};

use super::cell::Cell;

// A cell that holds nothing.
pub fn blank<K: Copy>() -> Cell<K>
    ensures { result ≡ empty }
{
    Cell::default()
}

// Where the cell of the pair (i, j) lies.
pub fn place(i: usize, j: usize, n: usize) -> usize
    requires row { i < n }
    requires column { j < n }
    requires few { n ≤ 128 }
    ensures value { result ≡ i * n + j }
    ensures below { result < n * n }
{
    i * n + j
}

// What is held of the events i and j of n.
pub fn at<K: Copy>(cells: &[Cell<K>], n: usize, i: usize, j: usize) -> Cell<K>
    requires few { n ≤ 128 }
    requires fits { n * n ≤ length cells.now }
    requires row { i < n }
    requires column { j < n }
    ensures { result ≡ at_cell n cells.now i j }
{
    cells[place(i, j, n)]
}

pub fn put<K: Copy>(cells: &mut [Cell<K>], n: usize, i: usize, j: usize, cell: Cell<K>)
    requires few { n ≤ 128 }
    requires fits { n * n ≤ length cells.old }
    requires row { i < n }
    requires column { j < n }
    ensures { cells.new ≡ slice_set cells.old (i * n + j) cell }
{
    let p = place(i, j, n);
    cells[p] = cell;
}

// Empties the first m cells, and leaves the rest as they are.
// m beside the slice: the clause says of the cells behind it too that they stay
pub fn clear<K: Copy>(cells: &mut [Cell<K>], m: usize)
    requires fits { m ≤ length cells.old }
    ensures { cells.new ≡ cleared m cells.old }
{
    cells[..m].fill(blank());
}
