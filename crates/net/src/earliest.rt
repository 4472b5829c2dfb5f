// The least of the distances to each event.
ghost use Rattle.std.specs.Prelude.{◌≡◌, ◌*◌, ◌<◌, ◌≤◌, length, drop};
ghost use Rattle.table.specs.Cells.{amount_of};
ghost use Rattle.walks.specs.Least.{least};
ghost use Rattle.net.specs.Times.{column, Earliest};

use super::lesser::lesser;
use kinds::kind::Kind;
use table::cell::Cell;
use table::grid::at;

// The least of the distances to j.
fn earliest<K: Kind>(cells: &[Cell<K>], n: usize, j: usize) -> Option<K>
    requires few { n ≤ 128 }
    requires fits { n * n ≤ length cells.now }
    requires column { j < n }
    ensures { amount_of K.Kind.amount result ≡ least K.Kind.arithmetic n (column K.Kind.amount n cells.now j) }
{
    let mut best = None;
    // a loop: `fold` would need the clauses of `lesser` on its closure
    for i in 0..n {
        best = lesser(best, at(cells, n, i, j).distance);
    }
    best
}

// Writes the least of the distances to each of n events, where there is one.
// the caller has tested the length of the place, which is lent
pub fn write_times<K: Kind>(cells: &[Cell<K>], n: usize, place: &mut [K])
    requires few { n ≤ 128 }
    requires fits { n * n ≤ length cells.now }
    requires room { n ≤ length place.old }
    ensures times { Earliest K.Kind.arithmetic K.Kind.amount n cells.now n place.new }
    ensures rest { drop n place.new ≡ drop n place.old }
{
    let times = &mut place[..n];
    for (j, time) in times.iter_mut().enumerate() {
        if let Some(least) = earliest(cells, n, j) {
            *time = least;
        }
    }
}
