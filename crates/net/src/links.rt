// The neighbours of each event, the ordering by fewest of them, and what an elimination counts.
// Events here, ranks in the eliminator's start: one function for both takes closures, whose clauses are longer.
ghost use Rattle.std.specs.Prelude.{◌≡◌, ℕ, ◌-◌, ◌*◌, ◌/◌, ◌<◌, ◌≤◌, length};
ghost use Rattle.marks.specs.Sets.{has};
ghost use Rattle.order.specs.Orderings.{events_of};
ghost use Rattle.order.specs.Neighbours.{graph_of};
ghost use Rattle.order.specs.Counted.{counts_of};
ghost use Rattle.order.specs.Ranking.{Ranked, ranking};
ghost use Rattle.table.specs.Cells.{bounds};
ghost use Rattle.table.specs.Cells as cells_spec;

use super::net::making::MOST_EVENTS;
use kinds::kind::Kind;
use marks::set::Marks;
use order::counts::Counts;
use order::eliminating::count_elimination;
use order::event_order::EventOrder;
use order::rank::rank;
use table::cell::Cell;
use table::grid::at;

// Whether a bound is in force between two different events, in either direction.
fn linked<K: Kind>(cells: &[Cell<K>], n: usize, i: usize, j: usize) -> bool
    requires few { n ≤ 128 }
    requires fits { n * n ≤ length cells.now }
    requires row { i < n }
    requires column { j < n }
    ensures { result ≡ cells_spec.neighbours (bounds K.Kind.amount n cells.now) i j }
{
    i != j && (at(cells, n, i, j).bound.is_some() || at(cells, n, j, i).bound.is_some())
}

// The neighbours of event i.
fn neighbours<K: Kind>(cells: &[Cell<K>], n: usize, i: usize) -> Marks
    requires few { n ≤ 128 }
    requires fits { n * n ≤ length cells.now }
    requires row { i < n }
    ensures { (q : ℕ) → has result q ≡ cells_spec.neighbours (bounds K.Kind.amount n cells.now) i q }
{
    Marks::of(n, |j| linked(cells, n, i, j))
}

// Writes the neighbours of every event at the start of the place, and tells that part of it. There is no heap to put them on.
fn gather<'n, K: Kind>(cells: &[Cell<K>], n: usize, place: &'n mut [Marks]) -> &'n mut [Marks]
    requires few { n ≤ 128 }
    requires fits { n * n ≤ length cells.now }
    requires room { n ≤ length place.old }
    ensures sized { length result.now ≡ n }
    ensures near { (i j : ℕ) → graph_of result.now i j ≡ cells_spec.neighbours (bounds K.Kind.amount n cells.now) i j }
{
    let near = &mut place[..n];
    for (i, marks) in near.iter_mut().enumerate() {
        *marks = neighbours(cells, n, i);
    }
    near
}

// Ranks from n down, each to the unranked event with fewest unranked neighbours, the lowest number among equals.
// The place stands here and in `counts`, since `gather` tells a part of it; a closure for the rest would be longer.
pub fn by_fewest<K: Kind>(cells: &[Cell<K>], n: usize) -> EventOrder
    requires few { n ≤ 128 }
    requires fits { n * n ≤ length cells.now }
    ensures sized { result.count ≡ n }
    ensures value { events_of result ≡ ranking n (cells_spec.neighbours (bounds K.Kind.amount n cells.now)) n }
    ensures ruled { Ranked n (cells_spec.neighbours (bounds K.Kind.amount n cells.now)) (events_of result) }
{
    let mut place = [Marks::none(); MOST_EVENTS];
    rank(gather(cells, n, &mut place))
}

// What an elimination in the ordering counts.
pub fn counts<K: Kind>(cells: &[Cell<K>], order: &EventOrder) -> Counts
    requires fits { order.now.count * order.now.count ≤ length cells.now }
    ensures value { result ≡ counts_of order.now.count (cells_spec.neighbours (bounds K.Kind.amount order.now.count cells.now)) (events_of order.now) }
    ensures bounded { result.looks ≤ result.width * order.now.count * (order.now.count - 1) / 2 }
{
    let mut place = [Marks::none(); MOST_EVENTS];
    count_elimination(gather(cells, order.count, &mut place), order)
}
