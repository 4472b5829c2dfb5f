// The counts of an elimination in a given ordering.
ghost use Rattle.std.specs.Prelude.{◌≡◌, ℕ, ◌-◌, ◌*◌, ◌/◌, ◌<◌, ◌≤◌, max, true, length};
ghost use Rattle.marks.specs.Sets.{has};
ghost use Rattle.order.specs.Orderings.{events_of};
ghost use Rattle.order.specs.Elimination.{pairs, not_joined, after};
ghost use Rattle.order.specs.Neighbours.{graph_of};
ghost use Rattle.order.specs.Counted.{counts_of};

use super::counts::Counts;
use super::event_order::EventOrder;
use super::neighbours::join;
use marks::set::Marks;

// How many pairs of members are not neighbours yet: each pair is met at its greater member.
fn pairs_apart(near: &[Marks], members: Marks) -> u32
    requires { (q : ℕ) → has members q ≡ true → q < length near.now }
    ensures value { result ≡ pairs (not_joined (graph_of near.now) (has members)) (length near.now) }
    ensures bounded { result ≤ 16384 }
{
    let mut total = 0;
    let mut seen = Marks::none();
    for event in members.members() {
        total += seen.difference(near[event]).count();
        seen = seen.with(event);
    }
    total
}

// The events are eliminated from the highest rank down; the sets end as the neighbours after that.
pub fn count_elimination(near: &mut [Marks], order: &EventOrder) -> Counts
    requires { length near.old ≡ order.now.count }
    ensures value { result ≡ counts_of order.now.count (graph_of near.old) (events_of order.now) }
    ensures bounded { result.looks ≤ result.width * order.now.count * (order.now.count - 1) / 2 }
    ensures ended { graph_of near.new ≡ after order.now.count (graph_of near.old) (events_of order.now) }
{
    let mut free = Marks::all_below(order.count);
    let mut width = 0;
    let mut fill = 0;
    let mut looks = 0;
    for place in (0..order.count).rev() {
        let event = order.events[place] as usize;
        free = free.without(event);
        // the step of `rank`, but the pairs are counted before they are joined
        let lower = near[event].intersection(free);
        let degree = lower.count();
        width = width.max(degree);
        fill += pairs_apart(near, lower);
        looks += (place as u32) * degree;
        join(near, lower);
    }
    Counts { width, fill, looks }
}
