// The ordering by fewest neighbours.
ghost use Rattle.std.specs.Prelude.{◌≡◌, ◌≤◌, length};
ghost use Rattle.order.specs.Orderings.{events_of};
ghost use Rattle.order.specs.Elimination.{after};
ghost use Rattle.order.specs.Neighbours.{graph_of};
ghost use Rattle.order.specs.Ranking.{Ranked, ranking};

use super::event_order::EventOrder;
use super::neighbours::{fewest, join};
use marks::set::Marks;

// Ranks from the highest down, each to the unranked event with fewest unranked neighbours, the lowest number among equals.
// The sets end as the neighbours after the elimination.
pub fn rank(near: &mut [Marks]) -> EventOrder
    requires { length near.old ≤ 128 }
    ensures value { events_of result ≡ ranking (length near.old) (graph_of near.old) (length near.old) }
    ensures ruled { Ranked (length near.old) (graph_of near.old) (events_of result) }
    ensures ended { graph_of near.new ≡ after (length near.old) (graph_of near.old) (events_of result) }
{
    let count = near.len();
    // two arrays by index: each turn writes one place of either
    let mut events = [0u8; 128];
    let mut ranks = [0u8; 128];
    let mut free = Marks::all_below(count);
    let mut place = count;
    // Counted by hand: a `for` over the places would need a way out for the event that is always there.
    while let Some(event) = fewest(near, free) {
        place -= 1;
        events[place] = event as u8;
        ranks[event] = place as u8;
        free = free.without(event);
        let lower = near[event].intersection(free);
        join(near, lower);
    }
    EventOrder {
        events,
        ranks,
        count,
    }
}
