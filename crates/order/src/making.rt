// How an ordering is made, whole, and what it answers.
ghost use Rattle.std.specs.Prelude.{◌≡◌, ℕ, ◌<◌, ◌≤◌, List, length};
ghost use Rattle.order.specs.Orderings.{events_of, upto, event_of_rank, rank_of_event, told, arranged};

use super::event_order::{EventOrder, Misordered};
use std::array;

impl EventOrder {
    // Event i at rank i + 1.
    // a plain number: a type of those up to 128 would only move the test to the callers
    pub fn identity(n: usize) -> EventOrder
        requires { n ≤ 128 }
        ensures { events_of result ≡ upto n }
    {
        let places = array::from_fn(|k| k as u8);
        EventOrder {
            events: places,
            ranks: places,
            count: n,
        }
    }

    // The events of the list, from rank 1 to rank n; no ordering has more than 128 events.
    pub fn from_list(list: &[u8], n: usize) -> Result<EventOrder, Misordered>
        ensures { told result ≡ arranged n list.now }
    {
        if n > 128 || list.len() != n {
            return Err(Misordered::Count);
        }
        // two arrays by index: each turn writes one place of either
        let mut events = [0u8; 128];
        // 255 is no rank: an event keeps it until it is named
        let mut ranks = [255u8; 128];
        for (k, &number) in list.iter().enumerate() {
            let event = number as usize;
            if event >= n {
                return Err(Misordered::Outside);
            }
            if ranks[event] != 255 {
                return Err(Misordered::Again);
            }
            // two arrays, here and in `rank`: an EventOrder has its facts only once every place is filled
            events[k] = number;
            ranks[event] = k as u8;
        }
        Ok(EventOrder {
            events,
            ranks,
            count: n,
        })
    }

    pub fn count(&self) -> usize
        ensures { result ≡ length (events_of self.now) }
    {
        self.count
    }

    // The event of a rank from 1 to n.
    pub fn event_at(&self, rank: usize) -> Option<usize>
        ensures { result ≡ event_of_rank (events_of self.now) rank }
    {
        (1..=self.count)
            .contains(&rank)
            .then(|| self.events[rank - 1] as usize)
    }

    // The rank, from 1 to n, of an event below n.
    pub fn rank_of(&self, event: usize) -> Option<usize>
        ensures { result ≡ rank_of_event (events_of self.now) event }
    {
        (event < self.count).then(|| self.ranks[event] as usize + 1)
    }
}
