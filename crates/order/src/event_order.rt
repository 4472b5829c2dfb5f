// An ordering of at most 128 events, and what a list may lack to be one.
ghost use Rattle.std.specs.Prelude.{◌≡◌, ℕ, ◌<◌, ◌≤◌, slice_index};

// Which event stands at each place and at which place each event stands; places count from 0, ranks from 1.
// The one undoes the other below `count`, so no event is left out and none stands twice. Arrays, since no heap is used.
// No derived equality: it would compare the bytes past `count` too.
// Bytes and indices become each other by `as`: what is below `count` loses nothing.
#[derive(Clone, Copy)]
pub struct EventOrder {
    // 128 as a number, in the crates above too: contracts and facts have it so, and a constant would be a second name.
    pub events: [u8; 128],
    pub ranks: [u8; 128],
    pub count: usize,
    ghost fits: { count ≤ 128 },
    ghost events_below: { (place : ℕ) → place < count → slice_index events place < count },
    ghost ranks_below: { (event : ℕ) → event < count → slice_index ranks event < count },
    ghost there: { (place : ℕ) → place < count → slice_index ranks (slice_index events place) ≡ place },
    ghost back: { (event : ℕ) → event < count → slice_index events (slice_index ranks event) ≡ event },
}

// Why a list is no ordering of n events.
#[derive(Clone, Copy, Debug, PartialEq, Eq)]
pub enum Misordered {
    // it does not have n events, or n is more than 128
    Count,
    // one of them is not below n
    Outside,
    // one of them stood earlier
    Again,
}
