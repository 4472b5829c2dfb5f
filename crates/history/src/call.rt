// The calls on a net, each with its arguments, and what a net tells after them.
use net::refusal::Refusal;

#[derive(Clone, Copy, Debug, PartialEq, Eq)]
pub enum Call<'c, K> {
    Begin(usize),
    // of a sheet's bytes
    Read(&'c [u8]),
    Require(usize, usize, K),
    Withdraw(usize, usize),
    Arrange(&'c [u8]),
    Rank,
    // with so many bytes of the place that is lent
    Close(usize),
}

// Whether a net is closed, and the distance and the window of two events.
#[derive(Clone, Copy, Debug, PartialEq, Eq)]
pub struct Asked<K> {
    // a bool, as `is_closed` tells: three questions, each with its own answer
    pub closed: bool,
    pub distance: Result<Option<K>, Refusal>,
    pub window: Result<(Option<K>, Option<K>), Refusal>,
}

// What a net tells before a close, at the close, and after it.
#[derive(Clone, Copy, Debug, PartialEq, Eq)]
pub struct Report<K> {
    pub before: Asked<K>,
    pub closing: Result<(), Refusal>,
    pub after: Asked<K>,
}
