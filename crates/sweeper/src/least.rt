// The least sum found so far, and the rank by which it was put together.
// Two Options, since no rank put the sum together where it is the bound itself.
#[derive(Clone, Copy)]
pub struct Least<K> {
    pub sum: Option<K>,
    pub by: Option<u8>,
}
