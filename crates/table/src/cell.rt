// What the table holds of one pair of events. The fields lie in an order that leaves no gaps: 56 bytes for kind 1.
// A rank stands beside its bound and not inside: most readers want the bound alone, and some bounds have no rank.
#[derive(Clone, Copy)]
#[derive_where(Default)]
pub struct Cell<K> {
    // the bound in force
    pub bound: Option<K>,
    // the worked bound of the elimination
    pub worked: Option<K>,
    // the least sum of a walk
    pub distance: Option<K>,
    // the rank, from 0, by which the worked bound last became less
    pub via: Option<u8>,
    // the rank, from 0, that the sweep chose for the least sum
    pub by: Option<u8>,
}
