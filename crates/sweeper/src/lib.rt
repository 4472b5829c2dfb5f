// The sweep: distances between all ranks, from the worked bounds that the elimination left.
#![tactic(auto)]

mod best;
pub mod least;
pub mod sweep;
