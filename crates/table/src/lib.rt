// The table of a net: one cell for each pair of events, in one slice, row by row.
#![tactic(auto)]

pub mod cell;
pub mod grid;
pub mod lent;
