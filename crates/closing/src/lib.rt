// Closing a table of bounds: elimination and sweep, the loop of a contradiction, and walks of least sum.
#![tactic(auto)]

pub mod close;
pub mod contradiction;
pub mod trail;
pub mod walk;
