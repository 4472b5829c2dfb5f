// Elimination in any ordering: worked bounds start as the bounds in force, and ranks are taken out from the highest down.
#![tactic(auto)]

pub mod eliminate;
pub mod members;
pub mod ranks;
pub mod start;
