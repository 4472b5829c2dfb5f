// The net: events with bounds between them and an ordering, over a table that is lent to it.
#![tactic(auto)]

pub mod earliest;
pub mod lent;
pub mod lesser;
pub mod links;
pub mod mode;
pub mod net;
pub mod refusal;
