// Orderings of events: how they are made, asked and ranked, and what an elimination in one counts.
#![tactic(auto)]

pub mod counts;
pub mod eliminating;
pub mod event_order;
pub mod making;
pub mod neighbours;
pub mod rank;
#[cfg(test)]
mod tests;
