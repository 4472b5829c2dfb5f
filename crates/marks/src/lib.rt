// Sets of marks, one mark for each event that a net can have.
#![tactic(auto)]

pub mod members;
pub mod operations;
pub mod set;
#[cfg(test)]
mod tests;
