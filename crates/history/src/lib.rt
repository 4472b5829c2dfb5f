// Every succession of calls on one net, and the law that holds after it.
#![tactic(auto)]

pub mod call;
pub mod performing;
pub mod rejection;
