// The timing sheet: its bytes read into a net, and a net written as bytes.
#![tactic(auto)]

pub mod fault;
pub mod form;
pub mod outline;
pub mod performing;
pub mod reader;
pub mod reading;
pub mod writing;
