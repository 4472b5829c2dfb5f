// Lines of text, exact to the byte, into the front of a slice.
#![tactic(auto)]

mod fields;
pub mod line;
pub mod writing;
