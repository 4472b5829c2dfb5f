// The kinds of bound: what makes one lawful, whole microseconds, strict microseconds, and the sum of a row of bounds.
#![tactic(auto)]

mod bytes;
pub mod kind;
pub mod micros;
pub mod strict;
pub mod total;
