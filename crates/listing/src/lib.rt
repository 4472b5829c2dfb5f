// The listing of a sheet of whole microseconds: its windows, its contradiction or its fault, as text.
#![tactic(auto)]

mod asking;
pub mod listing;
mod pairs;
