// A net over a table that is lent to it until the net's end.
use super::mode::Mode;
use table::lent::Table;

pub mod close;
pub mod distances;
pub mod laying;
pub mod making;
pub mod ordering;
pub mod questions;
pub mod times;

// That the room stays, and that a refusal alters nothing, stands at each call: a type speaks of one value, not of before and after.
#[derive(Drop)]
pub struct Net<'t, K> {
    table: Table<'t, K>,
    // a field beside the table: open or closed, the same cells are lent, and they change in place
    mode: Mode,
}
