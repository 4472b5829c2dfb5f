// A set of the events below 128: one digit each.
#[derive(Clone, Copy)]
pub struct Marks {
    pub digits: u128,
}
