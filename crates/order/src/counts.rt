// What an elimination counts.
#[derive(Clone, Copy, Debug, PartialEq, Eq)]
pub struct Counts {
    // the greatest number of lower-ranked neighbours met at one elimination
    pub width: u32,
    // the number of pairs that elimination made neighbours
    pub fill: u32,
    // over all ranks k, (k - 1) times the number of lower-ranked neighbours
    pub looks: u32,
}
