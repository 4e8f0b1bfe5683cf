// What answers that a table is full.

// No more room for another.
#[derive(Clone, Copy, Debug, PartialEq, Eq)]
pub struct Full;
