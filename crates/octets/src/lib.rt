// Numbers as bytes, high byte first: of any width, both ways, and at a place.
#![tactic(auto)]

pub mod field;
pub mod number;
