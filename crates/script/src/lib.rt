// The language of scripts: a line of text as a command, and the generator by which lines are bad.
//
// What a line says is decided here, and nothing of what it does. Whatever the line is, it is one command or is refused with a reason;
// the generator draws exactly the numbers that splitmix64 gives.
#![tactic(auto)]

pub mod bad;
pub mod command;
pub mod numbers;
pub mod parse;
pub mod splitmix;
pub mod usage;
