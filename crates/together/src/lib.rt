// All together as it runs: the herd's code over kept words, lines of bytes, and agents. What the model promises holds of that.
//
// herd, agent: what the programs call, each call a move of the world as it runs
// theorems: what is shown of all together
#![tactic(auto)]

pub mod agent;
pub mod herd;
pub mod theorems;
