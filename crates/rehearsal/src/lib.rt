// A herd and its machines in memory, and what a script makes of them.
//
// Nothing of what a herd or an agent does is written here again: each call goes by the function that `herd` calls for each line, over kept
// words with a fuse, and each move of a machine is one of the agent's moves.
#![tactic(auto)]

pub mod calling;
pub mod check;
pub mod herd;
pub mod letter;
pub mod machines;
pub mod mosts;
pub mod moving;
pub mod play;
pub mod post;
pub mod rehearsal;
pub mod rest;
pub mod rounds;
pub mod said;
pub mod settle;
pub mod show;
pub mod stage;
pub mod tally;
pub mod words;
