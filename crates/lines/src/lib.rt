// Lines: text and bytes, calls read from bytes, answers written as bytes.
#![tactic(auto)]

pub mod decimal;
pub mod hex;
pub mod input;
pub mod kind;
pub mod line;
pub mod list;
pub mod listing;
pub mod read;
pub mod reader;
pub mod reply;
pub mod stage;
pub mod step;
pub mod theorems;
pub mod write;
