// Calls and answers as bytes for those who have a heap, tools and agents: writing a call, reading an answer.
#![tactic(auto)]

pub mod call;
pub mod frame;
pub mod orders;
pub mod push;
pub mod read;
pub mod reply;
pub mod shown;
#[cfg(test)]
mod tests;
pub mod theorems;
pub mod unread;
pub mod unwritten;
