// Calls and answers, as values of the code: what is said to the herd, and what it says.
#![tactic(auto)]

pub mod act;
pub mod add;
pub mod answer;
pub mod call;
pub mod clock;
pub mod heard;
pub mod mind;
pub mod names;
pub mod outcome;
pub mod report;
pub mod seen;
pub mod setting;
pub mod sound;
pub mod sweeps;
pub mod versions;
pub mod wanted;
