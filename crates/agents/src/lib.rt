// What an agent does on its machine: it comes up with a life that was never used, reports, obeys the answer to its last
// report and nothing else, and starts what is ordered. Each move is a step of the model, or several, or none.
#![tactic(auto)]

pub mod agent;
pub mod deeds;
pub mod head;
pub mod heard;
pub mod life;
pub mod moves;
pub mod order;
pub mod read;
pub mod report;
pub mod running;
pub mod text;
pub mod theorems;
pub mod turn;
