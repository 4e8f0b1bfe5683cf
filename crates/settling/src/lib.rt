// One pass: tasks of jobs that are no longer wanted end, each job makes one step, and tasks that wait are placed.
// The state after it is `settle` of the state before. Nothing allocates, nothing recurses, each loop goes over rows.
#![tactic(auto)]

pub mod choosing;
pub mod counting;
pub mod ending;
pub mod growing;
pub mod load;
pub mod loads;
pub mod pass;
pub mod placing;
pub mod presence;
pub mod stepping;
pub mod sweeping;
pub mod tally;
#[cfg(test)]
mod tests;
