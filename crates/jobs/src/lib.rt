// What the herd has: jobs, machines and tasks, as rows of 64-bit words in two lent slices.
// `home` is all that outlives the dark, `live` what does not. Any words stand for some state,
// by the definitions of specs/Tables; each function says what its change makes of that state.
#![tactic(auto)]

pub mod closing;
pub mod dark;
pub mod encoding;
pub mod finding;
pub mod full;
pub mod ids;
pub mod job;
pub mod job_rows;
pub mod kinds;
pub mod layout;
pub mod machine;
pub mod machine_row;
pub mod machine_rows;
pub mod moves;
pub mod name;
pub mod naming;
pub mod packing;
pub mod phase;
pub mod reading;
pub mod rows;
pub mod spec;
pub mod sums;
pub mod task;
pub mod tasks;
