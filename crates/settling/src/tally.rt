// What is there of a job.

// The last task that surely isn't ready, and the last that is, by their rows.
#[derive(Clone, Copy, Default)]
pub struct Picks {
    pub idle: Option<usize>,
    pub busy: Option<usize>,
}

#[derive(Clone, Copy, Default)]
pub struct Tally {
    // All tasks, of whatever job.
    pub total: usize,
    // Those of the job, ending ones too.
    pub all: usize,
    // Those of the present version that aren't ending.
    pub new: usize,
    pub ready: usize,
    // Of older versions, and of the present one, not ending.
    pub old: Picks,
    pub newer: Picks,
}
