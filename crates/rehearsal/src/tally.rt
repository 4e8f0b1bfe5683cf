// What the herd counts, added up over its rows of tasks.
use calls::mind::Mind;
use jobs::ids::MachineId;
use jobs::layout::{MAX_MACHINES, MAX_TASKS};
use jobs::phase::Phase;
use jobs::rows::{TASKS, TaskRow};

// Cpu and memory of what is on a machine.
#[derive(Clone, Copy, Debug, Default, PartialEq, Eq)]
pub struct Sum {
    pub cpu: u64,
    pub mem: u64,
}

impl Sum {
    pub fn add(self, cpu: u32, mem: u32) -> Self {
        Sum {
            cpu: self.cpu.saturating_add(u64::from(cpu)),
            mem: self.mem.saturating_add(u64::from(mem)),
        }
    }
}

// How many tasks there are in each phase.
#[derive(Clone, Copy, Debug, Default, PartialEq, Eq)]
pub struct Phases {
    pub waiting: usize,
    pub told: usize,
    pub ready: usize,
    pub ending: usize,
}

// How many tasks are so, by their rows and phases.
pub fn count<F: Fn(TaskRow, Phase) -> bool>(mind: &Mind, is_so: F) -> usize
    requires { F.IsAlwaysCallable is_so }
{
    let mut count = 0usize;
    for i in 0..TASKS.in_use(&mind.home) {
        let row = TASKS.row(&mind.home, i);
        if !row.is_hole() && is_so(row, row.phase(mind.live[MAX_MACHINES + i])) {
            count = count.saturating_add(1);
        }
    }
    count
}

// All that the herd counts on that machine.
pub fn load_on(mind: &Mind, machine: MachineId) -> Sum {
    let mut sum = Sum::default();
    for i in 0..TASKS.in_use(&mind.home) {
        let row = TASKS.row(&mind.home, i);
        if !row.is_hole() && !row.is_waiting() && row.machine() == machine {
            sum = sum.add(row.kind().cpu(), row.kind().mem());
        }
    }
    sum
}

// How many tasks there are in each phase.
pub fn count_phases(mind: &Mind) -> Phases {
    let mut n = Phases::default();
    for i in 0..TASKS.in_use(&mind.home) {
        let row = TASKS.row(&mind.home, i);
        if row.is_hole() {
            continue;
        }
        match row.phase(mind.live[MAX_MACHINES + i]) {
            Phase::Waiting => n.waiting = n.waiting.saturating_add(1),
            Phase::Told(_) => n.told = n.told.saturating_add(1),
            Phase::Ready(_) => n.ready = n.ready.saturating_add(1),
            Phase::Ending(_) => n.ending = n.ending.saturating_add(1),
        }
    }
    n
}
