// What is on a machine.
use jobs::ids::MachineId;

// Cpu and memory of all that is on it, and whether a task of the job in question is.
#[derive(Clone, Copy, Default)]
pub struct Load {
    pub cpu: u64,
    pub mem: u64,
    pub mine: bool,
}

// What one task adds to the machine that it is on.
#[derive(Clone, Copy)]
pub struct Weight {
    pub machine: MachineId,
    pub cpu: u32,
    pub mem: u32,
    pub mine: bool,
}

// A machine by its row, and how much cpu it has left.
#[derive(Clone, Copy)]
pub struct Choice {
    pub at: usize,
    pub left: u64,
}
