// Where a task is.
use crate::ids::{Life, MachineId};

// A machine, in a life of its agent.
#[derive(Clone, Copy)]
pub struct Place {
    pub machine: MachineId,
    pub life: Life,
}

#[derive(Clone, Copy)]
pub enum Phase {
    Waiting,
    Told(Place),
    Ready(Place),
    Ending(Place),
}

// What a task's row says of that: it waits, is on a machine, or is ending there; whether it is ready stands elsewhere.
#[derive(Clone, Copy, PartialEq, Eq)]
pub enum Mark {
    Waiting = 0,
    Placed = 1,
    Ending = 2,
}
