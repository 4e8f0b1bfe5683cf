// An answer as it was read.
ghost use Rattle.std.specs.Prelude.{◌≤◌, vec_len};

use calls::answer::RunOn;
use jobs::ids::{MachineId, TaskId, Version};
use jobs::spec::Spec;

// A task that is to run.
#[derive(Clone, Copy)]
pub struct Order {
    pub task: TaskId,
    pub spec: Spec,
}

// The report that was answered, and all that is to run.
#[derive(Drop)]
pub struct Run {
    pub on: RunOn,
    pub orders: Vec<Order>,
    ghost few: { vec_len orders ≤ 65535 },
}

// A task's phase, without the place where it is: that stands beside it.
#[derive(Clone, Copy, Debug, PartialEq, Eq)]
pub enum Phase {
    Waiting = 0,
    Told = 1,
    Ready = 2,
    Ending = 3,
}

// A task that is shown.
#[derive(Clone, Copy, Debug, PartialEq, Eq)]
pub struct Shown {
    pub task: TaskId,
    pub version: Version,
    pub phase: Phase,
    pub machine: MachineId,
}

#[derive(Drop)]
pub enum Reply {
    // By its number, and not a `Refusal`: any byte may come.
    TurnedAway(u8),
    Yes,
    Run(Run),
    Lines(Vec<Shown>),
}

// An answer, and the tag that it bears.
#[derive(Drop)]
pub struct Answered {
    pub tag: u32,
    pub reply: Reply,
}
