// What runs, and what is done about it and about what is ordered.
use jobs::ids::TaskId;
use std::fmt;
use wire::reply::Order;

// A task that runs, ready or not.
#[derive(Clone, Copy)]
pub struct Seen {
    pub task: TaskId,
    pub ready: bool,
}

// What is done on the machine.
#[derive(Clone, Copy)]
pub enum Deed {
    Stop(TaskId),
    Start(Order),
}

impl fmt::Display for Deed {
    fn fmt<W: fmt::Write>(&self, f: &mut fmt::Formatter<W>) -> fmt::Result {
        match self {
            Deed::Stop(task) => write!(f, "stop {task}"),
            Deed::Start(order) => {
                let Order { task, spec } = order;
                write!(f, "start {task} {} {} {}", spec.image, spec.cpu, spec.mem)
            }
        }
    }
}
