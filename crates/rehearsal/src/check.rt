// Does what really runs keep what is promised.
ghost use Rattle.std.specs.Prelude.{◌≡◌};
ghost use Rattle.rehearsal.specs.Checks.{SharedAs, TooAs, TwiceAs};

use crate::machines::Machines;
use crate::mosts::Mosts;
use crate::tally::{Sum, count};
use agents::agent::Agent;
use agents::order::Seen;
use agents::running::{order_for, runs};
use calls::mind::Mind;
use jobs::finding::find_machine;
use jobs::ids::{MachineId, TaskId};
use jobs::rows::MACHINES;
use std::alloc::AllocError;

// More than there is, on a machine: what runs, and what it has.
#[derive(Clone, Copy, Debug)]
pub struct Over {
    pub machine: MachineId,
    pub runs: Sum,
    pub has: Sum,
}

// A task at two places.
#[derive(Clone, Copy, Debug)]
pub struct Twice {
    pub task: TaskId,
    pub first: MachineId,
    pub second: MachineId,
}

// What runs on a machine, by what was ordered there last.
fn running(agent: &Agent) -> Sum {
    let mut sum = Sum::default();
    for seen in agent.seens() {
        if let Some(order) = order_for(agent.orders(), seen.task) {
            sum = sum.add(order.spec.cpu, order.spec.mem);
        }
    }
    sum
}

// What a machine has: nothing, if the herd doesn't have it.
fn has(mind: &Mind, machine: MachineId) -> Sum {
    match find_machine(&mind.home, machine) {
        Some(r) => {
            let row = MACHINES.row(&mind.home, r);
            Sum::default().add(row.cpu(), row.mem())
        }
        None => Sum::default(),
    }
}

// The first machine on which more runs than it has.
pub fn first_over(mind: &Mind, agents: &[Agent]) -> Option<Over> {
    for agent in agents {
        let machine = agent.head().machine;
        let runs = running(agent);
        let has = has(mind, machine);
        if runs.cpu > has.cpu || runs.mem > has.mem {
            return Some(Over { machine, runs, has });
        }
    }
    None
}

// The first of these machines that runs that task, too.
fn runs_too(agents: &[Agent], task: TaskId) -> Option<MachineId>
    ensures { TooAs task.0 agents.now result }
{
    for agent in agents {
        if runs(agent.seens(), task) {
            return Some(agent.head().machine);
        }
    }
    None
}

// The first task of one machine that one of these others runs, too.
fn shared(seens: &[Seen], first: MachineId, others: &[Agent]) -> Option<Twice>
    ensures { SharedAs seens.now first others.now result }
{
    for seen in seens {
        if let Some(second) = runs_too(others, seen.task) {
            return Some(Twice {
                task: seen.task,
                first,
                second,
            });
        }
    }
    None
}

// The first task that runs at two places.
pub fn first_twice(agents: &[Agent]) -> Option<Twice>
    ensures { TwiceAs agents.now result }
{
    let mut rest = agents;
    while let Some((agent, others)) = rest.split_first() {
        if let Some(found) = shared(agent.seens(), agent.head().machine, others) {
            return Some(found);
        }
        rest = others;
    }
    None
}

fn put_within(out: &mut String, mind: &Mind, agents: &[Agent]) -> Result<bool, AllocError> {
    let Some(Over { machine, runs, has }) = first_over(mind, agents) else {
        out.push_str("check within: ok\n")?;
        return Ok(true);
    };
    write!(out, "check within: machine {} runs ", machine.0)?;
    write!(out, "cpu {} of {}, ", runs.cpu, has.cpu)?;
    writeln!(out, "memory {} of {}", runs.mem, has.mem)?;
    Ok(false)
}

fn put_twice(out: &mut String, agents: &[Agent]) -> Result<bool, AllocError> {
    let Some(
        Twice {
            task,
            first,
            second,
        },
    ) = first_twice(agents)
    else {
        out.push_str("check twice: ok\n")?;
        return Ok(true);
    };
    writeln!(
        out,
        "check twice: task {task} on {} and {}",
        first.0, second.0
    )?;
    Ok(false)
}

fn put_most(out: &mut String, mind: &Mind, mosts: &Mosts) -> Result<bool, AllocError> {
    for most in mosts.list() {
        let name = most.name.as_str();
        let bytes = name.as_bytes();
        let tasks = count(mind, |row, _| row.kind().is_named(&bytes));
        if tasks > usize::from(most.highest) {
            write!(out, "check most: {name} has {tasks} tasks, ")?;
            writeln!(out, "and its most was never above {}", most.highest)?;
            return Ok(false);
        }
    }
    out.push_str("check most: ok\n")?;
    Ok(true)
}

// Three lines, and whether all is well.
pub fn put_check(
    out: &mut String,
    mind: &Mind,
    machines: &Machines,
    mosts: &Mosts,
) -> Result<bool, AllocError> {
    let within = put_within(out, mind, machines.agents())?;
    let once = put_twice(out, machines.agents())?;
    let few = put_most(out, mind, mosts)?;
    Ok(within && once && few)
}
