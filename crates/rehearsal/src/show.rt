// What the herd counts where, and what really runs there.
use crate::machines::Machines;
use crate::tally::{count, load_on};
use agents::agent::Agent;
use agents::order::Seen;
use agents::running::{is_ready, runs};
use calls::mind::Mind;
use jobs::finding::find_machine;
use jobs::ids::{MachineId, TaskId};
use jobs::layout::{MAX_MACHINES, MAX_TASKS};
use jobs::naming::Spelled;
use jobs::phase::Phase;
use jobs::rows::{Kind, MACHINES, MachineRow, TASKS, TaskRow};
use settling::presence::heard_lately;
use std::alloc::AllocError;

fn state(ready: bool) -> &'static str {
    if ready {
        "runs, ready"
    } else {
        "runs, not ready"
    }
}

// What really runs of a task.
fn real(agent: Option<&Agent>, task: TaskId) -> &'static str {
    match agent {
        Some(agent) if runs(agent.seens(), task) => state(is_ready(agent.seens(), task)),
        _ => "doesn't run",
    }
}

fn phase_word(phase: Phase) -> &'static str {
    match phase {
        Phase::Waiting => "waiting",
        Phase::Told(_) => "told",
        Phase::Ready(_) => "ready",
        Phase::Ending(_) => "ending",
    }
}

// The name's characters.
fn put_name(out: &mut String, kind: Kind) -> Result<(), AllocError> {
    let name = kind.name();
    for k in 0..name.len() {
        out.push(char::from(name.byte(k)))?;
    }
    Ok(())
}

fn put_task(out: &mut String, row: TaskRow) -> Result<(), AllocError> {
    write!(out, "task {} of ", row.id())?;
    put_name(out, row.kind())?;
    write!(out, ", version {}", row.kind().version().0)
}

// What the herd counts on a machine, each with what really runs of it.
fn put_counted(
    out: &mut String,
    mind: &Mind,
    machine: MachineId,
    agent: Option<&Agent>,
) -> Result<(), AllocError> {
    for i in 0..TASKS.in_use(&mind.home) {
        let row = TASKS.row(&mind.home, i);
        if !row.is_hole() && !row.is_waiting() && row.machine() == machine {
            out.push_str("  ")?;
            put_task(out, row)?;
            let phase = phase_word(row.phase(mind.live[MAX_MACHINES + i]));
            writeln!(out, ": {phase}; {}", real(agent, row.id()))?;
        }
    }
    Ok(())
}

// Does the herd count that task on that machine.
fn is_counted(mind: &Mind, machine: MachineId, task: TaskId) -> bool {
    count(mind, |row, _| {
        !row.is_waiting() && row.machine() == machine && row.id() == task
    }) > 0
}

// What runs on a machine and isn't counted there.
fn put_uncounted(
    out: &mut String,
    mind: &Mind,
    machine: MachineId,
    seens: &[Seen],
) -> Result<(), AllocError> {
    for seen in seens {
        if !is_counted(mind, machine, seen.task) {
            writeln!(
                out,
                "  task {}: not counted; {}",
                seen.task,
                state(seen.ready)
            )?;
        }
    }
    Ok(())
}

// A machine that the herd has, by its row, and when it was heard.
fn put_machine(
    out: &mut String,
    mind: &Mind,
    machines: &Machines,
    row: MachineRow,
    heard: u64,
) -> Result<(), AllocError> {
    let open = if row.is_open() { "open" } else { "closed" };
    let present = if heard_lately(heard, mind.time) {
        "present"
    } else {
        "absent"
    };
    let load = load_on(mind, row.num());
    write!(out, "machine {}: {open}, {present}, ", row.num().0)?;
    write!(out, "life {}, number {}, ", row.life(), row.number().0)?;
    writeln!(
        out,
        "cpu {} of {}, memory {} of {}",
        load.cpu,
        row.cpu(),
        load.mem,
        row.mem()
    )?;
    let agent = machines.agent(row.num());
    put_counted(out, mind, row.num(), agent)?;
    match agent {
        Some(agent) => put_uncounted(out, mind, row.num(), agent.seens()),
        None => Ok(()),
    }
}

// A machine that the herd doesn't have.
fn put_stranger(out: &mut String, mind: &Mind, agent: &Agent) -> Result<(), AllocError> {
    let machine = agent.head().machine;
    writeln!(out, "machine {}: not added", machine.0)?;
    put_uncounted(out, mind, machine, agent.seens())
}

fn put_waiting(out: &mut String, mind: &Mind) -> Result<(), AllocError> {
    for i in 0..TASKS.in_use(&mind.home) {
        let row = TASKS.row(&mind.home, i);
        if !row.is_hole() && row.is_waiting() {
            out.push_str("waiting: ")?;
            put_task(out, row)?;
            out.push_str("\n")?;
        }
    }
    if count(mind, |row, _| row.is_waiting()) == 0 {
        out.push_str("waiting: none\n")?;
    }
    Ok(())
}

// All that there is.
pub fn put_all(
    out: &mut String,
    mind: &Mind,
    machines: &Machines,
    letters: usize,
) -> Result<(), AllocError> {
    write!(out, "time {}\nletters {letters}\n", mind.time)?;
    for r in 0..MACHINES.in_use(&mind.home) {
        let row = MACHINES.row(&mind.home, r);
        if !row.is_hole() {
            put_machine(out, mind, machines, row, mind.live[r])?;
        }
    }
    for agent in machines.agents() {
        if find_machine(&mind.home, agent.head().machine).is_none() {
            put_stranger(out, mind, agent)?;
        }
    }
    put_waiting(out, mind)
}
