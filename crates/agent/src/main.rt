// `agent MACHINE [DIR]`: an agent's moves by lines of standard input, and what it sends, starts and stops on standard output.
#![tactic(auto)]

mod life;
mod line;
mod serve;
mod skipped;
#[cfg(test)]
mod tests;

use jobs::ids::MachineId;
use life::{Trouble, rise};
use serve::serve;
use std::env;
use together::agent::come_up;

#[derive(Drop)]
struct Place {
    machine: MachineId,
    dir: String,
}

// The machine, and the directory of its life: the second argument, else the one that it is started in.
fn arguments(rt: &HostRuntime) -> Result<Place, Trouble> {
    let mut args = env::args(rt).map_err(Trouble::Arguments)?.skip(1);
    let number = args.next().ok_or(Trouble::Usage)?;
    let machine = number.as_str().parse().map_err(|_| Trouble::Usage)?;
    let dir = match args.next() {
        Some(dir) => dir,
        None => String::from_str(rt.alloc(), ".")?,
    };
    if args.next().is_some() {
        return Err(Trouble::Usage);
    }
    Ok(Place {
        machine: MachineId(machine),
        dir,
    })
}

fn run(rt: &HostRuntime) -> Result<(), Trouble> {
    let Place { machine, dir } = arguments(rt)?;
    let life = rise(rt, dir.as_str())?;
    let mut agent = come_up(rt.alloc(), machine, life);
    serve(rt, &mut agent, life).map_err(Trouble::Lines)
}

fn main(rt: HostRuntime) -> Result<(), Trouble> {
    run(&rt).inspect_err(|e| {
        let _ = eprintln!(rt; "agent: {e}");
    })
}
