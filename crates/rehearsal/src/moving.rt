// What machines do.
use crate::letter::{About, Letter};
use crate::said::put_deeds;
use crate::stage::{Stage, Voice};
use agents::agent::{Agent, NotRunning, Unsent};
use agents::order::Seen;
use agents::running::{is_ready, runs};
use jobs::ids::{MachineId, TaskId};
use script::bad::Bad;
use std::alloc::AllocError;

// All that is ordered, each as ready or not.
fn put_tasks(out: &mut String, agent: &Agent) -> Result<(), AllocError> {
    if agent.orders().is_empty() {
        return out.push_str("nothing");
    }
    for (i, order) in agent.orders().iter().enumerate() {
        let mark = if i == 0 { "" } else { ", " };
        let state = if is_ready(agent.seens(), order.task) {
            "ready"
        } else {
            "not ready"
        };
        write!(out, "{mark}{} {state}", order.task)?;
    }
    Ok(())
}

impl Stage {
    // The machine in that place reports.
    pub(crate) fn report(&mut self, place: usize, voice: Voice) -> Result<(), AllocError> {
        let Some(agent) = self.machines.at(place) else {
            return Ok(());
        };
        let frame = match agent.report(self.heap) {
            Ok(frame) => frame,
            Err(Unsent::NoMemory) => return Err(AllocError),
            // No script has so many reports.
            Err(Unsent::Last) => return Ok(()),
        };
        let head = agent.head();
        if voice == Voice::Loud {
            write!(self.said, "report {}: ", head.machine.0)?;
            write!(self.said, "life {}, number {}: ", head.life, head.number.0)?;
            put_tasks(&mut self.said, agent)?;
            self.said.push_str("\n")?;
        }
        self.post.put(Letter {
            about: About::Report(head),
            frame,
        })
    }

    // A machine reports, which is played from here on if it wasn't.
    pub(crate) fn report_of(&mut self, machine: MachineId) -> Result<(), Bad> {
        let place = self.machines.name(self.heap, machine)?;
        Ok(self.report(place, Voice::Loud)?)
    }

    // A task is ready wherever it runs.
    pub(crate) fn ready(&mut self, task: TaskId) -> Result<(), AllocError> {
        let mut nowhere = true;
        for agent in self.machines.agents_mut() {
            if agent.mark(task, true).is_ok() {
                writeln!(
                    self.said,
                    "ready {task}: machine {}",
                    agent.head().machine.0
                )?;
                nowhere = false;
            }
        }
        if nowhere {
            writeln!(self.said, "ready {task}: runs nowhere")?;
        }
        Ok(())
    }

    // A task dies wherever it runs, and is started again where it is ordered.
    pub(crate) fn dies(&mut self, task: TaskId) -> Result<(), AllocError> {
        let mut nowhere = true;
        for agent in self.machines.agents_mut() {
            if agent.die(task).is_ok() {
                let deeds = agent.start(self.heap)?;
                write!(
                    self.said,
                    "dies {task}: machine {}: ",
                    agent.head().machine.0
                )?;
                put_deeds(&mut self.said, deeds.as_slice())?;
                self.said.push_str("\n")?;
                nowhere = false;
            }
        }
        if nowhere {
            writeln!(self.said, "dies {task}: runs nowhere")?;
        }
        Ok(())
    }

    // A machine falls, which is played from here on if it wasn't.
    pub(crate) fn fall(&mut self, machine: MachineId) -> Result<(), Bad> {
        let _ = self.machines.name(self.heap, machine)?;
        if let Some(life) = self.machines.fall(self.heap, machine) {
            writeln!(self.said, "fall {}: life {life}", machine.0)?;
        }
        Ok(())
    }
}
