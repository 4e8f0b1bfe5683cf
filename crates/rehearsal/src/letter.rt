// What goes on the lines: reports to the herd, and its answers to machines.
use agents::head::Head;
use jobs::ids::MachineId;
use std::alloc::{AllocError, Global};
use std::fmt;

// What a letter is, by what stands in its frame.
#[derive(Clone, Copy, Debug, PartialEq, Eq)]
pub enum About {
    Report(Head),
    // The answer to a report, with what is to run.
    Run(Head),
    // To that machine: a refusal by its number, which may be any byte.
    Refused(MachineId, u8),
}

#[derive(Drop)]
pub struct Letter {
    pub about: About,
    pub frame: Vec<u8>,
}

impl Letter {
    // The same letter once more.
    pub fn doubled(&self, heap: Global) -> Result<Letter, AllocError> {
        Ok(Letter {
            about: self.about,
            frame: Vec::from_slice(heap, self.frame.as_slice())?,
        })
    }
}

impl fmt::Display for About {
    fn fmt<W: fmt::Write>(&self, f: &mut fmt::Formatter<W>) -> fmt::Result {
        match self {
            About::Report(head) => write!(
                f,
                "report of {}, life {}, number {}",
                head.machine.0, head.life.0, head.number.0
            ),
            About::Run(head) => write!(
                f,
                "answer to {}, life {}, number {}",
                head.machine.0, head.life.0, head.number.0
            ),
            About::Refused(machine, number) => {
                write!(f, "answer to {}, turned away by {number}", machine.0)
            }
        }
    }
}
