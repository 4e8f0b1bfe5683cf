// A script, line by line, and how it ends.
use crate::stage::Stage;
use script::bad::Bad;
use script::parse::parse;
use std::alloc::{AllocError, Global};

// A line to look at: its number, and what it says.
#[derive(Drop)]
struct Fault {
    number: u64,
    line: String,
}

#[derive(Drop)]
pub struct Rehearsal {
    heap: Global,
    stage: Stage,
    // The number of the last line.
    number: u64,
    fault: Option<Fault>,
}

// The line's characters; a byte that is none stands as `?`.
fn legible(heap: Global, line: &[u8]) -> Result<String, AllocError> {
    let mut text = String::new(heap);
    for byte in line {
        let plain = byte.is_ascii_graphic() || *byte == b' ';
        text.push(if plain { char::from(*byte) } else { '?' })?;
    }
    Ok(text)
}

impl Rehearsal {
    pub fn new(heap: Global) -> Result<Self, AllocError> {
        Ok(Rehearsal {
            heap,
            stage: Stage::new(heap)?,
            number: 0,
            fault: None,
        })
    }

    fn obey(&mut self, line: &[u8]) -> Result<(), Bad> {
        match parse(self.heap, line)? {
            Some(command) => self.stage.obey(command),
            None => Ok(()),
        }
    }

    // The next line is played, and what that says is handed back.
    pub fn play(&mut self, line: &[u8]) -> Result<&str, AllocError> {
        self.number = self.number.saturating_add(1);
        self.stage.begin();
        match self.obey(line) {
            Ok(()) => {}
            Err(Bad::NoMemory) => return Err(AllocError),
            Err(why) => self.stage.refuse(self.number, why)?,
        }
        if self.stage.failed() && self.fault.is_none() {
            let line = legible(self.heap, line)?;
            self.fault = Some(Fault {
                number: self.number,
                line,
            });
        }
        Ok(self.stage.said())
    }

    // Did all lines go well.
    pub fn is_well(&self) -> bool {
        self.fault.is_none()
    }

    // The last line.
    pub fn end(&self) -> Result<String, AllocError> {
        match &self.fault {
            None => format!(in self.heap; "end: well\n"),
            Some(fault) => {
                format!(in self.heap; "end: badly, line {}: {}\n", fault.number, fault.line)
            }
        }
    }
}
