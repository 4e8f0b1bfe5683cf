// A line of text as it comes, of any length: no more of it is held than could be meant.
use std::alloc::{AllocFailed, Global};
use thiserror::Error;

// The longest line that says anything: an answer with 65,535 orders of eight tags each.
const ROOM: usize = 7_077_845;

// Why a line is not held.
#[derive(Clone, Copy, Debug, PartialEq, Eq, Error)]
pub enum Fault {
    #[error("it is longer than any that says something")]
    TooLong,
    #[error("no memory to hold it")]
    NoMemory,
}

impl<T: Drop> From<AllocFailed<T>> for Fault {
    fn from(_e: AllocFailed<T>) -> Fault {
        Fault::NoMemory
    }
}

// What came of it so far, as long as it is held.
#[derive(Drop)]
pub struct Line {
    held: Result<Vec<u8>, Fault>,
}

fn hold(text: &mut Vec<u8>, c: u8) -> Result<(), Fault> {
    if text.len() >= ROOM {
        return Err(Fault::TooLong);
    }
    text.push(c)?;
    Ok(())
}

impl Line {
    pub fn new(heap: Global) -> Self {
        Line {
            held: Ok(Vec::new(heap)),
        }
    }

    // One character more. What room an overlong line took is given back.
    pub fn push(&mut self, c: u8) {
        if let Ok(text) = &mut self.held {
            if let Err(fault) = hold(text, c) {
                self.held = Err(fault);
            }
        }
    }

    // A new line begins.
    pub fn restart(&mut self, heap: Global) {
        match &mut self.held {
            Ok(text) => text.clear(),
            Err(_) => self.held = Ok(Vec::new(heap)),
        }
    }

    pub fn is_begun(&self) -> bool {
        match &self.held {
            Ok(text) => !text.is_empty(),
            Err(_) => true,
        }
    }

    pub fn text(&self) -> Result<&[u8], Fault> {
        self.held.as_deref().map_err(|fault| *fault)
    }
}
