// Why the herd does not go on. (The agent has its own: the texts, which programs fix, differ in all but two.)
use device::kept;
use device::open::OpenError;
use std::alloc::AllocError;
use std::io;
use thiserror::Error;

#[derive(Clone, Copy, Debug, Drop, Error)]
pub enum Trouble {
    #[error("too many arguments: say `herd`, or `herd DIR` with the directory of the file `kept`")]
    Usage,
    #[error("no memory to begin with")]
    Memory,
    #[error("the arguments cannot be read: {0}")]
    Arguments(io::Error),
    #[error("{0}")]
    Kept(#[from] OpenError),
    // The words in `kept` are none that a herd stored.
    #[error("kept: damaged: no herd stored these words, and nothing was changed; put back the right file, or move this one away to begin anew")]
    Damaged,
    // A word could not be stored.
    #[error("kept: a word could not be stored, so the last call is not answered: it was done or not; see that the file can be written, and start again: all that was answered is there")]
    Dark,
    #[error("lines cannot be read or answered any more: {0}")]
    Lines(io::Error),
}

impl From<AllocError> for Trouble {
    fn from(_e: AllocError) -> Trouble {
        Trouble::Memory
    }
}

impl From<kept::Dark> for Trouble {
    fn from(_e: kept::Dark) -> Trouble {
        Trouble::Dark
    }
}
