// Why a script is not played to its end.
use std::alloc::{AllocError, AllocFailed};
use std::io;
use thiserror::Error;

#[derive(Clone, Copy, Debug, Drop, Error)]
pub enum Trouble {
    #[error("no memory to go on; play a shorter script")]
    Memory(#[from(alloc)] AllocError),
    #[error("the script cannot be read, or nothing printed: {0}")]
    Lines(#[from] io::Error),
}
