// Why a line of a script is not done.
ghost use Rattle.std.specs.Prelude.{◌≡◌};
ghost use Rattle.script.specs.declared.bad.Bad.TheVariants.{NoMemory};

use jobs::ids::MachineId;
use std::alloc::{AllocError, AllocFailed};
use thiserror::Error;

#[derive(Clone, Copy, Debug, Error)]
pub enum Bad {
    #[error("not printable ASCII")]
    NotAscii,
    #[error("no such command")]
    NoCommand,
    // The command is there, and something of it is wrong: so it should be.
    #[error("say {0}")]
    Say(&'static str),
    #[error("eight machines are played, and {n} would be the ninth", n = .0.0)]
    Ninth(MachineId),
    #[error("there is no letter {0}")]
    NoLetter(u64),
    #[error("no memory for it")]
    NoMemory,
}

impl From<AllocError> for Bad {
    ghost from_gives = { λ _ e. e ≡ NoMemory };

    fn from(_e: AllocError) -> Bad {
        Bad::NoMemory
    }
}

impl<T: Drop> From<AllocFailed<T>> for Bad {
    ghost from_gives = { λ _ e. e ≡ NoMemory };

    fn from(_e: AllocFailed<T>) -> Bad {
        Bad::NoMemory
    }
}
