// Why bytes are not written.
ghost use Rattle.std.specs.Prelude.{◌≡◌};
ghost use Rattle.wire.specs.declared.unwritten.Unwritten.TheVariants.{NoMemory};

use std::alloc::AllocError;
use thiserror::Error;

#[derive(Clone, Copy, Debug, PartialEq, Eq, Error)]
pub enum Unwritten {
    // There are no bytes in which to count it.
    #[error("it is longer than bytes can say")]
    TooLong,
    #[error("no memory to write it")]
    NoMemory,
}

impl From<AllocError> for Unwritten {
    ghost from_gives = { λ _ e. e ≡ NoMemory };

    fn from(_e: AllocError) -> Unwritten {
        Unwritten::NoMemory
    }
}
