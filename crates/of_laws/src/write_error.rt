//! Why a message was not written.

ghost use Rattle.std.specs.Prelude.{◌≡◌};
ghost use Rattle.of_laws.specs.declared.write_error.WriteError.TheVariants.{Memory};

use std::alloc::AllocError;
use thiserror::Error;

/// Why a message was not written.
#[derive(Clone, Copy, Debug, PartialEq, Eq, Error)]
pub enum WriteError {
    /// Memory ran out. The call can be made again.
    #[error("no memory")]
    Memory,
    /// No bytes encode the message: a number in it is not allowed, or it has more bytes than a header can count.
    #[error("no bytes encode this message")]
    NotEncoded,
}

impl From<AllocError> for WriteError {
    ghost from_gives = { λ _ e. e ≡ Memory };

    fn from(_e: AllocError) -> WriteError {
        WriteError::Memory
    }
}
