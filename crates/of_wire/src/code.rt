//! Why bytes were refused.

ghost use Rattle.std.specs.Prelude.{◌≡◌};
ghost use Rattle.of_wire.specs.declared.code.ReadError.TheVariants.{Memory};

use std::alloc::{AllocError, AllocFailed};
use thiserror::Error;

/// An OpenFlow error, as an ERROR message carries it (OpenFlow 1.3.5, 7.4.4).
#[derive(Clone, Copy, Debug, PartialEq, Eq, Error)]
#[error("type {kind} code {code}")]
pub struct Code {
    /// The type of the error, as 4 for OFPET_BAD_MATCH.
    pub kind: u16,
    /// The code within its type.
    pub code: u16,
}

/// Why a reader gave no value.
#[derive(Debug, Drop, Error)]
pub enum ReadError {
    /// Memory ran out.
    #[error("no memory")]
    Memory,
    /// The bytes encode no value.
    #[error("refused: {0}")]
    Refused(Code),
}

impl From<AllocError> for ReadError {
    ghost from_gives = { λ _ e. e ≡ Memory };

    fn from(_e: AllocError) -> ReadError {
        ReadError::Memory
    }
}

impl<T: Drop> From<AllocFailed<T>> for ReadError {
    ghost from_gives = { λ _ e. e ≡ Memory };

    fn from(_e: AllocFailed<T>) -> ReadError {
        ReadError::Memory
    }
}
