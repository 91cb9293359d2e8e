//! Why a call did nothing.
ghost use Rattle.std.specs.Prelude.{◌≡◌};
ghost use Rattle.of_switch.specs.{Calls.error_number, declared.switch_error.SwitchError.TheVariants.NoMemory};

use std::alloc::AllocError;
use thiserror::Error;

/// Why a call did nothing.
#[derive(Clone, Copy, Debug, PartialEq, Eq, Error)]
pub enum SwitchError {
    /// Memory ran out. The call can be made again.
    #[error("no memory")]
    NoMemory = 1,
    /// There is no connection.
    #[error("not connected")]
    NotConnected = 3,
    /// There is a connection already.
    #[error("already connected")]
    Connected = 4,
    /// A port of that number exists already.
    #[error("there is a port of that number already")]
    PortExists = 5,
    /// There is no port of that number.
    #[error("there is no port of that number")]
    NoSuchPort = 6,
    /// There are 64 ports.
    #[error("there are 64 ports already")]
    TooManyPorts = 7,
    /// The number is not 1 to 0xffffff00.
    #[error("a port's number is 1 to 0xffffff00")]
    BadPortNumber = 8,
}

impl SwitchError {
    /// The number by which event files name it. 2 is not used.
    pub fn number(self) -> u32
        ensures { result ≡ error_number self }
    {
        self as u32
    }
}

impl From<AllocError> for SwitchError {
    ghost from_gives = { λ _ e. e ≡ NoMemory };

    fn from(_error: AllocError) -> SwitchError {
        SwitchError::NoMemory
    }
}
