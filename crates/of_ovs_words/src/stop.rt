//! Why reading stops at a word.
ghost use Rattle.of_ovs_words.specs.declared.stop.Stop.TheVariants.{NoMemory, Refused};
ghost use Rattle.std.specs.Prelude.{◌≡◌};

use crate::why::Why;
use std::alloc::{AllocError, AllocFailed};

/// Why reading stops at a word.
#[derive(Clone, Copy)]
pub enum Stop {
    NoMemory,
    Refused(Why),
}

impl From<Why> for Stop {
    ghost from_gives = { λ why e. e ≡ Refused why };

    fn from(why: Why) -> Stop {
        Stop::Refused(why)
    }
}

impl From<AllocError> for Stop {
    ghost from_gives = { λ _ e. e ≡ NoMemory };

    fn from(_e: AllocError) -> Stop {
        Stop::NoMemory
    }
}

impl<T: Drop> From<AllocFailed<T>> for Stop {
    ghost from_gives = { λ _ e. e ≡ NoMemory };

    fn from(_e: AllocFailed<T>) -> Stop {
        Stop::NoMemory
    }
}
