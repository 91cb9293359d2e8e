//! What stops a run.
ghost use Rattle.of_replay.specs.declared.halt.Halt.TheVariants.{Memory};

use std::alloc::AllocError;

/// What stops a run before the end.
#[derive(Clone, Copy, PartialEq, Eq)]
pub enum Halt {
    /// The line of this number, from 1, is a bad row.
    Bad(u64),
    /// Memory ran out.
    Memory,
    /// A read failed, or a million reads found no end.
    Read,
    /// A write failed.
    Write,
}

impl From<AllocError> for Halt {
    ghost use Rattle.std.specs.Prelude.{◌≡◌};

    ghost from_gives = { λ _ halt. halt ≡ Memory };

    fn from(_error: AllocError) -> Halt {
        Halt::Memory
    }
}
