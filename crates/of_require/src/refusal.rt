//! Why a line is no requirement.
ghost use Rattle.std.specs.Prelude.{◌≡◌};
ghost use Rattle.of_require.specs.{declared.refusal.NoRequirement.TheVariants.NoMemory, Refusals.IsLineRefusal};

use std::alloc::{AllocError, Global};
use thiserror::Error;

/// Why a word of a requirement is refused.
#[derive(Clone, Copy, Debug, PartialEq, Eq, Error)]
pub enum Why {
    #[error("a requirement begins with `no frame`, `each frame` or `some frame`")]
    Beginning,
    #[error("expected `leaves by PLACES`, `leaves only by PLACES`, `leaving by PLACES has FIELDS` or `passes table N`")]
    Demand,
    #[error("a place is the number of a port, `controller` or `drop`; with commas and without spaces between them")]
    Place,
    #[error("something leaves by a place here: the number of a port or `controller`, not `drop`")]
    NoPlace,
    #[error("expected fields that what leaves has, such as `eth_dst=02:00:00:00:00:03`")]
    Fields,
    #[error("expected a table, 0 to 15")]
    Table,
    #[error("expected `except ttl` or the end of the line")]
    Ending,
    #[error("{0}")]
    Match(of_frame_words::Why),
}

/// A word that is refused, and why.
#[derive(Drop)]
pub struct Refusal {
    pub word: Vec<u8>,
    pub why: Why,
}

/// Why there is no requirement.
#[derive(Drop)]
pub enum NoRequirement {
    NoMemory,
    Refused(Refusal),
}

/// Why a file has no requirements.
#[derive(Drop)]
pub struct NoRequirements {
    /// The number of a line, from 1, and why it is no requirement.
    pub line: usize,
    pub why: NoRequirement,
}

impl From<AllocError> for NoRequirement {
    ghost from_gives = { λ _ e. e ≡ NoMemory };

    fn from(_e: AllocError) -> NoRequirement {
        NoRequirement::NoMemory
    }
}

/// The refusal of a word.
pub fn refuse(alloc: Global, word: &[u8], why: Why) -> NoRequirement
    ensures { IsLineRefusal word.now why result }
{
    match word.to_vec(alloc) {
        Ok(word) => NoRequirement::Refused(Refusal { word, why }),
        Err(_) => NoRequirement::NoMemory,
    }
}
