//! Why words say no frame, or no match.
ghost use Rattle.std.specs.Prelude.{◌≡◌};
ghost use Rattle.of_frame_words.specs.{declared.why.NoFrame.TheVariants.NoMemory, Refusals.IsRefusal};

use std::alloc::{AllocError, Global};
use thiserror::Error;

/// Why a word is refused.
#[derive(Clone, Copy, Debug, PartialEq, Eq, Error)]
pub enum Why {
    /// As in a match.
    #[error("{0}")]
    Word(of_ovs_words::Why),
    #[error("a frame has values without masks")]
    Mask,
    /// Such as a VLAN_VID without the bit that says that there is a tag, or two values of one field.
    #[error("no frame has this value beside the other words")]
    Impossible,
}

/// A word that is refused, and why.
#[derive(Drop)]
pub struct Refusal {
    pub word: Vec<u8>,
    pub why: Why,
}

/// Why there is no frame, or no match.
#[derive(Drop)]
pub enum NoFrame {
    NoMemory,
    Refused(Refusal),
}

impl From<AllocError> for NoFrame {
    ghost from_gives = { λ _ e. e ≡ NoMemory };

    fn from(_e: AllocError) -> NoFrame {
        NoFrame::NoMemory
    }
}

/// The refusal of a word.
pub fn refuse(alloc: Global, word: &[u8], why: Why) -> NoFrame
    ensures { IsRefusal word.now why result }
{
    match word.to_vec(alloc) {
        Ok(word) => NoFrame::Refused(Refusal { word, why }),
        Err(_) => NoFrame::NoMemory,
    }
}
