//! Why words say no message.
ghost use Rattle.std.specs.Prelude.{◌≡◌};
ghost use Rattle.of_ovs_text.specs.declared.no_message.NoMessage.TheVariants.{NoMemory};

use of_ovs_lines::WordFault;
use of_wire::Code;
use std::alloc::AllocError;
use thiserror::Error;

/// Why words say no message.
#[derive(Debug, Drop, Error)]
pub enum NoMessage {
    #[error("no memory")]
    NoMemory,
    /// The first word is no kind of message.
    #[error("no kind of message")]
    Kind,
    /// Words of a flow or a group that are refused, as by an import.
    #[error("words are refused")]
    Faults(Vec<WordFault>),
    /// The switch would refuse the message for its bytes alone (OpenFlow 1.3.5, 7.4.4).
    #[error("refused: {0}")]
    Refused(Code),
    /// Another word that is refused.
    #[error("a word is refused")]
    Word(Vec<u8>),
    /// A word is missing that such a message needs.
    #[error("a word is missing")]
    Missing,
}

impl From<AllocError> for NoMessage {
    ghost from_gives = { λ _ e. e ≡ NoMemory };

    fn from(_e: AllocError) -> NoMessage {
        NoMessage::NoMemory
    }
}
