//! What a frame, a command or a moment gives.

use of_messages::MessageBytes;
use of_wire::Bytes;
use smallvec::SmallVec;

/// What a call gives, in order. Up to two effects need no allocation.
pub type Effects = SmallVec<Effect, 2>;

/// One thing that a call gives: what leaves, or the end of the connection.
#[derive(Default, Drop)]
pub enum Effect {
    /// A message to the controller.
    Answer(MessageBytes),
    /// A frame out of a port.
    Sent { port: u32, frame: Bytes },
    /// The end of the connection.
    #[default]
    Closed,
}
