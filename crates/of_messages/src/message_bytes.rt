//! Messages as the switch sends them.
ghost use Rattle.std.specs.Prelude.{◌≡◌, length};
ghost use Rattle.of_messages.specs.Written.{IsMessage};

use of_wire::Bytes;
use std::marker::Model;

/// The bytes of one message that the switch sends: 8 to 65,535 of them, of version 4, and the header says how many
/// (OpenFlow 1.3.5, 7.1).
#[derive(Drop)]
pub struct MessageBytes {
    bytes: Bytes,
}

impl Model for MessageBytes {
    ghost use Rattle.std.specs.Prelude.{List, ℕ};
    ghost use Rattle.of_messages.specs.Written.{IsMessage};

    ghost Value = { List ℕ };

    ghost view = { λ m. m.bytes };

    ghost invariant = { λ m. IsMessage m.bytes };
}

impl MessageBytes {
    /// The message that these bytes are.
    pub fn new(bytes: Bytes) -> MessageBytes
        requires { IsMessage bytes }
        ensures { result ≡ bytes }
    {
        MessageBytes { bytes }
    }

    /// They are one message.
    pub fn known(&self)
        ensures { IsMessage self.now }
    {
        let _bytes = &self.bytes;
    }

    pub fn as_slice(&self) -> &[u8]
        ensures { result.now ≡ self.now }
    {
        self.bytes.as_slice()
    }

    pub fn len(&self) -> usize
        ensures { result ≡ length self.now }
    {
        self.bytes.len()
    }
}
