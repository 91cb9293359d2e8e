//! The line that has begun and not ended.
ghost use Rattle.std.specs.Prelude.{◌≡◌, ◌≤◌, ◌++◌, [], OnOk, length, take};

use of_wire::front_part;
use std::alloc::{AllocError, Global};
use std::marker::Model;

/// How many bytes of a line are kept: one more than the longest line has.
const MOST_KEPT: usize = 1_048_577;

/// The first bytes of a line, at most as many as show that a line is too long.
#[derive(Drop)]
pub struct OpenLine {
    bytes: Vec<u8>,
    ghost short: { length bytes.items ≤ 1048577 },
}

impl Model for OpenLine {
    ghost use Rattle.std.specs.Prelude.{ℕ, List};

    ghost Value = { List ℕ };

    ghost view = { λ l. l.bytes.items };
}

impl OpenLine {
    pub fn new(alloc: Global) -> Self
        ensures { result ≡ [] }
    {
        OpenLine {
            bytes: Vec::new(alloc),
        }
    }

    pub fn bytes(&self) -> &[u8]
        ensures { result.now ≡ self.now }
    {
        &self.bytes
    }

    /// Another line begins.
    pub fn clear(&mut self)
        ensures { self.new ≡ [] }
    {
        self.bytes.clear();
    }

    /// Appends these bytes to the line.
    pub fn extend(&mut self, part: &[u8]) -> Result<(), AllocError>
        ensures { OnOk result (self.new ≡ take 1048577 (self.old ++ part.now)) }
    {
        let room = MOST_KEPT - self.bytes.len();
        self.bytes.extend_from_slice(front_part(part, room))
    }
}
