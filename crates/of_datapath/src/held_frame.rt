//! A frame that is held.
ghost use Rattle.std.specs.Prelude.{◌≡◌, ◌≤◌, None, length};
ghost use Rattle.of_headers.specs.Faults.{frame_fault};

use of_wire::Bytes;
use std::marker::Model;

/// A frame of 14 to 9,216 bytes, and the port at which it was received.
#[derive(Drop)]
pub struct HeldFrame {
    frame: Bytes,
    ingress: u32,
}

impl Model for HeldFrame {
    ghost use Rattle.std.specs.Prelude.{◌≡◌, None};
    ghost use Rattle.of_headers.specs.Faults.{frame_fault};
    ghost use Rattle.of_datapath.specs.Buffers.{Held};

    ghost Value = { Held };

    ghost view = { λ h. record { frame = h.frame; ingress = h.ingress } };

    ghost invariant = { λ h. frame_fault h.frame ≡ None };
}

impl HeldFrame {
    /// A frame whose length may be received, and its ingress port.
    pub fn new(frame: Bytes, ingress: u32) -> Self
        requires { frame_fault frame ≡ None }
        ensures { result ≡ record { frame = frame; ingress = ingress } }
    {
        HeldFrame { frame, ingress }
    }

    /// Its bytes.
    pub fn frame(&self) -> &[u8]
        ensures frame { result.now ≡ self.now.frame }
        ensures long { 14 ≤ length result.now }
        ensures most { length result.now ≤ 9216 }
    {
        self.frame.as_slice()
    }

    /// The number of the port at which it was received.
    pub fn ingress(&self) -> u32
        ensures { result ≡ self.now.ingress }
    {
        self.ingress
    }
}
