//! The reception of a frame at a port.

use of_ports::PortCount;

/// What a port counts of a frame that it received.
#[derive(Clone, Copy, PartialEq, Eq)]
pub struct Reception {
    pub port: u32,
    pub what: PortCount,
}
