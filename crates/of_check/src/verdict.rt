//! The verdict on an entry.

/// The verdict on a flow entry (OpenFlow 1.3.5, 5.3).
#[derive(Drop)]
pub enum Verdict {
    /// It wins the lookup of this frame, received at this port, with this metadata.
    Wins {
        frame: Vec<u8>,
        in_port: u32,
        metadata: u64,
    },
    /// It wins no lookup: each packet that it matches is matched by one of these entries, which go before it: each has a higher priority, or
    /// the same and is older. Entries are named by their index by age, from 0. `tie` says whether one of them has the same priority: OpenFlow
    /// does not say which of two such entries wins.
    Never {
        by: Vec<usize>,
        tie: bool,
    },
    /// It never wins at a port that a switch has: it wins, but with no packet that comes in by such a port.
    Unreceived,
    /// It was not decided.
    Open,
}
