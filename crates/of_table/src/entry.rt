//! Entries of a flow table.

use crate::flow::Flow;

/// A flow entry, with the number by which its table names it (OpenFlow 1.3.5, 5.2).
#[derive(Drop)]
pub struct Entry {
    pub number: usize,
    pub flow: Flow,
    /// How many packets hit it (OpenFlow 1.3.5, 5.8). It wraps.
    pub packets: u64,
    /// How many bytes they had. It wraps.
    pub bytes: u64,
    /// The moment at which it was added, in nanoseconds.
    pub created: u64,
    /// The moment at which a packet hit it last, in nanoseconds.
    pub last: Option<u64>,
}
