//! Flows of a file of ovs-ofctl.

use crate::leads::Leads;
use of_oxm::Match;

/// A flow of a file of ovs-ofctl, as far as it decides which packets it takes (OpenFlow 1.3.5, 5.2 and 5.3).
#[derive(Drop)]
pub struct ListedFlow {
    /// The line of the file, from 1.
    pub line: usize,
    pub table: u8,
    pub priority: u16,
    pub fields: Match,
    /// The words of its match that OpenFlow 1.3 does not have, such as `reg0=0x1`. Each is a condition of its own, which may hold or not.
    pub words: Vec<Vec<u8>>,
    /// The tables to which its actions lead.
    pub leads: Leads,
}
