//! Flows, as a FLOW_MOD gives them.
ghost use Rattle.std.specs.Prelude.{◌≡◌, ◌≤◌};
ghost use Rattle.of_table.specs.Table.{bit as bit_if, flags_number};

use of_actions::InstructionList;
use of_oxm::Match;
use of_wire::limits::{OFPFF_NO_BYT_COUNTS, OFPFF_NO_PKT_COUNTS, OFPFF_SEND_FLOW_REM};

/// The flags of a flow (OpenFlow 1.3.5, 7.3.4.1).
#[derive(Clone, Copy)]
pub struct FlowFlags {
    /// OFPFF_SEND_FLOW_REM: a notice is asked for when the entry is removed.
    pub send_removed: bool,
    /// OFPFF_CHECK_OVERLAP: it is not to be added where one of its priority overlaps it.
    pub check_overlap: bool,
    /// OFPFF_RESET_COUNTS: counters are to begin at 0 again.
    pub reset_counts: bool,
    /// OFPFF_NO_PKT_COUNTS: packets are not counted.
    pub no_packet_counts: bool,
    /// OFPFF_NO_BYT_COUNTS: bytes are not counted.
    pub no_byte_counts: bool,
}

// A flag, or 0.
fn bit(flag: u16, is_set: bool) -> u16
    ensures value { result ≡ bit_if flag is_set }
    ensures most { result ≤ flag }
{
    if is_set { flag } else { 0 }
}

impl FlowFlags {
    /// The number of those that an entry keeps (OpenFlow 1.3.5, 7.3.4.1).
    pub fn number(self) -> u16
        ensures { result ≡ flags_number self }
    {
        bit(OFPFF_SEND_FLOW_REM, self.send_removed)
            + bit(OFPFF_NO_PKT_COUNTS, self.no_packet_counts)
            + bit(OFPFF_NO_BYT_COUNTS, self.no_byte_counts)
    }
}

/// A flow entry's fixed parts (OpenFlow 1.3.5, 5.2).
#[derive(Drop)]
pub struct Flow {
    pub fields: Match,
    pub priority: u16,
    pub cookie: u64,
    /// In seconds; 0 for none.
    pub idle_timeout: u16,
    /// In seconds; 0 for none.
    pub hard_timeout: u16,
    pub flags: FlowFlags,
    pub instructions: InstructionList,
}
