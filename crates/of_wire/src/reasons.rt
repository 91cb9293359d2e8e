//! The reasons of asynchronous messages.
ghost use Rattle.std.specs.Prelude.{◌≡◌, ◌^◌};
ghost use Rattle.of_wire.specs.Reasons.{flow_removed_number, packet_in_number};

/// Why a packet is sent to the controller (OpenFlow 1.3.5, 7.4.1).
#[derive(Clone, Copy, Debug, PartialEq, Eq)]
pub enum PacketInReason {
    /// OFPR_NO_MATCH: the table-miss flow entry sent it.
    NoMatch,
    /// OFPR_ACTION: another OUTPUT to the controller sent it.
    Action,
    /// OFPR_INVALID_TTL: its TTL expired.
    InvalidTtl,
}

impl PacketInReason {
    /// Its number in a PACKET_IN.
    pub fn number(self) -> u8
        ensures { result ≡ packet_in_number self }
    {
        match self {
            PacketInReason::NoMatch => 0,
            PacketInReason::Action => 1,
            PacketInReason::InvalidTtl => 2,
        }
    }

    /// Its bit in a controller's mask of PACKET_INs (OpenFlow 1.3.5, 7.3.10).
    pub fn bit(self) -> u32
        ensures { result ≡ 2 ^ packet_in_number self }
    {
        match self {
            PacketInReason::NoMatch => 1,
            PacketInReason::Action => 2,
            PacketInReason::InvalidTtl => 4,
        }
    }
}

/// Why an entry was removed (OpenFlow 1.3.5, 7.4.2).
#[derive(Clone, Copy, Debug, PartialEq, Eq)]
pub enum FlowRemovedReason {
    /// OFPRR_IDLE_TIMEOUT: no packet hit it for its idle timeout.
    IdleTimeout,
    /// OFPRR_HARD_TIMEOUT: its hard timeout passed.
    HardTimeout,
    /// OFPRR_DELETE: a DELETE command.
    Delete,
    /// OFPRR_GROUP_DELETE: a group that it named was deleted.
    GroupDelete,
}

impl FlowRemovedReason {
    /// Its number in a FLOW_REMOVED.
    pub fn number(self) -> u8
        ensures { result ≡ flow_removed_number self }
    {
        match self {
            FlowRemovedReason::IdleTimeout => 0,
            FlowRemovedReason::HardTimeout => 1,
            FlowRemovedReason::Delete => 2,
            FlowRemovedReason::GroupDelete => 3,
        }
    }

    /// Its bit in a controller's mask of FLOW_REMOVEDs (OpenFlow 1.3.5, 7.3.10).
    pub fn bit(self) -> u32
        ensures { result ≡ 2 ^ flow_removed_number self }
    {
        match self {
            FlowRemovedReason::IdleTimeout => 1,
            FlowRemovedReason::HardTimeout => 2,
            FlowRemovedReason::Delete => 4,
            FlowRemovedReason::GroupDelete => 8,
        }
    }
}
