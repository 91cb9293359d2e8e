//! The values of messages.
ghost use Rattle.std.specs.Prelude.{◌≡◌};
ghost use Rattle.of_messages.specs.Messages.{command_of, is_delete};

use crate::async_masks::AsyncMasks;
use crate::config::{SwitchConfig, TableMod};
use crate::group_mod::GroupMod;
use crate::multipart::MultipartRequest;
use crate::port_mod::PortMod;
use crate::role::RoleRequest;
use of_actions::{ActionList, InstructionList};
use of_oxm::Match;
use of_wire::{Bytes, FlowRemovedReason, PacketInReason};

/// What a FLOW_MOD does (OpenFlow 1.3.5, 7.3.4.1). A strict command is about the entry whose match and priority are the same.
#[derive(Clone, Copy, PartialEq, Eq)]
pub enum FlowModCommand {
    Add,
    Modify { strict: bool },
    Delete { strict: bool },
}

/// The commands by their numbers on the wire, from 0 on (OFPFC_*).
pub const COMMANDS: [FlowModCommand; 5] = [
    FlowModCommand::Add,
    FlowModCommand::Modify { strict: false },
    FlowModCommand::Modify { strict: true },
    FlowModCommand::Delete { strict: false },
    FlowModCommand::Delete { strict: true },
];

impl FlowModCommand {
    pub(crate) fn of_byte(byte: u8) -> Option<FlowModCommand>
        ensures { result ≡ command_of byte }
    {
        COMMANDS.get(usize::from(byte)).copied()
    }

    /// Whether it is one of the two DELETE commands.
    pub fn is_delete(self) -> bool
        ensures { result ≡ is_delete self }
    {
        matches!(self, FlowModCommand::Delete { .. })
    }
}

/// A FLOW_MOD (OpenFlow 1.3.5, 7.3.4.1).
#[derive(Drop)]
pub struct FlowMod {
    pub cookie: u64,
    pub cookie_mask: u64,
    /// 0 to 15, or of a DELETE command 255 for all tables.
    pub table: u8,
    pub command: FlowModCommand,
    /// In seconds; 0 for none.
    pub idle_timeout: u16,
    /// In seconds; 0 for none.
    pub hard_timeout: u16,
    pub priority: u16,
    /// The held packet that runs through the tables after an ADD or a MODIFY; OFP_NO_BUFFER for none. A DELETE ignores it.
    pub buffer: u32,
    pub out_port: u32,
    pub out_group: u32,
    /// Of bits 0 to 4.
    pub flags: u16,
    pub fields: Match,
    /// None for a DELETE command.
    pub instructions: InstructionList,
}

/// The packet that a PACKET_OUT sends (OpenFlow 1.3.5, 7.3.7).
#[derive(Drop)]
pub enum PacketData {
    /// The packet that is held under this id; what follows the actions is ignored.
    Buffered(u32),
    /// With OFP_NO_BUFFER, the frame of 14 to 9,216 bytes that follows the actions.
    Frame(Bytes),
}

/// A PACKET_OUT (OpenFlow 1.3.5, 7.3.7).
#[derive(Drop)]
pub struct PacketOut {
    /// The ingress port of the packet: a port of the switch, or OFPP_CONTROLLER.
    pub in_port: u32,
    pub actions: ActionList,
    pub packet: PacketData,
}

/// What a PACKET_IN says of a frame, besides its data (OpenFlow 1.3.5, 7.4.1).
#[derive(Clone, Copy, PartialEq, Eq)]
pub struct PacketIn {
    /// The id under which the frame is held; OFP_NO_BUFFER, 0xffffffff, where it is not.
    pub buffer: u32,
    /// The length of the frame, in bytes, of which the data are the first.
    pub total_len: u16,
    pub reason: PacketInReason,
    pub table: u8,
    pub cookie: u64,
    pub in_port: u32,
    pub metadata: u64,
}

/// What a FLOW_REMOVED says of an entry, besides its match (OpenFlow 1.3.5, 7.4.2).
#[derive(Clone, Copy, PartialEq, Eq)]
pub struct FlowRemoved {
    pub cookie: u64,
    pub priority: u16,
    pub reason: FlowRemovedReason,
    pub table: u8,
    /// How long the entry existed, in whole seconds.
    pub duration_sec: u32,
    /// How long it existed beyond `duration_sec`, in nanoseconds.
    pub duration_nsec: u32,
    /// In seconds; 0 for none.
    pub idle_timeout: u16,
    /// In seconds; 0 for none.
    pub hard_timeout: u16,
    pub packets: u64,
    pub bytes: u64,
}

/// A message that the switch reads.
#[derive(Drop)]
pub enum Message {
    /// HELLO (OpenFlow 1.3.5, 7.5.1).
    Hello,
    /// ERROR (7.4.4).
    Error,
    /// ECHO_REQUEST with its data (7.5.2).
    EchoRequest(Bytes),
    /// ECHO_REPLY (7.5.3).
    EchoReply,
    /// FEATURES_REQUEST (7.3.1).
    FeaturesRequest,
    /// GET_CONFIG_REQUEST (7.3.2).
    GetConfigRequest,
    /// SET_CONFIG (7.3.2).
    SetConfig(SwitchConfig),
    /// PACKET_OUT (7.3.7).
    PacketOut(PacketOut),
    /// FLOW_MOD (7.3.4.1).
    FlowMod(FlowMod),
    /// GROUP_MOD (7.3.4.2).
    GroupMod(GroupMod),
    /// PORT_MOD (7.3.4.3).
    PortMod(PortMod),
    /// TABLE_MOD (7.3.3).
    TableMod(TableMod),
    /// MULTIPART_REQUEST (7.3.5).
    Multipart(MultipartRequest),
    /// BARRIER_REQUEST (7.3.8).
    BarrierRequest,
    /// ROLE_REQUEST (7.3.9).
    RoleRequest(RoleRequest),
    /// GET_ASYNC_REQUEST (7.3.10).
    GetAsyncRequest,
    /// SET_ASYNC (7.3.10).
    SetAsync(AsyncMasks),
}
