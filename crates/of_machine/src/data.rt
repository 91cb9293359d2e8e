//! Packets, and what a run gives.
ghost use Rattle.std.specs.Prelude.{◌≡◌, []};
ghost use Rattle.of_headers.specs.FieldMap.{value};
ghost use Rattle.of_machine.specs.Rows.{key_of, entering};

use crate::packet_frame::PacketFrame;
use of_action_set::ActionSet;
use of_actions::Action;
use of_headers::FieldKey;
use of_wire::{Bytes, PacketInReason};
use smallvec::SmallVec;
use std::alloc::Global;
use std::default::MadeWith;

/// A packet on its way through the tables (OpenFlow 1.3.5, 5.1).
#[derive(Drop)]
pub struct Packet<'a> {
    pub frame: PacketFrame<'a>,
    /// The number of the port at which it was received.
    pub ingress: u32,
    pub metadata: u64,
    pub action_set: ActionSet,
    /// The cookie of the entry whose instructions are followed, and all ones where there is none.
    pub cookie: u64,
    /// The table of the last lookup that found an entry.
    pub table: u8,
    /// Whether the entry whose instructions are followed is the table-miss flow entry.
    pub miss: bool,
}

/// What is emitted.
#[derive(Drop)]
pub enum Item {
    /// A frame out of a port.
    Sent { port: u32, frame: Bytes },
    /// A packet to the controller.
    PacketIn(ToController),
}

/// A packet to the controller (OpenFlow 1.3.5, 7.4.1).
#[derive(Drop)]
pub struct ToController {
    pub reason: PacketInReason,
    /// The table of the last lookup that found an entry.
    pub table: u8,
    /// The cookie of the entry whose instructions were followed, and all ones where there was none.
    pub cookie: u64,
    /// The number of the port at which the packet was received.
    pub ingress: u32,
    pub metadata: u64,
    /// The most bytes of the frame that the OUTPUT action asked for, 0xffff for all (OpenFlow 1.3.5, 7.2.5); none where no
    /// OUTPUT made it, as where the TTL expired.
    pub max_len: Option<u16>,
    /// The whole frame.
    pub frame: Bytes,
}

/// What is counted (OpenFlow 1.3.5, 5.8).
#[derive(Clone, Copy, PartialEq, Eq)]
pub enum Count {
    /// A lookup in a table.
    Lookup(u8),
    /// A packet of this many bytes for an entry of a table.
    Matched {
        table: u8,
        number: usize,
        bytes: usize,
    },
    /// A packet that a port could not send.
    TxDropped(u32),
    /// A packet of this many bytes for a group.
    Group {
        group: u32,
        bytes: usize,
    },
    /// A packet of this many bytes for the bucket of a group at that place.
    Bucket {
        group: u32,
        place: u8,
        bytes: usize,
    },
}

/// One step of a packet.
#[derive(Clone, Copy, PartialEq, Eq)]
pub enum Step {
    /// No entry of the table was found.
    Miss(u8),
    /// The entry of that number of the table was found.
    Entry { table: u8, number: usize },
    /// The APPLY_ACTIONS instruction.
    Apply,
    /// The CLEAR_ACTIONS instruction.
    Clear,
    /// The WRITE_ACTIONS instruction.
    Write,
    /// The WRITE_METADATA instruction.
    Metadata { value: u64, mask: u64 },
    /// The GOTO_TABLE instruction.
    Goto(u8),
    /// The action set runs.
    Set,
    Act(Action),
    /// The TTL expired, and the packet's work ends.
    TtlExpired,
    /// The packet's end.
    End,
}

/// What is emitted, in order. Up to two items need no allocation.
pub type Items = SmallVec<Item, 2>;

/// What is counted, in order. Up to eight counts, those of four tables, need no allocation.
pub type Counts = SmallVec<Count, 8>;

/// What a run gives.
#[derive(Drop)]
pub struct Outcome {
    pub items: Items,
    pub counts: Counts,
}

// What fills unused places.
impl MadeWith<Global> for Item {
    fn made_with(alloc: Global) -> Self {
        Item::Sent {
            port: 0,
            frame: Bytes::new(Vec::new(alloc)),
        }
    }
}

// What fills unused places.
impl Default for Count {
    fn default() -> Self {
        Count::Lookup(0)
    }
}

impl<'a> Packet<'a> {
    /// A packet that is received.
    pub fn new(frame: PacketFrame<'a>, ingress: u32) -> Self
        ensures { result ≡ entering frame.entry ingress }
    {
        Packet {
            frame,
            ingress,
            metadata: 0,
            action_set: ActionSet::new(),
            cookie: u64::MAX,
            table: 0,
            miss: false,
        }
    }

    /// The fields that a lookup compares (OpenFlow 1.3.5, 5.3). What was read of the frame is kept for later lookups.
    pub fn key(&mut self) -> FieldKey
        ensures value { value result ≡ key_of self.old }
        ensures same { self.new ≡ self.old }
    {
        self.frame.key(self.ingress, self.metadata)
    }

    /// The packet again, but with an empty action set. Its bytes are borrowed.
    pub(crate) fn copy_without_actions(&self) -> Packet<'_>
        ensures { result ≡ record self.now { action_set = [] } }
    {
        Packet {
            frame: self.frame.lend(),
            ingress: self.ingress,
            metadata: self.metadata,
            action_set: ActionSet::new(),
            cookie: self.cookie,
            table: self.table,
            miss: self.miss,
        }
    }
}

impl Outcome {
    pub fn new(alloc: Global) -> Outcome
        ensures items { result.items.items ≡ [] }
        ensures counts { result.counts.items ≡ [] }
    {
        Outcome {
            items: Items::new(alloc),
            counts: Counts::new(alloc),
        }
    }
}
