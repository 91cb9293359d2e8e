//! The messages of the channel (OpenFlow 1.3.5, 7.1, enum ofp_type). Definitions and code cite them from here.
ghost use Rattle.std.specs.{Prelude.◌≡◌, Prelude.Some, Option.option_map};
ghost use Rattle.of_formats.specs.Messages.{is_bad_size, is_read, message_name as name_of_message, message_row as row_of_message};

use Size::{Exact, Least};
use Way::{Both, Neither, Read, Sent};
use of_wire::keyword;

pub const HELLO: u8 = 0;

pub const ERROR: u8 = 1;

pub const ECHO_REQUEST: u8 = 2;

pub const ECHO_REPLY: u8 = 3;

pub const EXPERIMENTER: u8 = 4;

pub const FEATURES_REQUEST: u8 = 5;

pub const FEATURES_REPLY: u8 = 6;

pub const GET_CONFIG_REQUEST: u8 = 7;

pub const GET_CONFIG_REPLY: u8 = 8;

pub const SET_CONFIG: u8 = 9;

pub const PACKET_IN: u8 = 10;

pub const FLOW_REMOVED: u8 = 11;

pub const PORT_STATUS: u8 = 12;

pub const PACKET_OUT: u8 = 13;

pub const FLOW_MOD: u8 = 14;

pub const GROUP_MOD: u8 = 15;

pub const PORT_MOD: u8 = 16;

pub const TABLE_MOD: u8 = 17;

pub const MULTIPART_REQUEST: u8 = 18;

pub const MULTIPART_REPLY: u8 = 19;

pub const BARRIER_REQUEST: u8 = 20;

pub const BARRIER_REPLY: u8 = 21;

pub const ROLE_REQUEST: u8 = 24;

pub const ROLE_REPLY: u8 = 25;

pub const GET_ASYNC_REQUEST: u8 = 26;

pub const GET_ASYNC_REPLY: u8 = 27;

pub const SET_ASYNC: u8 = 28;

/// How many bytes a message has, with its header.
#[derive(Clone, Copy, PartialEq, Eq)]
pub enum Size {
    Exact(usize),
    Least(usize),
}

impl Size {
    /// Whether no such message has `size` bytes.
    pub fn is_bad(self, size: usize) -> bool
        ensures { result ≡ is_bad_size (Some self) size }
    {
        match self {
            Size::Exact(exact) => size != exact,
            Size::Least(least) => size < least,
        }
    }
}

/// Whether this switch reads a message, sends it, does both, or neither.
#[derive(Clone, Copy, PartialEq, Eq)]
pub enum Way {
    Read,
    Sent,
    Both,
    Neither,
}

impl Way {
    /// Whether this switch reads it.
    pub fn is_read(self) -> bool
        ensures { result ≡ is_read self }
    {
        matches!(self, Way::Read | Way::Both)
    }
}

/// A type of messages.
#[derive(Clone, Copy)]
pub struct MessageRow {
    /// Its number.
    pub kind: u8,
    /// Its name, filled up by spaces.
    pub name: [u8; 24],
    /// Its size: that of the header and its struct, and, if a match follows, at least 8 bytes more (7.2.3).
    pub size: Size,
    pub way: Way,
    /// Whether it changes the switch or sends a packet, which a slave may not do (6.3.4).
    pub changes: bool,
}

macro_rules! row {
    ($kind:expr, $name:expr, $size:expr, $way:expr, $changes:expr) => {
        MessageRow {
            kind: $kind,
            name: *$name,
            size: $size,
            way: $way,
            changes: $changes,
        }
    };
}

/// The types of messages.
pub const MESSAGES: [MessageRow; 30] = [
    row!(0, b"HELLO                   ", Least(8), Both, false),
    row!(1, b"ERROR                   ", Least(12), Both, false),
    row!(2, b"ECHO_REQUEST            ", Least(8), Read, false),
    row!(3, b"ECHO_REPLY              ", Least(8), Both, false),
    row!(4, b"EXPERIMENTER            ", Least(8), Neither, false),
    row!(5, b"FEATURES_REQUEST        ", Exact(8), Read, false),
    row!(6, b"FEATURES_REPLY          ", Exact(32), Sent, false),
    row!(7, b"GET_CONFIG_REQUEST      ", Exact(8), Read, false),
    row!(8, b"GET_CONFIG_REPLY        ", Exact(12), Sent, false),
    row!(9, b"SET_CONFIG              ", Exact(12), Read, false),
    row!(10, b"PACKET_IN               ", Least(32), Sent, false),
    row!(11, b"FLOW_REMOVED            ", Least(56), Sent, false),
    row!(12, b"PORT_STATUS             ", Exact(80), Sent, false),
    row!(13, b"PACKET_OUT              ", Least(24), Read, true),
    row!(14, b"FLOW_MOD                ", Least(56), Read, true),
    row!(15, b"GROUP_MOD               ", Least(16), Read, true),
    row!(16, b"PORT_MOD                ", Exact(40), Read, true),
    row!(17, b"TABLE_MOD               ", Exact(16), Read, true),
    row!(18, b"MULTIPART_REQUEST       ", Least(16), Read, false),
    row!(19, b"MULTIPART_REPLY         ", Least(16), Sent, false),
    row!(20, b"BARRIER_REQUEST         ", Exact(8), Read, false),
    row!(21, b"BARRIER_REPLY           ", Exact(8), Sent, false),
    row!(22, b"QUEUE_GET_CONFIG_REQUEST", Least(8), Neither, false),
    row!(23, b"QUEUE_GET_CONFIG_REPLY  ", Least(8), Neither, false),
    row!(24, b"ROLE_REQUEST            ", Exact(24), Read, false),
    row!(25, b"ROLE_REPLY              ", Exact(24), Sent, false),
    row!(26, b"GET_ASYNC_REQUEST       ", Exact(8), Read, false),
    row!(27, b"GET_ASYNC_REPLY         ", Exact(32), Sent, false),
    row!(28, b"SET_ASYNC               ", Exact(32), Read, false),
    row!(29, b"METER_MOD               ", Least(8), Neither, true),
];

/// The row of a type.
#[tactic(auto, unfolding(crate::specs::Messages::message_row))]
pub fn message_row(number: u64) -> Option<&'static MessageRow>
    ensures { option_map (λ row. row.now) result ≡ row_of_message number }
{
    MESSAGES.iter().find(|row| number == u64::from(row.kind))
}

/// The name of a type, as `FLOW_MOD`.
pub fn message_name(number: u64) -> Option<&'static [u8]>
    ensures { option_map (λ name. name.now) result ≡ name_of_message number }
{
    let row = message_row(number)?;
    Some(keyword(&row.name))
}
