//! The fields of messages and of rows that are printed, in the order of the text: the word before each, its place, its size, and its form.
ghost use Rattle.std.specs.Prelude.{◌≡◌, map, IsTrue};
ghost use Rattle.of_explain.specs.{Fields.are_short, Fields.field_of, Messages.asked_for_fields, Messages.counted_by, Messages.told_of, Replies.row_told};

use crate::fields::Field;
use crate::fields::Form::{InHex, Named, Plainly, UnlessAny, UnlessZero};
use crate::names::Names;

/// Of a message's header (OpenFlow 1.3.5, 7.1).
pub const HEADER: &[Field] = &[Field(" xid", 4, 4, Plainly)];

/// The type of the message that an ERROR refuses (7.4.4).
pub const REFUSED: &[Field] = &[Field(" for", 13, 1, Named(Names::Types))];

/// The type of a multipart request and of its replies (7.3.5).
pub const MULTIPART: &[Field] = &[Field("", 8, 2, Named(Names::Multiparts))];

const FEATURES: &[Field] = &[
    Field(" datapath", 8, 8, InHex),
    Field(" buffers", 16, 4, Plainly),
    Field(" tables", 20, 1, Plainly),
    Field(" auxiliary_id", 21, 1, Plainly),
    Field(" capabilities", 24, 4, Plainly),
];

const CONFIG: &[Field] = &[
    Field(" flags", 8, 2, Plainly),
    Field(" miss_send_len", 10, 2, Plainly),
];

/// Of a PACKET_IN before its match (7.4.1).
pub const PACKET_IN: &[Field] = &[
    Field(" reason", 14, 1, Named(Names::PacketInReasons)),
    Field(" table", 15, 1, Plainly),
    Field(" cookie", 16, 8, InHex),
    Field(" frame of", 12, 2, Plainly),
    Field(" buffer", 8, 4, UnlessAny),
];

const FLOW_REMOVED: &[Field] = &[
    Field(" reason", 18, 1, Named(Names::FlowRemovedReasons)),
    Field(" table", 19, 1, Plainly),
    Field(" priority", 16, 2, Plainly),
    Field(" cookie", 8, 8, InHex),
    Field(" seconds", 20, 4, Plainly),
    Field(" packets", 32, 8, Plainly),
    Field(" bytes", 40, 8, Plainly),
];

const PORT_STATUS: &[Field] = &[
    Field(" reason", 8, 1, Named(Names::PortStatusReasons)),
    Field(" port", 16, 4, Plainly),
    Field(" config", 48, 4, Plainly),
    Field(" state", 52, 4, Plainly),
];

const PACKET_OUT: &[Field] = &[
    Field(" buffer", 8, 4, UnlessAny),
    Field(" in_port", 12, 4, Plainly),
];

const FLOW_MOD: &[Field] = &[
    Field("", 25, 1, Named(Names::FlowCommands)),
    Field(" table", 24, 1, Plainly),
    Field(" priority", 30, 2, Plainly),
    Field(" cookie", 8, 8, InHex),
    Field(" idle", 26, 2, Plainly),
    Field(" hard", 28, 2, Plainly),
    Field(" flags", 44, 2, Plainly),
    Field(" cookie_mask", 16, 8, UnlessZero),
    Field(" buffer", 32, 4, UnlessAny),
    Field(" out_port", 36, 4, UnlessAny),
    Field(" out_group", 40, 4, UnlessAny),
];

const GROUP_MOD: &[Field] = &[
    Field("", 8, 2, Named(Names::GroupCommands)),
    Field(" group", 12, 4, Plainly),
];

const PORT_MOD: &[Field] = &[
    Field(" port", 8, 4, Plainly),
    Field(" hw", 16, 6, InHex),
    Field(" config", 24, 4, Plainly),
    Field(" mask", 28, 4, Plainly),
];

const TABLE_MOD: &[Field] = &[
    Field(" table", 8, 1, Plainly),
    Field(" config", 12, 4, Plainly),
];

const ROLE: &[Field] = &[
    Field("", 8, 4, Named(Names::Roles)),
    Field(" generation", 16, 8, Plainly),
];

const ASYNC: &[Field] = &[
    Field(" packet_in", 8, 4, Plainly),
    Field(" slave", 12, 4, Plainly),
    Field(" port_status", 16, 4, Plainly),
    Field(" slave", 20, 4, Plainly),
    Field(" flow_removed", 24, 4, Plainly),
    Field(" slave", 28, 4, Plainly),
];

const ASKED_ENTRIES: &[Field] = &[
    Field(" table", 16, 1, Plainly),
    Field(" out_port", 20, 4, UnlessAny),
    Field(" out_group", 24, 4, UnlessAny),
    Field(" cookie", 32, 8, UnlessZero),
    Field(" cookie_mask", 40, 8, UnlessZero),
];

const ASKED_PORT: &[Field] = &[Field(" port", 16, 4, UnlessAny)];

const ASKED_GROUP: &[Field] = &[Field(" group", 16, 4, UnlessAny)];

const COUNTED: &[Field] = &[
    Field(" packets", 16, 8, Plainly),
    Field(" bytes", 24, 8, Plainly),
    Field(" flows", 32, 4, Plainly),
];

const FLOW_ROW: &[Field] = &[
    Field("table", 2, 1, Plainly),
    Field(" priority", 12, 2, Plainly),
    Field(" cookie", 24, 8, InHex),
    Field(" seconds", 4, 4, Plainly),
    Field(" packets", 32, 8, Plainly),
    Field(" bytes", 40, 8, Plainly),
];

const TABLE_ROW: &[Field] = &[
    Field("table", 0, 1, Plainly),
    Field(" flows", 4, 4, Plainly),
    Field(" lookups", 8, 8, Plainly),
    Field(" matched", 16, 8, Plainly),
];

const PORT_ROW: &[Field] = &[
    Field("port", 0, 4, Plainly),
    Field(" rx_packets", 8, 8, Plainly),
    Field(" rx_bytes", 24, 8, Plainly),
    Field(" rx_dropped", 40, 8, Plainly),
    Field(" tx_packets", 16, 8, Plainly),
    Field(" tx_bytes", 32, 8, Plainly),
    Field(" tx_dropped", 48, 8, Plainly),
    Field(" seconds", 104, 4, Plainly),
];

const GROUP_ROW: &[Field] = &[
    Field("group", 4, 4, Plainly),
    Field(" references", 8, 4, Plainly),
    Field(" packets", 16, 8, Plainly),
    Field(" bytes", 24, 8, Plainly),
    Field(" seconds", 32, 4, Plainly),
];

const GROUP_DESC_ROW: &[Field] = &[
    Field("group", 4, 4, Plainly),
    Field(" type", 2, 1, Named(Names::GroupTypes)),
];

const PORT_DESC_ROW: &[Field] = &[
    Field("port", 0, 4, Plainly),
    Field(" hw", 8, 6, InHex),
    Field(" config", 32, 4, Plainly),
    Field(" state", 36, 4, Plainly),
];

/// The fields of a message of that type (7.1), but of ERROR, PACKET_IN and multipart messages.
#[tactic(auto, unfolding(crate::specs::Messages::told_of))]
pub fn message_fields(kind: u64) -> &'static [Field]
    ensures fields { map field_of result.now ≡ told_of kind }
    ensures short { IsTrue (are_short (map field_of result.now)) }
{
    match kind {
        6 => FEATURES,
        8 | 9 => CONFIG,
        11 => FLOW_REMOVED,
        12 => PORT_STATUS,
        13 => PACKET_OUT,
        14 => FLOW_MOD,
        15 => GROUP_MOD,
        16 => PORT_MOD,
        17 => TABLE_MOD,
        24 | 25 => ROLE,
        27 | 28 => ASYNC,
        _ => &[],
    }
}

/// What a multipart request of that type asks for (7.3.5).
#[tactic(auto, unfolding(crate::specs::Messages::asked_for_fields))]
pub fn asked_fields(kind: Option<u16>) -> &'static [Field]
    ensures fields { map field_of result.now ≡ asked_for_fields kind }
    ensures short { IsTrue (are_short (map field_of result.now)) }
{
    match kind {
        Some(1 | 2) => ASKED_ENTRIES,
        Some(4) => ASKED_PORT,
        Some(6) => ASKED_GROUP,
        _ => &[],
    }
}

/// What a multipart reply of that type says before its rows: of AGGREGATE what the entries have counted (7.3.5.3).
#[tactic(auto, unfolding(crate::specs::Messages::counted_by))]
pub fn counted_fields(kind: Option<u16>) -> &'static [Field]
    ensures fields { map field_of result.now ≡ counted_by kind }
    ensures short { IsTrue (are_short (map field_of result.now)) }
{
    match kind {
        Some(2) => COUNTED,
        _ => &[],
    }
}

/// The fields of a row of a multipart reply of that type (7.3.5).
#[tactic(auto, unfolding(crate::specs::Replies::row_told))]
pub fn row_fields(kind: u16) -> &'static [Field]
    ensures fields { map field_of result.now ≡ row_told kind }
    ensures short { IsTrue (are_short (map field_of result.now)) }
{
    match kind {
        1 => FLOW_ROW,
        3 => TABLE_ROW,
        4 => PORT_ROW,
        6 => GROUP_ROW,
        7 => GROUP_DESC_ROW,
        13 => PORT_DESC_ROW,
        _ => &[],
    }
}
