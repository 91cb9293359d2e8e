//! What becomes of a packet that came by port 1 in a world of one entry, as rows.

use of_actions::Action;
use of_layers::Field;
use of_machine::{Count, PacketInReason, Step};
use of_wire::limits::{OFPP_CONTROLLER, OFPP_TABLE};

/// The entry's one instruction, without its actions.
pub enum Kind {
    Apply,
    Write,
}

/// How the packet begins, and the steps that a log keeps.
pub enum Way {
    /// At table 0.
    Logged(&'static [Step]),
    /// At table 0, with no log.
    Unlogged,
    /// With the actions of a PACKET_OUT.
    PacketOut {
        actions: &'static [Action],
        steps: &'static [Step],
    },
}

/// What is emitted.
pub enum Wanted {
    Sent {
        port: u32,
        bytes: &'static [u8],
    },
    Told {
        reason: PacketInReason,
        max_len: Option<u16>,
        bytes: &'static [u8],
    },
}

pub struct Row {
    pub what: &'static str,
    pub priority: u16,
    pub kind: Kind,
    pub actions: &'static [Action],
    pub frame: &'static [u8],
    pub way: Way,
    pub items: &'static [Wanted],
    /// Nothing where the counts are not compared.
    pub counts: Option<&'static [Count]>,
}

pub const TO_TWO: Action = Action::Output {
    port: 2,
    max_len: 0,
};

pub const TO_THREE: Action = Action::Output {
    port: 3,
    max_len: 0,
};

const TO_CONTROLLER: Action = Action::Output {
    port: OFPP_CONTROLLER,
    max_len: 0xffff,
};

const EIGHT_TO_CONTROLLER: Action = Action::Output {
    port: OFPP_CONTROLLER,
    max_len: 8,
};

const TO_TABLES: Action = Action::Output {
    port: OFPP_TABLE,
    max_len: 0,
};

const SET_VID: Action = Action::SetField {
    field: Field::VlanVid,
    value: 0x1005,
};

const FOUND: Step = Step::Entry {
    table: 0,
    number: 0,
};

const UNTAGGED: &[u8] = &[2, 0, 0, 0, 0, 2, 2, 0, 0, 0, 0, 1, 0x88, 0xb5, 1, 2];

/// With a tag of type 0x8100 and VID 5 (IEEE 802.1Q, 9.3).
const TAGGED: &[u8] = &[
    2, 0, 0, 0, 0, 2, 2, 0, 0, 0, 0, 1, 0x81, 0x00, 0x00, 0x05, 0x88, 0xb5, 1, 2,
];

/// From 10.0.0.1 to 10.0.0.2, of a time to live of 1 (RFC 791, 3.1).
const LAST_HOP: &[u8] = &[
    2, 0, 0, 0, 0, 2, 2, 0, 0, 0, 0, 1, 0x08, 0x00, 0x45, 0, 0, 20, 0, 1, 0, 0, 1, 253, 0xa4, 0xe3,
    10, 0, 0, 1, 10, 0, 0, 2,
];

const SENT_BY_TWO: Wanted = Wanted::Sent {
    port: 2,
    bytes: UNTAGGED,
};

const SENT_BY_THREE: Wanted = Wanted::Sent {
    port: 3,
    bytes: UNTAGGED,
};

pub const ROWS: [Row; 6] = [
    Row {
        what: "an action set pushes and sets a tag, and sends",
        priority: 1,
        kind: Kind::Write,
        actions: &[TO_TWO, SET_VID, Action::PushVlan(0x8100)],
        frame: UNTAGGED,
        way: Way::Logged(&[
            FOUND,
            Step::Write,
            Step::Set,
            Step::Act(Action::PushVlan(0x8100)),
            Step::Act(SET_VID),
            Step::Act(TO_TWO),
            Step::End,
        ]),
        items: &[Wanted::Sent {
            port: 2,
            bytes: TAGGED,
        }],
        counts: None,
    },
    Row {
        what: "the last hop ends the work",
        priority: 1,
        kind: Kind::Apply,
        actions: &[TO_TWO, Action::DecNwTtl, TO_THREE],
        frame: LAST_HOP,
        way: Way::Logged(&[
            FOUND,
            Step::Apply,
            Step::Act(TO_TWO),
            Step::TtlExpired,
            Step::End,
        ]),
        items: &[
            Wanted::Sent {
                port: 2,
                bytes: LAST_HOP,
            },
            Wanted::Told {
                reason: PacketInReason::InvalidTtl,
                max_len: None,
                bytes: LAST_HOP,
            },
        ],
        counts: None,
    },
    Row {
        what: "a table-miss entry tells the controller",
        priority: 0,
        kind: Kind::Apply,
        actions: &[TO_CONTROLLER],
        frame: UNTAGGED,
        way: Way::Unlogged,
        items: &[Wanted::Told {
            reason: PacketInReason::NoMatch,
            max_len: Some(0xffff),
            bytes: UNTAGGED,
        }],
        counts: None,
    },
    Row {
        what: "an output asks for the first 8 bytes, and the frame stays whole",
        priority: 1,
        kind: Kind::Apply,
        actions: &[EIGHT_TO_CONTROLLER],
        frame: UNTAGGED,
        way: Way::Unlogged,
        items: &[Wanted::Told {
            reason: PacketInReason::Action,
            max_len: Some(8),
            bytes: UNTAGGED,
        }],
        counts: None,
    },
    Row {
        what: "a group of two buckets",
        priority: 1,
        kind: Kind::Apply,
        actions: &[Action::Group(9), TO_TWO],
        frame: UNTAGGED,
        way: Way::Unlogged,
        items: &[SENT_BY_TWO, SENT_BY_THREE, SENT_BY_TWO],
        counts: Some(&[
            Count::Lookup(0),
            Count::Matched {
                table: 0,
                number: 0,
                bytes: 16,
            },
            Count::Group {
                group: 9,
                bytes: 16,
            },
            Count::Bucket {
                group: 9,
                place: 0,
                bytes: 16,
            },
            Count::Bucket {
                group: 9,
                place: 1,
                bytes: 16,
            },
        ]),
    },
    Row {
        what: "a PACKET_OUT to the tables",
        priority: 1,
        kind: Kind::Apply,
        actions: &[TO_TWO],
        frame: UNTAGGED,
        way: Way::PacketOut {
            actions: &[TO_TABLES],
            steps: &[
                Step::Act(TO_TABLES),
                FOUND,
                Step::Apply,
                Step::Act(TO_TWO),
                Step::Set,
                Step::End,
                Step::End,
            ],
        },
        items: &[SENT_BY_TWO],
        counts: None,
    },
];
