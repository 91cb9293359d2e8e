//! What is done with a cache of lookups, from an empty one on, and which rows it then has.
use super::{CacheRow, CacheStep};
use crate::steps::{Entry, Frame, Question, Step};

const TYPE_88B5: &[u8] = &[0, 1, 0, 10, 0x80, 0, 0x0a, 2, 0x88, 0xb5, 0, 0, 0, 0, 0, 0];

pub(super) const PORT_1_AT_10: Entry = Entry {
    fields: &[0, 1, 0, 12, 0x80, 0, 0, 4, 0, 0, 0, 1, 0, 0, 0, 0],
    priority: 10,
};

const TYPE_0806_AT_1: Entry = Entry {
    fields: &[0, 1, 0, 10, 0x80, 0, 0x0a, 2, 0x08, 0x06, 0, 0, 0, 0, 0, 0],
    priority: 1,
};

const TYPE_88B5_AT_10: Entry = Entry {
    fields: TYPE_88B5,
    priority: 10,
};

const TYPE_88B5_AT_11: Entry = Entry {
    fields: TYPE_88B5,
    priority: 11,
};

/// A frame of type 0x88b5 that comes by port 1.
pub(super) const PORT_1_88B5: Frame = Frame {
    source: 1,
    in_port: 1,
    ether_type: 0x88b5,
};

/// The same from another source.
const OTHER_SOURCE: Frame = Frame {
    source: 7,
    in_port: 1,
    ether_type: 0x88b5,
};

const PORT_2_88B5: Frame = Frame {
    source: 1,
    in_port: 2,
    ether_type: 0x88b5,
};

const PORT_3_88B5: Frame = Frame {
    source: 1,
    in_port: 3,
    ether_type: 0x88b5,
};

const PORT_4_88B5: Frame = Frame {
    source: 1,
    in_port: 4,
    ether_type: 0x88b5,
};

/// The bit of IN_PORT in what a mask looks at.
pub(super) const IN_PORT: u32 = 1;

/// Without entries no field decides.
pub(super) const NO_ENTRY: &[CacheRow] = &[
    (
        "no entry",
        CacheStep::Does(Step::Ask(Question::Winner(PORT_1_88B5), None)),
    ),
    ("one row", CacheStep::Keeps(0, &[0], None)),
    ("add 0", CacheStep::Does(Step::Add(TYPE_0806_AT_1))),
    ("it goes", CacheStep::Keeps(IN_PORT, &[], None)),
];

/// The cache answers what one entry decides, and asks the classifier below nothing the second time.
pub(super) const ONE_ENTRY: &[CacheRow] = &[
    ("add 0", CacheStep::Does(Step::Add(PORT_1_AT_10))),
    (
        "it wins",
        CacheStep::Does(Step::Ask(Question::Winner(PORT_1_88B5), Some(0))),
    ),
    ("asked once", CacheStep::Asked(1)),
    ("a row of it", CacheStep::Keeps(IN_PORT, &[1], Some(0))),
    (
        "it wins from another source",
        CacheStep::Does(Step::Ask(Question::Winner(OTHER_SOURCE), Some(0))),
    ),
    ("not asked again", CacheStep::Asked(1)),
    (
        "add 1 of its priority",
        CacheStep::Does(Step::Add(TYPE_88B5_AT_10)),
    ),
    ("the row stays", CacheStep::Keeps(IN_PORT, &[1], Some(0))),
    (
        "add 2 of a higher one",
        CacheStep::Does(Step::Add(TYPE_88B5_AT_11)),
    ),
    ("the row goes", CacheStep::Keeps(IN_PORT, &[], None)),
];

/// Of a cache of two rows.
pub(super) const TWO_ROWS: &[CacheRow] = &[
    ("add 0", CacheStep::Does(Step::Add(PORT_1_AT_10))),
    (
        "port 1",
        CacheStep::Does(Step::Ask(Question::Winner(PORT_1_88B5), Some(0))),
    ),
    (
        "port 3",
        CacheStep::Does(Step::Ask(Question::Winner(PORT_3_88B5), None)),
    ),
    (
        "port 4",
        CacheStep::Does(Step::Ask(Question::Winner(PORT_4_88B5), None)),
    ),
    ("port 1 went", CacheStep::Keeps(IN_PORT, &[4, 3], None)),
    (
        "peek of port 3",
        CacheStep::Does(Step::Ask(Question::Peek(PORT_3_88B5), None)),
    ),
    ("no row moves", CacheStep::Keeps(IN_PORT, &[4, 3], None)),
    ("take 0", CacheStep::Does(Step::Take(PORT_1_AT_10))),
    (
        "no row answers it",
        CacheStep::Keeps(IN_PORT, &[4, 3], None),
    ),
    (
        "port 3 again",
        CacheStep::Does(Step::Ask(Question::Winner(PORT_3_88B5), None)),
    ),
    ("it comes first", CacheStep::Keeps(IN_PORT, &[3, 4], None)),
];

/// Winners, where an entry is added once more if there was no memory.
pub(super) const AGAIN: &[CacheRow] = &[
    (
        "no entry",
        CacheStep::Does(Step::Ask(Question::Winner(PORT_1_88B5), None)),
    ),
    ("add 0", CacheStep::AddAgain(PORT_1_AT_10)),
    (
        "it wins",
        CacheStep::Does(Step::Ask(Question::Winner(PORT_1_88B5), Some(0))),
    ),
    (
        "not of port 2",
        CacheStep::Does(Step::Ask(Question::Winner(PORT_2_88B5), None)),
    ),
    ("add 1", CacheStep::AddAgain(TYPE_88B5_AT_10)),
    (
        "the older one wins",
        CacheStep::Does(Step::Ask(Question::Winner(PORT_1_88B5), Some(0))),
    ),
    (
        "the younger one of port 2",
        CacheStep::Does(Step::Ask(Question::Winner(PORT_2_88B5), Some(1))),
    ),
    ("add 2", CacheStep::AddAgain(TYPE_88B5_AT_11)),
    (
        "the higher one wins",
        CacheStep::Does(Step::Ask(Question::Winner(PORT_1_88B5), Some(2))),
    ),
];
