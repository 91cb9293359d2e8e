use crate::steps::{Entry, Frame, Question, Row, Step, play_all};
use of_classifier::Scan;
use std::test::Fail;

/// The match of port 1, in bytes (OpenFlow 1.3.5, 7.2.3).
const PORT_1: &[u8] = &[0, 1, 0, 12, 0x80, 0, 0, 4, 0, 0, 0, 1, 0, 0, 0, 0];

const PORT_1_AT_5: Entry = Entry {
    fields: PORT_1,
    priority: 5,
};

const PORT_1_AT_6: Entry = Entry {
    fields: PORT_1,
    priority: 6,
};

const AT_PORT_1: Frame = Frame {
    source: 1,
    in_port: 1,
    ether_type: 0x88b5,
};

const AT_PORT_2: Frame = Frame {
    source: 1,
    in_port: 2,
    ether_type: 0x88b5,
};

/// Of two entries of one priority the older wins until it is renewed.
const TWO_ENTRIES: &[Row] = &[
    ("an empty one", Step::Ask(Question::Winner(AT_PORT_1), None)),
    ("add 0", Step::Add(PORT_1_AT_5)),
    ("add 1", Step::Add(PORT_1_AT_5)),
    (
        "the older one",
        Step::Ask(Question::Winner(AT_PORT_1), Some(0)),
    ),
    (
        "no entry matches",
        Step::Ask(Question::Winner(AT_PORT_2), None),
    ),
    (
        "and by its region",
        Step::Ask(Question::Region(AT_PORT_1), Some(0)),
    ),
    ("the younger one's priority", Step::Priority(1, Some(5))),
    (
        "the older of two",
        Step::Ask(Question::Same(PORT_1_AT_5), Some(0)),
    ),
    (
        "another priority",
        Step::Ask(Question::Same(PORT_1_AT_6), None),
    ),
    ("renew 0", Step::Renew(PORT_1_AT_5)),
    (
        "the other is older",
        Step::Ask(Question::Same(PORT_1_AT_5), Some(1)),
    ),
    ("and wins", Step::Ask(Question::Peek(AT_PORT_1), Some(1))),
    ("take 1", Step::Take(PORT_1_AT_5)),
    (
        "what is left",
        Step::Ask(Question::Winner(AT_PORT_1), Some(0)),
    ),
    ("each number once", Step::Known),
];

#[test]
fn scan_of_two_entries(rt: HostRuntime) -> Result<(), Fail> {
    play_all::<Scan>(&rt, rt.alloc(), TWO_ENTRIES)
}
