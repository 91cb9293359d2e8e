//! What is done with a classifier, from an empty one on, and what it answers.
use crate::steps::{Entry, Frame, Question, Row, Step};

const PORT_1_AT_10: Entry = Entry {
    fields: &[0, 1, 0, 12, 0x80, 0, 0, 4, 0, 0, 0, 1, 0, 0, 0, 0],
    priority: 10,
};

const PORT_1_AT_9: Entry = Entry {
    fields: &[0, 1, 0, 12, 0x80, 0, 0, 4, 0, 0, 0, 1, 0, 0, 0, 0],
    priority: 9,
};

const PORT_2_AT_10: Entry = Entry {
    fields: &[0, 1, 0, 12, 0x80, 0, 0, 4, 0, 0, 0, 2, 0, 0, 0, 0],
    priority: 10,
};

const PORT_2_AT_3: Entry = Entry {
    fields: &[0, 1, 0, 12, 0x80, 0, 0, 4, 0, 0, 0, 2, 0, 0, 0, 0],
    priority: 3,
};

const TYPE_88B5_AT_10: Entry = Entry {
    fields: &[0, 1, 0, 10, 0x80, 0, 0x0a, 2, 0x88, 0xb5, 0, 0, 0, 0, 0, 0],
    priority: 10,
};

const TYPE_88B5_AT_5: Entry = Entry {
    fields: &[0, 1, 0, 10, 0x80, 0, 0x0a, 2, 0x88, 0xb5, 0, 0, 0, 0, 0, 0],
    priority: 5,
};

const ANY_AT_0: Entry = Entry {
    fields: &[0, 1, 0, 4, 0, 0, 0, 0],
    priority: 0,
};

const PORT_1_88B5: Frame = Frame {
    source: 1,
    in_port: 1,
    ether_type: 0x88b5,
};

const PORT_4_88B5: Frame = Frame {
    source: 1,
    in_port: 4,
    ether_type: 0x88b5,
};

const PORT_4_ARP: Frame = Frame {
    source: 1,
    in_port: 4,
    ether_type: 0x0806,
};

/// Which entry wins, and how many masks were asked for it.
pub(super) const FIND: &[Row] = &[
    ("an empty one", Step::Find(PORT_1_88B5, None, 0)),
    ("add 0", Step::Add(PORT_1_AT_10)),
    ("add 1", Step::Add(TYPE_88B5_AT_5)),
    ("no entry matches", Step::Find(PORT_4_ARP, None, 2)),
    ("add 2", Step::Add(ANY_AT_0)),
    ("the highest", Step::Find(PORT_1_88B5, Some(0), 1)),
    ("the second", Step::Find(PORT_4_88B5, Some(1), 2)),
    ("the lowest", Step::Find(PORT_4_ARP, Some(2), 3)),
    ("add 3", Step::Add(PORT_2_AT_3)),
    ("take 0", Step::Take(PORT_1_AT_10)),
    ("the second is first", Step::Find(PORT_4_88B5, Some(1), 1)),
];

/// Of entries of one priority the oldest wins.
pub(super) const AGES: &[Row] = &[
    ("add 0", Step::Add(TYPE_88B5_AT_10)),
    ("add 1", Step::Add(PORT_1_AT_10)),
    ("the older one", Step::Find(PORT_1_88B5, Some(0), 2)),
    ("renew 0", Step::Renew(TYPE_88B5_AT_10)),
    ("after renewing", Step::Find(PORT_1_88B5, Some(1), 2)),
    (
        "the winner of it",
        Step::Ask(Question::Winner(PORT_1_88B5), Some(1)),
    ),
    (
        "and by peek",
        Step::Ask(Question::Peek(PORT_1_88B5), Some(1)),
    ),
    ("add 2", Step::Add(PORT_1_AT_10)),
    (
        "the older of two",
        Step::Ask(Question::Same(PORT_1_AT_10), Some(1)),
    ),
    (
        "another priority",
        Step::Ask(Question::Same(PORT_1_AT_9), None),
    ),
    (
        "another match",
        Step::Ask(Question::Same(PORT_2_AT_10), None),
    ),
    ("take 1", Step::Take(PORT_1_AT_10)),
    (
        "the other of two",
        Step::Ask(Question::Same(PORT_1_AT_10), Some(2)),
    ),
    ("each number once", Step::Known),
    ("the renewed one", Step::Find(PORT_1_88B5, Some(0), 2)),
    ("take 0", Step::Take(TYPE_88B5_AT_10)),
    ("what is left", Step::Find(PORT_1_88B5, Some(2), 1)),
    ("take 2", Step::Take(PORT_1_AT_10)),
    ("an empty one again", Step::Find(PORT_1_88B5, None, 0)),
];
