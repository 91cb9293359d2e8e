//! Scripts: what is done to flow tables, and what they give.

use of_table::{FlowFlags, FlowRemovedReason, TableFault};

/// A flow for IN_PORT, which writes an action to a group or does nothing.
#[derive(Clone, Copy)]
pub struct FlowRow {
    pub in_port: u32,
    pub priority: u16,
    pub cookie: u64,
    pub group: Option<u32>,
    pub idle_timeout: u16,
    pub hard_timeout: u16,
    pub flags: FlowFlags,
}

/// What makes entries go.
pub enum Gone {
    /// A DELETE of the entries of port 1 in table 2, by what they send to.
    Delete { out_port: u32 },
    Group(Option<u32>),
    Moment(u64),
}

pub struct EntryRow {
    pub cookie: u64,
    pub packets: u64,
    pub bytes: u64,
    pub created: u64,
    pub last: Option<u64>,
    pub instructions: usize,
}

pub struct Notice {
    pub table: u8,
    pub reason: FlowRemovedReason,
    pub cookie: u64,
}

/// What changes tables. A packet comes by a port, and an entry is named by its cookie.
pub enum Change {
    /// A flow is added, or refused with a fault.
    Add {
        table: u8,
        flow: FlowRow,
        given: Result<(), TableFault>,
    },
    /// A MODIFY of the entries of port 1 in table 2: they send to a port.
    Modify {
        output: u32,
    },
    Remove(Gone),
    Looked(u8),
    /// A look-up that finds an entry, which then counts so many bytes, or none.
    Hit {
        table: u8,
        in_port: u32,
        cookie: Option<u64>,
        bytes: usize,
    },
}

/// What is seen of them.
pub enum Sight {
    Peek {
        table: u8,
        in_port: u32,
        cookie: Option<u64>,
    },
    Counters {
        table: u8,
        lookups: u64,
        matched: u64,
    },
    Entries {
        table: u8,
        entries: &'static [EntryRow],
    },
    EntryCount {
        table: u8,
        count: usize,
    },
    Listed {
        cause: Gone,
        notices: &'static [Notice],
    },
    Latest(u64),
}

pub enum Step {
    Do(Change),
    See(Sight),
    /// A copy of a table is made, in place of an earlier one.
    Copy(u8),
    /// The copy and its table change places.
    Swap,
}

const SECOND: u64 = 1_000_000_000;

const NO_FLAGS: FlowFlags = FlowFlags {
    send_removed: false,
    check_overlap: false,
    reset_counts: false,
    no_packet_counts: false,
    no_byte_counts: false,
};

const NOTICED: FlowFlags = FlowFlags {
    send_removed: true,
    ..NO_FLAGS
};

const CHECKED: FlowFlags = FlowFlags {
    check_overlap: true,
    ..NO_FLAGS
};

const OF_ONE: FlowRow = FlowRow {
    in_port: 1,
    priority: 5,
    cookie: 10,
    group: None,
    idle_timeout: 0,
    hard_timeout: 0,
    flags: NO_FLAGS,
};

const OF_TWO: FlowRow = FlowRow {
    in_port: 2,
    cookie: 20,
    ..OF_ONE
};

/// The flow of port 1 counts a packet, and is then replaced.
pub const TWO_FLOWS: &[Step] = &[
    Step::Do(Change::Hit {
        table: 2,
        in_port: 1,
        cookie: None,
        bytes: 60,
    }),
    Step::Do(Change::Add {
        table: 2,
        flow: OF_ONE,
        given: Ok(()),
    }),
    Step::Do(Change::Add {
        table: 2,
        flow: OF_TWO,
        given: Ok(()),
    }),
    Step::Do(Change::Looked(2)),
    Step::Do(Change::Hit {
        table: 2,
        in_port: 1,
        cookie: Some(10),
        bytes: 60,
    }),
    Step::See(Sight::Peek {
        table: 2,
        in_port: 1,
        cookie: Some(10),
    }),
    Step::Do(Change::Add {
        table: 2,
        flow: FlowRow {
            cookie: 11,
            ..OF_ONE
        },
        given: Ok(()),
    }),
    Step::See(Sight::Counters {
        table: 2,
        lookups: 1,
        matched: 1,
    }),
    Step::See(Sight::Entries {
        table: 2,
        entries: &[
            EntryRow {
                cookie: 20,
                packets: 0,
                bytes: 0,
                created: 0,
                last: None,
                instructions: 0,
            },
            EntryRow {
                cookie: 11,
                packets: 1,
                bytes: 60,
                created: 0,
                last: None,
                instructions: 0,
            },
        ],
    }),
    Step::See(Sight::Peek {
        table: 2,
        in_port: 3,
        cookie: None,
    }),
    Step::See(Sight::Peek {
        table: 3,
        in_port: 1,
        cookie: None,
    }),
];

pub const NOT_ADDED: &[Step] = &[
    Step::Do(Change::Add {
        table: 0,
        flow: OF_ONE,
        given: Ok(()),
    }),
    Step::Do(Change::Add {
        table: 0,
        flow: FlowRow {
            cookie: 11,
            flags: CHECKED,
            ..OF_ONE
        },
        given: Err(TableFault::Overlap),
    }),
    Step::Do(Change::Add {
        table: 16,
        flow: FlowRow {
            cookie: 12,
            ..OF_ONE
        },
        given: Err(TableFault::BadTable),
    }),
    Step::See(Sight::EntryCount { table: 0, count: 1 }),
];

pub const MODIFIED: &[Step] = &[
    Step::Do(Change::Add {
        table: 2,
        flow: FlowRow {
            flags: NOTICED,
            ..OF_ONE
        },
        given: Ok(()),
    }),
    Step::Do(Change::Add {
        table: 2,
        flow: OF_TWO,
        given: Ok(()),
    }),
    Step::Do(Change::Modify { output: 7 }),
    Step::See(Sight::Entries {
        table: 2,
        entries: &[
            EntryRow {
                cookie: 10,
                packets: 0,
                bytes: 0,
                created: 0,
                last: None,
                instructions: 1,
            },
            EntryRow {
                cookie: 20,
                packets: 0,
                bytes: 0,
                created: 0,
                last: None,
                instructions: 0,
            },
        ],
    }),
    Step::See(Sight::Listed {
        cause: Gone::Delete { out_port: 8 },
        notices: &[],
    }),
    Step::See(Sight::Listed {
        cause: Gone::Delete { out_port: 7 },
        notices: &[Notice {
            table: 2,
            reason: FlowRemovedReason::Delete,
            cookie: 10,
        }],
    }),
    Step::Do(Change::Remove(Gone::Delete { out_port: 7 })),
    Step::See(Sight::Listed {
        cause: Gone::Delete { out_port: 7 },
        notices: &[],
    }),
    Step::See(Sight::EntryCount { table: 2, count: 1 }),
];

pub const GROUPS: &[Step] = &[
    Step::Do(Change::Add {
        table: 0,
        flow: FlowRow {
            cookie: 7,
            group: Some(7),
            flags: NOTICED,
            ..OF_ONE
        },
        given: Ok(()),
    }),
    Step::Do(Change::Add {
        table: 1,
        flow: FlowRow {
            cookie: 8,
            group: Some(8),
            flags: NOTICED,
            ..OF_ONE
        },
        given: Ok(()),
    }),
    Step::Do(Change::Add {
        table: 1,
        flow: OF_TWO,
        given: Ok(()),
    }),
    Step::See(Sight::Listed {
        cause: Gone::Group(Some(8)),
        notices: &[Notice {
            table: 1,
            reason: FlowRemovedReason::GroupDelete,
            cookie: 8,
        }],
    }),
    Step::Do(Change::Remove(Gone::Group(Some(8)))),
    Step::See(Sight::Listed {
        cause: Gone::Group(None),
        notices: &[Notice {
            table: 0,
            reason: FlowRemovedReason::GroupDelete,
            cookie: 7,
        }],
    }),
    Step::Do(Change::Remove(Gone::Group(None))),
    Step::See(Sight::EntryCount { table: 0, count: 0 }),
    Step::See(Sight::EntryCount { table: 1, count: 1 }),
];

pub const TIMEOUTS: &[Step] = &[
    Step::Do(Change::Add {
        table: 0,
        flow: FlowRow {
            idle_timeout: 5,
            hard_timeout: 10,
            flags: NOTICED,
            ..OF_ONE
        },
        given: Ok(()),
    }),
    Step::Do(Change::Remove(Gone::Moment(4 * SECOND))),
    Step::Do(Change::Hit {
        table: 0,
        in_port: 1,
        cookie: Some(10),
        bytes: 60,
    }),
    Step::Do(Change::Remove(Gone::Moment(8 * SECOND))),
    Step::See(Sight::Listed {
        cause: Gone::Moment(0),
        notices: &[],
    }),
    Step::See(Sight::Listed {
        cause: Gone::Moment(10 * SECOND),
        notices: &[Notice {
            table: 0,
            reason: FlowRemovedReason::HardTimeout,
            cookie: 10,
        }],
    }),
    Step::See(Sight::Latest(8 * SECOND)),
    Step::Do(Change::Remove(Gone::Moment(10 * SECOND))),
    Step::See(Sight::EntryCount { table: 0, count: 0 }),
    Step::See(Sight::Latest(10 * SECOND)),
];

const OF_GROUP: FlowRow = FlowRow {
    cookie: 12,
    priority: 9,
    group: Some(7),
    hard_timeout: 10,
    flags: NOTICED,
    ..OF_ONE
};

/// The table before the change: its second entry was replaced, and so is the youngest.
const BEFORE: &[EntryRow] = &[
    EntryRow {
        cookie: 12,
        packets: 1,
        bytes: 60,
        created: SECOND,
        last: Some(2 * SECOND),
        instructions: 1,
    },
    EntryRow {
        cookie: 20,
        packets: 0,
        bytes: 0,
        created: SECOND,
        last: None,
        instructions: 0,
    },
    EntryRow {
        cookie: 11,
        packets: 0,
        bytes: 0,
        created: 2 * SECOND,
        last: None,
        instructions: 0,
    },
];

/// And after it: a flow was added, the flows of port 1 were modified, which sets their counters to 0, and a packet came.
const AFTER: &[EntryRow] = &[
    EntryRow {
        cookie: 12,
        packets: 0,
        bytes: 0,
        created: SECOND,
        last: Some(2 * SECOND),
        instructions: 1,
    },
    EntryRow {
        cookie: 20,
        packets: 0,
        bytes: 0,
        created: SECOND,
        last: None,
        instructions: 0,
    },
    EntryRow {
        cookie: 11,
        packets: 0,
        bytes: 0,
        created: 2 * SECOND,
        last: None,
        instructions: 1,
    },
    EntryRow {
        cookie: 13,
        packets: 1,
        bytes: 70,
        created: 2 * SECOND,
        last: Some(2 * SECOND),
        instructions: 1,
    },
];

const IS_BEFORE: Step = Step::See(Sight::Entries {
    table: 2,
    entries: BEFORE,
});

const IS_AFTER: Step = Step::See(Sight::Entries {
    table: 2,
    entries: AFTER,
});

const COUNTED_ONCE: Step = Step::See(Sight::Counters {
    table: 2,
    lookups: 1,
    matched: 1,
});

const COUNTED_TWICE: Step = Step::See(Sight::Counters {
    table: 2,
    lookups: 2,
    matched: 2,
});

const WON_BEFORE: Step = Step::See(Sight::Peek {
    table: 2,
    in_port: 1,
    cookie: Some(12),
});

const WON_AFTER: Step = Step::See(Sight::Peek {
    table: 2,
    in_port: 1,
    cookie: Some(13),
});

const IN_GROUP: Step = Step::See(Sight::Listed {
    cause: Gone::Group(Some(7)),
    notices: &[Notice {
        table: 2,
        reason: FlowRemovedReason::GroupDelete,
        cookie: 12,
    }],
});

const IN_NO_GROUP: Step = Step::See(Sight::Listed {
    cause: Gone::Group(Some(7)),
    notices: &[],
});

const IN_OTHER_TABLE: Step = Step::See(Sight::Peek {
    table: 3,
    in_port: 2,
    cookie: Some(30),
});

/// A table is copied and changed, and changes places with its copy three times; then a packet comes, and time passes.
pub const COPIED: &[Step] = &[
    Step::Do(Change::Remove(Gone::Moment(SECOND))),
    Step::Do(Change::Add {
        table: 2,
        flow: OF_ONE,
        given: Ok(()),
    }),
    Step::Do(Change::Add {
        table: 2,
        flow: OF_GROUP,
        given: Ok(()),
    }),
    Step::Do(Change::Add {
        table: 2,
        flow: OF_TWO,
        given: Ok(()),
    }),
    Step::Do(Change::Add {
        table: 3,
        flow: FlowRow {
            cookie: 30,
            ..OF_TWO
        },
        given: Ok(()),
    }),
    Step::Do(Change::Remove(Gone::Moment(2 * SECOND))),
    Step::Do(Change::Add {
        table: 2,
        flow: FlowRow {
            cookie: 11,
            ..OF_ONE
        },
        given: Ok(()),
    }),
    Step::Do(Change::Looked(2)),
    Step::Do(Change::Hit {
        table: 2,
        in_port: 1,
        cookie: Some(12),
        bytes: 60,
    }),
    IS_BEFORE,
    Step::Copy(2),
    IS_BEFORE,
    WON_BEFORE,
    COUNTED_ONCE,
    IN_GROUP,
    Step::Do(Change::Modify { output: 7 }),
    Step::Do(Change::Add {
        table: 2,
        flow: FlowRow {
            cookie: 13,
            priority: 20,
            group: Some(8),
            ..OF_ONE
        },
        given: Ok(()),
    }),
    Step::Do(Change::Looked(2)),
    Step::Do(Change::Hit {
        table: 2,
        in_port: 1,
        cookie: Some(13),
        bytes: 70,
    }),
    IS_AFTER,
    Step::Swap,
    IS_BEFORE,
    WON_BEFORE,
    COUNTED_ONCE,
    IN_GROUP,
    IN_OTHER_TABLE,
    Step::Swap,
    IS_AFTER,
    WON_AFTER,
    COUNTED_TWICE,
    IN_NO_GROUP,
    IN_OTHER_TABLE,
    Step::Swap,
    IS_BEFORE,
    Step::See(Sight::Latest(2 * SECOND)),
    Step::Do(Change::Hit {
        table: 2,
        in_port: 2,
        cookie: Some(20),
        bytes: 80,
    }),
    Step::Do(Change::Hit {
        table: 2,
        in_port: 1,
        cookie: Some(12),
        bytes: 90,
    }),
    Step::Do(Change::Remove(Gone::Moment(11 * SECOND))),
    Step::See(Sight::Entries {
        table: 2,
        entries: &[
            EntryRow {
                cookie: 20,
                packets: 1,
                bytes: 80,
                created: SECOND,
                last: Some(2 * SECOND),
                instructions: 0,
            },
            EntryRow {
                cookie: 11,
                packets: 0,
                bytes: 0,
                created: 2 * SECOND,
                last: None,
                instructions: 0,
            },
        ],
    }),
    Step::See(Sight::Peek {
        table: 2,
        in_port: 1,
        cookie: Some(11),
    }),
];
