/// What is remarked of a configuration. A flow entry is named by its table, and its index there by age, from 0.
#[derive(Clone, Copy, PartialEq, Eq)]
pub enum Remark {
    /// The table has entries, and no packet comes to it: no GOTO_TABLE leads there from table 0 (OpenFlow 1.3.5, 5.1).
    Unreachable {
        table: u8,
    },
    /// The table has entries, and none of them is a table-miss flow entry (OpenFlow 1.3.5, 5.4).
    NoTableMiss {
        table: u8,
    },
    /// The entry goes on at a table without entries, where its packets are dropped (OpenFlow 1.3.5, 5.4).
    EmptyGoto {
        table: u8,
        place: usize,
        to: u8,
    },
    /// The entry sends to the ingress port that its match requires, where nothing leaves (OpenFlow 1.3.5, 4.5).
    IngressOutput {
        table: u8,
        place: usize,
        port: u32,
    },
    /// So many last actions of the entry's APPLY_ACTIONS change a packet that is neither sent nor looked at after them (OpenFlow 1.3.5, 5.12).
    UnseenActions {
        table: u8,
        place: usize,
        count: usize,
    },
    /// No entry and no group names the group (OpenFlow 1.3.5, 6.5).
    UnusedGroup {
        id: u32,
    },
    /// The group has no bucket: packets end there (OpenFlow 1.3.5, 5.6.1).
    NoBuckets {
        id: u32,
    },
}
