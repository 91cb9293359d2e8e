//! Why an entry won or did not.

use of_oxm::MatchField;

/// Why an entry won or did not (OpenFlow 1.3.5, 5.3). Entries are named by their index by age, from 0.
#[derive(Clone, Copy, PartialEq, Eq)]
pub enum Reason {
    /// It is the entry that the packet hits.
    Won,
    /// This is the first field of its match that the packet does not have, or has with a value that does not agree.
    Differs {
        field: MatchField,
        /// The packet's value; None where it lacks the field.
        found: Option<u128>,
    },
    /// It matches, and so does this entry, which wins: it has a higher priority.
    LowerPriority(usize),
    /// It matches, and so does this entry, which wins: it has the same priority and is older.
    Younger(usize),
}
