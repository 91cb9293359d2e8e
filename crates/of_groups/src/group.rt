//! Groups.
ghost use Rattle.std.specs.Prelude.{◌≡◌};
ghost use Rattle.of_groups.specs.Groups.{kind_number};

use crate::buckets::Buckets;

/// The type of a group (OpenFlow 1.3.5, 5.6.1).
#[derive(Clone, Copy, Debug, PartialEq, Eq)]
pub enum GroupKind {
    /// OFPGT_ALL: each bucket runs.
    All,
    /// OFPGT_INDIRECT: its one bucket runs.
    Indirect,
    /// OFPGT_FF: the first live bucket runs.
    FastFailover,
}

impl GroupKind {
    /// Its number (OpenFlow 1.3.5, 7.3.4.2).
    pub fn number(self) -> u8
        ensures { result ≡ kind_number self }
    {
        match self {
            GroupKind::All => 0,
            GroupKind::Indirect => 2,
            GroupKind::FastFailover => 3,
        }
    }
}

/// A group (OpenFlow 1.3.5, 5.6).
#[derive(Drop)]
pub struct Group {
    /// Its number.
    pub id: u32,
    pub kind: GroupKind,
    pub buckets: Buckets,
    /// How many packets were sent to it (OpenFlow 1.3.5, 5.8). It wraps.
    pub packets: u64,
    /// How many bytes they had. It wraps.
    pub bytes: u64,
    /// The moment at which it was added, in nanoseconds.
    pub created: u64,
}
