//! Why a change of groups is refused.
ghost use Rattle.std.specs.Prelude.{◌≡◌};
ghost use Rattle.of_groups.specs.Faults.{code_of};

use of_wire::Code;
use of_wire::codes::{
    OFPBAC_BAD_OUT_GROUP, OFPGMFC_BAD_WATCH, OFPGMFC_CHAINED_GROUP, OFPGMFC_GROUP_EXISTS,
    OFPGMFC_INVALID_GROUP, OFPGMFC_LOOP, OFPGMFC_OUT_OF_GROUPS, OFPGMFC_UNKNOWN_GROUP,
};
use thiserror::Error;

/// Why a group is not added, modified or deleted (OpenFlow 1.3.5, 6.5 and 7.4.4), in the order in which the faults are checked.
#[derive(Clone, Copy, Debug, PartialEq, Eq, Error)]
pub enum GroupFault {
    /// A bucket of FAST-FAILOVER watches what cannot be a port or a group, or nothing.
    #[error("a bucket watches what cannot be a port or a group, or nothing")]
    BadWatch,
    /// An INDIRECT group has no bucket, or more than one.
    #[error("an INDIRECT group has one bucket")]
    NotOneBucket,
    /// There is a group of that number already.
    #[error("there is a group of this number already")]
    Exists,
    /// There are 256 groups.
    #[error("there are 256 groups already")]
    Full,
    /// There is no group of that number.
    #[error("there is no group of this number")]
    Unknown,
    /// An action names a group that does not exist.
    #[error("an action names a group that does not exist")]
    AbsentGroup,
    /// A bucket of FAST-FAILOVER watches a group that does not exist.
    #[error("a bucket watches a group that does not exist")]
    AbsentWatch,
    /// A chain of groups would have more than three, or no end.
    #[error("a chain of groups would have more than three, or no end")]
    LongChain,
    /// Another group names it.
    #[error("another group names this one")]
    Named,
    #[error("out of memory")]
    NoMemory,
}

impl GroupFault {
    /// The error that an ERROR message carries; none where memory ran out.
    pub fn code(self) -> Option<Code>
        ensures { result ≡ code_of self }
    {
        let code = match self {
            GroupFault::NotOneBucket => OFPGMFC_INVALID_GROUP,
            GroupFault::Exists => OFPGMFC_GROUP_EXISTS,
            GroupFault::Full => OFPGMFC_OUT_OF_GROUPS,
            GroupFault::Unknown => OFPGMFC_UNKNOWN_GROUP,
            GroupFault::BadWatch | GroupFault::AbsentWatch => OFPGMFC_BAD_WATCH,
            GroupFault::AbsentGroup => OFPBAC_BAD_OUT_GROUP,
            GroupFault::LongChain => OFPGMFC_LOOP,
            GroupFault::Named => OFPGMFC_CHAINED_GROUP,
            GroupFault::NoMemory => return None,
        };
        Some(code)
    }
}
