//! Why a flow is not added.

use thiserror::Error;

/// Why a flow is not added (OpenFlow 1.3.5, 6.4).
#[derive(Clone, Copy, Debug, PartialEq, Eq, Error)]
pub enum TableFault {
    /// There is no table of that number.
    #[error("there are tables 0 to 15")]
    BadTable,
    /// The flow asks to be checked, and an entry of its priority overlaps it.
    #[error("an entry of the same priority overlaps the flow")]
    Overlap,
    /// There are 4,096 entries, none of them of the flow's match and priority.
    #[error("the table has 4,096 entries already")]
    Full,
    #[error("no memory")]
    NoMemory,
}
