//! Entries that are about to be removed.

use crate::effect::Effects;
use of_table::Cause;

/// A removal of entries, with its notices, which are ready to be sent. Doing it needs no memory.
#[derive(Drop)]
pub struct Removal {
    pub notices: Effects,
    pub cause: Cause,
}
