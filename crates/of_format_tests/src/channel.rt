//! Messages of the channel: rows alone.

pub(crate) mod rows;
