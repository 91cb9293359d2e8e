//! Frames rewritten in place, with their checksums.
#![tactic(auto)]

mod bytes;
mod checksum;
mod frame;
mod laws;
mod renewal;
mod rewrite;
mod sums;
mod tags;
mod writing;

pub use frame::{Frame, Ttl};
pub use laws::{known_stays_right, stays_right, views_follow, views_tell_lookups};
