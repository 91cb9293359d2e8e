//! Groups: their buckets, which of them run, and what a GROUP_MOD does to them (OpenFlow 1.3.5, 5.6, 5.8 and 6.5).
#![tactic(auto)]

mod bucket;
mod buckets;
mod chains;
mod changing;
mod checking;
mod chosen;
mod counting;
mod group;
mod group_fault;
mod groups;
mod laws;
mod listed;
mod liveness;
mod lookup;
mod naming;

pub use bucket::Bucket;
pub use buckets::Buckets;
pub use checking::{has_bad_watch, lacks_one_bucket};
pub use chosen::Chosen;
pub use group::{Group, GroupKind};
pub use group_fault::GroupFault;
pub use groups::Groups;
pub use laws::{chain_is_longest, liveness_is_by_kind};
pub use listed::{chain_lengths, sends_to_absent, watches_absent};
pub use liveness::LivePorts;
pub use naming::{names, sends_to};
