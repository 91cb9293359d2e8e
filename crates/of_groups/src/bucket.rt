//! Buckets of groups.

use of_actions::ActionList;

/// A bucket of a group (OpenFlow 1.3.5, 5.6 and 7.3.4.2).
#[derive(Drop)]
pub struct Bucket {
    /// Kept and ignored: no type of group here chooses by weight.
    pub weight: u16,
    /// The port whose liveness is the bucket's; 0xffffffff (OFPP_ANY) for none. Only FAST-FAILOVER reads it.
    pub watch_port: u32,
    /// The group whose liveness is the bucket's; 0xffffffff (OFPG_ANY) for none. Only FAST-FAILOVER reads it.
    pub watch_group: u32,
    pub actions: ActionList,
    /// How many packets it ran for (OpenFlow 1.3.5, 5.8). It wraps.
    pub packets: u64,
    /// How many bytes they had. It wraps.
    pub bytes: u64,
}
