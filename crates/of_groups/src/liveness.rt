//! What is live, and which buckets of a group run (OpenFlow 1.3.5, 5.6.1).
ghost use Rattle.std.specs.Prelude.{◌≡◌, ◌≤◌, ℕ, Bool, length, position};
ghost use Rattle.std.specs.{List.range_with_len, Option.option_to_list};
ghost use Rattle.of_groups.specs.Liveness.{is_live_bucket as bucket_lives, is_live_kind, is_live_within as lives_within, is_live_group as group_lives, places_of as places_to_run, chosen};

use crate::bucket::Bucket;
use crate::chosen::Chosen;
use crate::group::{Group, GroupKind};
use crate::lookup::find_group;
use of_wire::limits::{LONGEST_CHAIN, OFPG_ANY, OFPP_ANY};

/// The ports of the switch, as groups see them.
pub trait LivePorts {
    ghost live: { Self → ℕ → Bool };

    /// Whether there is such a port, and it is neither down nor without a link (OpenFlow 1.3.5, 7.2.1).
    fn is_live(&self, port: u32) -> bool
        ensures { result ≡ live self.now port };
}

#[cycle(liveness)]
fn is_live_bucket<P: LivePorts>(groups: &[Group], ports: &P, levels: u8, bucket: &Bucket) -> bool
    ensures { result ≡ bucket_lives (P.live ports.now) (lives_within groups.now (P.live ports.now) levels) bucket.now }
{
    (bucket.watch_port != OFPP_ANY && ports.is_live(bucket.watch_port))
        || (bucket.watch_group != OFPG_ANY
            && is_live_within(groups, ports, levels, bucket.watch_group))
}

// Whether the group of that number is live, where the chains that it begins have at most `levels` groups.
#[cycle(liveness)]
fn is_live_within<P: LivePorts>(groups: &[Group], ports: &P, levels: u8, id: u32) -> bool
    ensures { result ≡ lives_within groups.now (P.live ports.now) levels id }
{
    if levels == 0 {
        return false;
    }
    match find_group(groups, id) {
        None => false,
        Some(group) => is_live_group(groups, ports, levels - 1, group),
    }
}

#[cycle(liveness)]
fn is_live_group<P: LivePorts>(groups: &[Group], ports: &P, levels: u8, group: &Group) -> bool
    ensures { result ≡ is_live_kind (P.live ports.now) (lives_within groups.now (P.live ports.now) levels) group.now.kind group.now.buckets }
{
    match group.kind {
        GroupKind::All => group.buckets.len() != 0,
        GroupKind::Indirect => true,
        GroupKind::FastFailover => {
            let buckets = group.buckets.as_slice();
            for bucket in buckets {
                if is_live_bucket(groups, ports, levels, bucket) {
                    return true;
                }
            }
            false
        }
    }
}

// The place of the first live bucket.
fn first_live<P: LivePorts>(groups: &[Group], ports: &P, buckets: &[Bucket]) -> Option<usize>
    ensures { result ≡ position (bucket_lives (P.live ports.now) (group_lives groups.now (P.live ports.now))) buckets.now }
{
    buckets.iter().position(|bucket| is_live_bucket(groups, ports, LONGEST_CHAIN, bucket))
}

// That place alone, or none.
fn first_place<P: LivePorts>(groups: &[Group], ports: &P, buckets: &[Bucket]) -> Chosen
    requires { length buckets.now ≤ 16 }
    ensures { result ≡ option_to_list (position (bucket_lives (P.live ports.now) (group_lives groups.now (P.live ports.now))) buckets.now) }
{
    let mut places = Chosen::new();
    if let Some(place) = first_live(groups, ports, buckets) {
        places.push(place as u8);
    }
    places
}

fn all_places(count: u8) -> Chosen
    requires { count ≤ 16 }
    ensures { result ≡ range_with_len 0 count }
{
    let mut places = Chosen::new();
    for place in 0..count {
        places.push(place);
    }
    places
}

// The places of the buckets of the group that run.
fn places_of<P: LivePorts>(groups: &[Group], ports: &P, group: &Group) -> Chosen
    ensures { result ≡ places_to_run (P.live ports.now) (group_lives groups.now (P.live ports.now)) group.now.kind group.now.buckets }
{
    let buckets = group.buckets.as_slice();
    match group.kind {
        GroupKind::All | GroupKind::Indirect => all_places(buckets.len() as u8),
        GroupKind::FastFailover => first_place(groups, ports, buckets),
    }
}

/// The buckets of the group of that number that run, where it exists.
pub(crate) fn choose<P: LivePorts>(groups: &[Group], ports: &P, id: u32) -> Option<Chosen>
    ensures { result ≡ chosen groups.now (P.live ports.now) id }
{
    match find_group(groups, id) {
        None => None,
        Some(group) => Some(places_of(groups, ports, group)),
    }
}
