//! Why a change of groups is refused (OpenFlow 1.3.5, 6.5).
ghost use Rattle.std.specs.{Prelude.◌≡◌, Prelude.◌≤◌, Prelude.length, List.list_any, Result.result_err};
ghost use Rattle.of_groups.specs.Faults.{fault_in, is_bad_watch, is_not_one, naming_fault, add_fault, modify_fault};
ghost use Rattle.of_groups.specs.{Buckets.is_badly_watched as watches_badly, Groups.with_group, Rounds.absent_with};

use crate::bucket::Bucket;
use crate::chains::makes_long;
use crate::group::{Group, GroupKind};
use crate::group_fault::GroupFault;
use crate::lookup::is_there;
use crate::naming::{NumberTest, any_sends, any_watches};
use of_actions::is_number;
use of_wire::limits::{MOST_GROUPS, OFPG_ANY, OFPG_MAX, OFPP_ANY};

/// Whether no group of a number exists, with the new one among them.
#[derive(Drop)]
struct IsAbsent<'a> {
    groups: &'a [Group],
    new: u32,
}

impl NumberTest for IsAbsent<'_> {
    ghost holds = { λ test. absent_with test.new test.groups.now };

    fn holds(&self, number: u32) -> bool {
        self.new != number && !is_there(self.groups, number)
    }
}

fn is_badly_watched(bucket: &Bucket) -> bool
    ensures { result ≡ watches_badly bucket.now }
{
    (bucket.watch_port != OFPP_ANY && !is_number(bucket.watch_port))
        || (bucket.watch_group != OFPG_ANY && bucket.watch_group > OFPG_MAX)
        || (bucket.watch_port == OFPP_ANY && bucket.watch_group == OFPG_ANY)
}

fn any_badly_watched(buckets: &[Bucket]) -> bool
    ensures { result ≡ list_any watches_badly buckets.now }
{
    buckets.iter().any(|bucket| is_badly_watched(bucket))
}

/// Whether the kind is FAST-FAILOVER, and a bucket watches what cannot be a port or a group, or nothing.
pub fn has_bad_watch(kind: GroupKind, buckets: &[Bucket]) -> bool
    ensures { result ≡ is_bad_watch kind buckets.now }
{
    match kind {
        GroupKind::All | GroupKind::Indirect => false,
        GroupKind::FastFailover => any_badly_watched(buckets),
    }
}

/// Whether the kind is INDIRECT, and there is no bucket, or more than one.
pub fn lacks_one_bucket(kind: GroupKind, buckets: &[Bucket]) -> bool
    ensures { result ≡ is_not_one kind buckets.now }
{
    match kind {
        GroupKind::Indirect => buckets.len() != 1,
        GroupKind::All | GroupKind::FastFailover => false,
    }
}

// What the group names, with itself among the groups.
fn check_names(groups: &[Group], new: &Group) -> Result<(), GroupFault>
    requires { length groups.now ≤ 256 }
    ensures fault { fault_in result ≡ naming_fault new.now (with_group new.now groups.now) }
    ensures exact { result_err result ≡ naming_fault new.now (with_group new.now groups.now) }
{
    let absent = IsAbsent {
        groups,
        new: new.id,
    };
    let buckets = new.buckets.as_slice();
    if any_sends(buckets, &absent) {
        return Err(GroupFault::AbsentGroup);
    }
    if any_watches(new.kind, buckets, &absent) {
        return Err(GroupFault::AbsentWatch);
    }
    if makes_long(groups, new) {
        return Err(GroupFault::LongChain);
    }
    Ok(())
}

/// Whether the group may be added.
pub(crate) fn check_add(groups: &[Group], new: &Group) -> Result<(), GroupFault>
    requires { length groups.now ≤ 256 }
    ensures fault { fault_in result ≡ add_fault new.now groups.now }
    ensures exact { result_err result ≡ add_fault new.now groups.now }
{
    let buckets = new.buckets.as_slice();
    if has_bad_watch(new.kind, buckets) {
        return Err(GroupFault::BadWatch);
    }
    if lacks_one_bucket(new.kind, buckets) {
        return Err(GroupFault::NotOneBucket);
    }
    if is_there(groups, new.id) {
        return Err(GroupFault::Exists);
    }
    if groups.len() >= MOST_GROUPS {
        return Err(GroupFault::Full);
    }
    check_names(groups, new)
}

/// Whether the group may replace the one of its number.
pub(crate) fn check_modify(groups: &[Group], new: &Group) -> Result<(), GroupFault>
    requires { length groups.now ≤ 256 }
    ensures fault { fault_in result ≡ modify_fault new.now groups.now }
    ensures exact { result_err result ≡ modify_fault new.now groups.now }
{
    let buckets = new.buckets.as_slice();
    if has_bad_watch(new.kind, buckets) {
        return Err(GroupFault::BadWatch);
    }
    if lacks_one_bucket(new.kind, buckets) {
        return Err(GroupFault::NotOneBucket);
    }
    if !is_there(groups, new.id) {
        return Err(GroupFault::Unknown);
    }
    check_names(groups, new)
}
