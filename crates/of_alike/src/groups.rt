//! Whether the groups of two switches do the same.
ghost use Rattle.std.specs.Prelude.{◌≡◌, ◌↔◌, IsTrue, map};
ghost use Rattle.of_alike.specs.SameGroups.{SameGroups, bucket_key, group_key};

use crate::tables::are_same_actions;
use of_groups::{Bucket, Group};

fn is_same_bucket(a: &Bucket, b: &Bucket) -> bool
    ensures { IsTrue result ↔ (bucket_key a.now ≡ bucket_key b.now) }
{
    a.watch_port == b.watch_port
        && a.watch_group == b.watch_group
        && are_same_actions(a.actions.as_slice(), b.actions.as_slice())
}

fn are_same_buckets(a: &[Bucket], b: &[Bucket]) -> bool
    ensures { IsTrue result ↔ (map bucket_key a.now ≡ map bucket_key b.now) }
{
    let mut others = b.iter();
    for bucket in a {
        match others.next() {
            Some(other) if is_same_bucket(bucket, other) => {}
            _ => return false,
        }
    }
    others.next().is_none()
}

fn is_same_group(a: &Group, b: &Group) -> bool
    ensures { IsTrue result ↔ (group_key a.now ≡ group_key b.now) }
{
    a.id == b.id && a.kind == b.kind && are_same_buckets(a.buckets.as_slice(), b.buckets.as_slice())
}

/// Whether the groups have the same numbers, and each does the same with packets (OpenFlow 1.3.5, 5.6).
pub fn have_same_groups(a: &[Group], b: &[Group]) -> bool
    ensures { IsTrue result ↔ SameGroups a.now b.now }
{
    let mut others = b.iter();
    for group in a {
        match others.next() {
            Some(other) if is_same_group(group, other) => {}
            _ => return false,
        }
    }
    others.next().is_none()
}
