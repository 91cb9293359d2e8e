use crate::checks::{is_written, same};
use of_actions::Action;
use of_groups::{Bucket, GroupKind};
use of_messages::{NewGroup, PortMod, write_group_mod};
use std::alloc::Global;
use std::process::Abort;
use std::test::Fail;

pub(crate) mod rows;

/// A bucket with one action.
struct WantedBucket {
    weight: u16,
    watch_port: u32,
    watch_group: u32,
    action: Action,
}

const BUCKETS: &[WantedBucket] = &[
    WantedBucket {
        weight: 5,
        watch_port: 2,
        watch_group: 0xffff_ffff,
        action: Action::Output {
            port: 2,
            max_len: 0,
        },
    },
    WantedBucket {
        weight: 0,
        watch_port: 0xffff_ffff,
        watch_group: 7,
        action: Action::Group(7),
    },
];

/// Asserts what a bucket has.
fn has(rt: &impl Abort, found: &Bucket, wanted: &WantedBucket) {
    let watched = (found.weight, found.watch_port, found.watch_group);
    let wanted_to_watch = (wanted.weight, wanted.watch_port, wanted.watch_group);
    same(rt, "what a bucket watches", &watched, &wanted_to_watch);
    let actions = found.actions.as_slice();
    same(rt, "its actions", &actions, &[wanted.action].as_slice());
}

/// Asserts that a group has the two buckets.
fn has_buckets(rt: &impl Abort, group: &NewGroup) {
    same(rt, "buckets", &group.buckets.len(), &BUCKETS.len());
    for (found, wanted) in group.buckets.as_slice().iter().zip(BUCKETS) {
        has(rt, found, wanted);
    }
}

/// Asserts what the group has that an ADD adds, and how the ADD is written.
pub(crate) fn is_added(rt: &impl Abort, alloc: Global, group: &NewGroup) -> Result<(), Fail> {
    let group_and_kind = (group.id, group.kind);
    same(
        rt,
        "a group",
        &group_and_kind,
        &(0x10, GroupKind::FastFailover),
    );
    has_buckets(rt, group);
    let written = write_group_mod(alloc, 9, group)?;
    is_written(rt, alloc, written.as_slice(), rows::ADD)
}

pub(crate) const WANTED_PORT_MOD: PortMod = PortMod {
    port: 2,
    hw: [2, 0, 0, 0, 0, 0xa2],
    config: 1,
    mask: 0x65,
};
