//! Groups as lines that `ovs-ofctl add-groups` reads (ovs-ofctl(8)).
ghost use Rattle.std.specs.{Prelude.◌≡◌, Prelude.◌++◌, Prelude.OnOk, Prelude.map, List.flat_map};
ghost use Rattle.of_text.specs.Views.{view_bucket, view_group, view_groups};
ghost use Rattle.of_ovs_text.specs.Groups.{bucket_in_words, group_line, kind_in_words};

use crate::actions::push_actions;
use crate::parts::{push_named, push_unless};
use of_groups::GroupKind;
use of_text::{BucketText, GroupText};
use of_wire::limits::{OFPG_ANY, OFPP_ANY};
use std::alloc::AllocError;

fn push_kind(out: &mut Vec<u8>, kind: GroupKind) -> Result<(), AllocError>
    ensures { OnOk result (out.new.items ≡ out.old.items ++ kind_in_words kind) }
{
    match kind {
        GroupKind::All => out.extend_from_slice(b"all"),
        GroupKind::Indirect => out.extend_from_slice(b"indirect"),
        GroupKind::FastFailover => out.extend_from_slice(b"ff"),
    }
}

#[tactic(auto, unfolding(crate::specs::Groups::bucket_in_words))]
fn push_bucket(out: &mut Vec<u8>, bucket: &BucketText) -> Result<(), AllocError>
    ensures { OnOk result (out.new.items ≡ out.old.items ++ bucket_in_words (view_bucket bucket.now)) }
{
    out.extend_from_slice(b",bucket=")?;
    push_unless(out, b"weight:", 0, u32::from(bucket.head.weight))?;
    push_unless(out, b"watch_port:", OFPP_ANY, bucket.head.watch_port)?;
    push_unless(out, b"watch_group:", OFPG_ANY, bucket.head.watch_group)?;
    out.extend_from_slice(b"actions=")?;
    push_actions(out, &bucket.actions)
}

fn push_bucket_words(out: &mut Vec<u8>, buckets: &[BucketText]) -> Result<(), AllocError>
    ensures { OnOk result (out.new.items ≡ out.old.items ++ flat_map bucket_in_words (map view_bucket buckets.now)) }
{
    for bucket in buckets {
        push_bucket(out, bucket)?;
    }
    Ok(())
}

// Appends the line of a group.
#[tactic(auto, unfolding(crate::specs::Groups::group_line))]
fn push_group(out: &mut Vec<u8>, group: &GroupText) -> Result<(), AllocError>
    ensures { OnOk result (out.new.items ≡ out.old.items ++ group_line (view_group group.now)) }
{
    push_named(out, b"group_id=", u128::from(group.head.id))?;
    out.extend_from_slice(b",type=")?;
    push_kind(out, group.head.kind)?;
    push_bucket_words(out, &group.buckets)?;
    out.extend_from_slice(b"\n")
}

/// Appends a line for each group.
pub fn push_group_lines(out: &mut Vec<u8>, groups: &[GroupText]) -> Result<(), AllocError>
    ensures { OnOk result (out.new.items ≡ out.old.items ++ flat_map group_line (view_groups groups.now)) }
{
    for group in groups {
        push_group(out, group)?;
    }
    Ok(())
}
