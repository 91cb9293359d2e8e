//! Groups in text.
ghost use Rattle.std.specs.Prelude.{◌≡◌, ◌++◌, true, false, IfOk, OnOk, map};
ghost use Rattle.std.specs.List.{flat_map};
ghost use Rattle.of_actions.specs.Supported.{are_supported};
ghost use Rattle.of_groups.specs.Buckets.{are_fit};
ghost use Rattle.of_text.specs.Groups.{bucket_of, bucket_rows, buckets_of, group_at, group_rows};
ghost use Rattle.of_text.specs.Views.{view_bucket, view_group};

use crate::entry::list_of;
use crate::flow::push_actions;
use of_actions::Action;
use of_groups::{Bucket, Buckets, Group};
use of_lines::{BucketHead, GroupHead, Row};
use std::alloc::{AllocError, Global};

/// A bucket of a group in text. Its actions need not be ones that a switch supports.
#[derive(Drop)]
pub struct BucketText {
    pub head: BucketHead,
    pub actions: Vec<Action>,
}

/// A group in text. It need not be one that a switch accepts.
#[derive(Drop)]
pub struct GroupText {
    pub head: GroupHead,
    /// Its buckets, in their order.
    pub buckets: Vec<BucketText>,
}

fn push_bucket(rows: &mut Vec<Row>, bucket: &BucketText) -> Result<(), AllocError>
    ensures { OnOk result (rows.new.items ≡ rows.old.items ++ bucket_rows (view_bucket bucket.now)) }
{
    rows.push(Row::Bucket(bucket.head))?;
    push_actions(rows, &bucket.actions)
}

fn push_buckets(rows: &mut Vec<Row>, buckets: &[BucketText]) -> Result<(), AllocError>
    ensures { OnOk result (rows.new.items ≡ rows.old.items ++ flat_map bucket_rows (map view_bucket buckets.now)) }
{
    for bucket in buckets {
        push_bucket(rows, bucket)?;
    }
    Ok(())
}

/// Appends the lines of a group.
pub fn push_group(rows: &mut Vec<Row>, group: &GroupText) -> Result<(), AllocError>
    ensures { OnOk result (rows.new.items ≡ rows.old.items ++ group_rows (view_group group.now)) }
{
    rows.push(Row::Group(group.head))?;
    push_buckets(rows, &group.buckets)
}

fn bucket_from(bucket: &BucketText) -> Result<Bucket, AllocError>
    requires { are_supported false bucket.now.actions.items ≡ true }
    ensures { IfOk result (λ b. b ≡ bucket_of (view_bucket bucket.now)) }
{
    Ok(Bucket {
        weight: bucket.head.weight,
        watch_port: bucket.head.watch_port,
        watch_group: bucket.head.watch_group,
        actions: list_of(&bucket.actions)?,
        packets: 0,
        bytes: 0,
    })
}

fn buckets_from(alloc: Global, buckets: &[BucketText]) -> Result<Buckets, AllocError>
    requires { are_fit (map bucket_of (map view_bucket buckets.now)) ≡ true }
    ensures { IfOk result (λ bs. bs ≡ map bucket_of (map view_bucket buckets.now)) }
{
    let mut made = Buckets::new(alloc);
    for bucket in buckets {
        made.push(bucket_from(bucket)?)?;
    }
    Ok(made)
}

impl GroupText {
    /// Its buckets, as a switch keeps them. Those of a group of a configuration are such (`Config::known`).
    pub fn to_buckets(&self) -> Result<Buckets, AllocError>
        requires { are_fit (buckets_of (view_group self.now)) ≡ true }
        ensures { IfOk result (λ bs. bs ≡ buckets_of (view_group self.now)) }
    {
        buckets_from(*self.buckets.allocator(), &self.buckets)
    }

    /// The group, as a switch keeps it that adds it at that moment in nanoseconds.
    pub fn to_group(&self, created: u64) -> Result<Group, AllocError>
        requires { are_fit (buckets_of (view_group self.now)) ≡ true }
        ensures { IfOk result (λ g. g ≡ group_at created (view_group self.now)) }
    {
        Ok(Group {
            id: self.head.id,
            kind: self.head.kind,
            buckets: self.to_buckets()?,
            packets: 0,
            bytes: 0,
            created,
        })
    }
}
