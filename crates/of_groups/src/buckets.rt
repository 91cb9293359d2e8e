//! Lists of buckets.
ghost use Rattle.std.specs.Prelude.{◌≡◌, ◌<◌, ◌++◌, ◌∷◌, [], false, IsTrue, OnOk, OnErr, length, map};
ghost use Rattle.of_actions.specs.Supported.{are_supported};
ghost use Rattle.of_groups.specs.Buckets.{are_fit as may_stand, fresh, used_bucket, used_at};

use crate::bucket::Bucket;
use std::alloc::{AllocError, Global};
use std::marker::Model;

/// At most 16 buckets, in their order, each with actions that are valid in a group (OpenFlow 1.3.5, 5.6).
#[derive(Drop)]
pub struct Buckets {
    buckets: Vec<Bucket>,
}

impl Model for Buckets {
    ghost use Rattle.std.specs.Prelude.{List, IsTrue};
    ghost use Rattle.of_groups.specs.{declared.bucket.Bucket.Bucket, Buckets.are_fit};

    ghost Value = { List Bucket };

    ghost view = { λ b. b.buckets.items };

    ghost invariant = { λ b. IsTrue (are_fit b.buckets.items) };
}

impl Buckets {
    pub fn new(alloc: Global) -> Buckets
        ensures { result ≡ [] }
    {
        Buckets {
            buckets: Vec::new(alloc),
        }
    }

    /// One more bucket. A call that fails changes nothing.
    pub fn push(&mut self, bucket: Bucket) -> Result<(), AllocError>
        requires room { length self.old < 16 }
        requires served { IsTrue (are_supported false bucket.actions) }
        ensures ok { OnOk result (self.new ≡ self.old ++ bucket ∷ []) }
        ensures err { OnErr result (self.new ≡ self.old) }
    {
        self.buckets.push(bucket)?;
        Ok(())
    }

    pub fn as_slice(&self) -> &[Bucket]
        ensures buckets { result.now ≡ self.now }
        ensures fit { IsTrue (may_stand self.now) }
    {
        self.buckets.as_slice()
    }

    pub fn len(&self) -> usize
        ensures { result ≡ length self.now }
    {
        self.buckets.len()
    }

    /// Sets all counters to 0.
    pub(crate) fn reset(&mut self)
        ensures reset { self.new ≡ map fresh self.old }
        ensures fit { IsTrue (may_stand self.new) }
    {
        reset_all(&mut self.buckets);
    }

    /// A packet of this many bytes for the bucket at that place; where there is none, nothing changes.
    pub(crate) fn count(&mut self, place: u8, bytes: usize)
        ensures { self.new ≡ used_at place bytes self.old }
    {
        count_at(&mut self.buckets, place as usize, bytes);
    }
}

fn reset_one(bucket: &mut Bucket)
    ensures { bucket.new ≡ fresh bucket.old }
{
    bucket.packets = 0;
    bucket.bytes = 0;
}

// The counters of each bucket begin at 0 again.
fn reset_all(buckets: &mut [Bucket])
    ensures { buckets.new ≡ map fresh buckets.old }
{
    for bucket in buckets.iter_mut() {
        reset_one(bucket);
    }
}

fn count_at(buckets: &mut [Bucket], place: usize, bytes: usize)
    ensures { buckets.new ≡ used_at place bytes buckets.old }
{
    if place < buckets.len() {
        count_use(&mut buckets[place], bytes);
    }
}

fn count_use(bucket: &mut Bucket, bytes: usize)
    ensures { bucket.new ≡ used_bucket bytes bucket.old }
{
    bucket.packets = bucket.packets.wrapping_add(1);
    bucket.bytes = bucket.bytes.wrapping_add(bytes as u64);
}
