//! The bytes of a GROUP_MOD that adds a group, as a controller sends it.
ghost use Rattle.std.specs.Prelude.{◌≡◌, ◌≤◌, ◌++◌, true, IsTrue, length, Ok, OnOk, IfOk};
ghost use Rattle.std.specs.List.{list_all};
ghost use Rattle.of_groups.specs.Buckets.{are_fit};
ghost use Rattle.of_messages.specs.CanonicalGroups.{as_written, canonical_bucket, canonical_buckets, group_add_bytes, group_add_fixed_part, has_numbers};
ghost use Rattle.of_messages.specs.{Messages.message_of, declared.message.Message.TheVariants.GroupMod as IsGroupMod, declared.group_mod.GroupMod.TheVariants.Add};

use crate::group_mod::NewGroup;
use crate::writing::put_header;
use of_actions::write_actions;
use of_formats::messages::GROUP_MOD;
use of_groups::{Bucket, Buckets};
use of_wire::{Bytes, put_u16, put_u32};
use std::alloc::{AllocError, Global};

#[tactic(auto, unfolding(crate::specs::CanonicalGroups::has_numbers))]
fn put_bucket(out: &mut Vec<u8>, alloc: Global, bucket: &Bucket) -> Result<(), AllocError>
    ensures text { OnOk result (out.new.items ≡ out.old.items ++ canonical_bucket bucket.now) }
    ensures numbers { OnOk result (has_numbers bucket.now ≡ true) }
{
    let actions = write_actions(alloc, &bucket.actions)?;
    put_u16(out, (16 + actions.len()) as u16)?;
    put_u16(out, bucket.weight)?;
    put_u32(out, bucket.watch_port)?;
    put_u32(out, bucket.watch_group)?;
    out.extend_from_slice(&[0; 4])?;
    out.extend_from_slice(&actions)
}

fn put_buckets(out: &mut Vec<u8>, alloc: Global, buckets: &[Bucket]) -> Result<(), AllocError>
    ensures text { OnOk result (out.new.items ≡ out.old.items ++ canonical_buckets buckets.now) }
    ensures numbers { OnOk result (list_all has_numbers buckets.now ≡ true) }
{
    for bucket in buckets {
        put_bucket(out, alloc, bucket)?;
    }
    Ok(())
}

/// The bytes of buckets (OpenFlow 1.3.5, 7.3.4.2), in the one encoding that is written: 24,832 at most. What is counted in
/// them is not part of it.
#[tactic(auto, using(crate::proofs::BucketsWritten::buckets_short))]
pub fn write_buckets(alloc: Global, buckets: &Buckets) -> Result<Vec<u8>, AllocError>
    ensures canonical { IfOk result (λ v. v.items ≡ canonical_buckets buckets.now) }
    ensures short { IfOk result (λ v. length v.items ≤ 24832) }
    ensures numbers { OnOk result (list_all has_numbers buckets.now ≡ true) }
    ensures fit { IsTrue (are_fit buckets.now) }
{
    let mut out = Vec::new(alloc);
    put_buckets(&mut out, alloc, buckets.as_slice())?;
    Ok(out)
}

// The fields before the buckets, 8 bytes.
fn put_front(out: &mut Vec<u8>, group: &NewGroup) -> Result<(), AllocError>
    ensures { OnOk result (out.new.items ≡ out.old.items ++ group_add_fixed_part group.now) }
{
    out.extend_from_slice(&[0, 0])?;
    out.extend_from_slice(&[group.kind.number(), 0])?;
    put_u32(out, group.id)
}

/// The GROUP_MOD that adds a group (OpenFlow 1.3.5, 7.3.4.2), its buckets in the one encoding that is written. What is
/// counted in them is not part of it.
pub fn write_group_mod(alloc: Global, xid: u32, group: &NewGroup) -> Result<Bytes, AllocError>
    ensures canonical { IfOk result (λ bytes. bytes ≡ group_add_bytes xid group.now) }
    // It is read again, if a group may have its number.
    ensures read_again { group.now.id ≤ 0xffffff00 → IfOk result (λ bytes. message_of bytes ≡ Ok (IsGroupMod (Add (as_written group.now)))) }
{
    let buckets = write_buckets(alloc, &group.buckets)?;
    let mut out = Vec::new(alloc);
    put_header(&mut out, GROUP_MOD, 16 + buckets.len(), xid)?;
    put_front(&mut out, group)?;
    out.extend_from_slice(&buckets)?;
    Ok(Bytes::new(out))
}
