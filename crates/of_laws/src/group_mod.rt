//! GROUP_MOD (OpenFlow 1.3.5, 7.3.4.2).
ghost use Rattle.std.specs.Prelude.{◌≡◌, ◌+◌, ◌++◌, true, length, IfOk, OnOk};
ghost use Rattle.std.specs.List.{list_all};
ghost use Rattle.of_groups.specs.Buckets.{are_fit};
ghost use Rattle.of_messages.specs.{CanonicalGroups.canonical_buckets, CanonicalGroups.has_numbers, Written.message_header, declared.group_mod.GroupMod.TheVariants.Delete};
ghost use Rattle.of_messages.specs.declared.message.Message.TheVariants.{GroupMod as IsGroupMod};
ghost use Rattle.of_laws.specs.{Cells.canonical_cells, Cells.FitsCells, Grammar.group_cells, Sound.is_sound, Written.IsWritten};

use crate::header::begin;
use of_formats::messages::GROUP_MOD;
use of_messages::{GroupMod, NewGroup, write_buckets};
use of_wire::limits::OFPG_ALL;
use of_wire::{Bytes, put_u16, put_u32};
use std::alloc::{AllocError, Global};

// The fields before the buckets, 8 bytes.
fn put_group(out: &mut Vec<u8>, command: u16, group: &NewGroup) -> Result<(), AllocError>
    ensures text { OnOk result (out.new.items ≡ out.old.items ++ canonical_cells (group_cells command group.now)) }
    ensures fits { OnOk result (FitsCells (group_cells command group.now)) }
{
    put_u16(out, command)?;
    out.extend_from_slice(&[group.kind.number(), 0])?;
    put_u32(out, group.id)
}

// The GROUP_MOD of that command for a group.
fn write_group(alloc: Global, xid: u32, command: u16, group: &NewGroup) -> Result<Bytes, AllocError>
    ensures text { let buckets = canonical_buckets group.now.buckets in
        IfOk result (λ bytes. bytes ≡ message_header GROUP_MOD (8 + (8 + length buckets)) xid ++ (canonical_cells (group_cells command group.now) ++ buckets)) }
    ensures fits { OnOk result (FitsCells (group_cells command group.now)) }
    ensures numbers { OnOk result (list_all has_numbers group.now.buckets ≡ true) }
    ensures fit { OnOk result (are_fit group.now.buckets ≡ true) }
{
    let buckets = write_buckets(alloc, &group.buckets)?;
    let mut out = begin(alloc, GROUP_MOD, 8 + buckets.len(), xid)?;
    put_group(&mut out, command, group)?;
    out.extend_from_slice(&buckets)?;
    Ok(Bytes::new(out))
}

// The DELETE of a group, or of all.
fn write_delete(alloc: Global, xid: u32, which: Option<u32>) -> Result<Bytes, AllocError>
    requires { is_sound (IsGroupMod (Delete which)) ≡ true }
    ensures { IfOk result (IsWritten xid (IsGroupMod (Delete which))) }
{
    let mut out = begin(alloc, GROUP_MOD, 8, xid)?;
    put_u16(&mut out, 2)?;
    put_u16(&mut out, 0)?;
    put_u32(&mut out, which.unwrap_or(OFPG_ALL))?;
    Ok(Bytes::new(out))
}

/// A GROUP_MOD (OpenFlow 1.3.5, 7.3.4.2).
pub(crate) fn write_group_request(
    alloc: Global,
    xid: u32,
    m: &GroupMod,
) -> Result<Bytes, AllocError>
    requires { is_sound (IsGroupMod m.now) ≡ true }
    ensures { IfOk result (IsWritten xid (IsGroupMod m.now)) }
{
    match m {
        GroupMod::Add(group) => write_group(alloc, xid, 0, group),
        GroupMod::Modify(group) => write_group(alloc, xid, 1, group),
        GroupMod::Delete(which) => write_delete(alloc, xid, *which),
    }
}
