//! GROUP_MOD (OpenFlow 1.3.5, 7.3.4.2).
ghost use Rattle.std.specs.Prelude.{◌≡◌, ◌≤◌, IfOk, length, drop, slice_index};
ghost use Rattle.byteorder.specs.Endian.{big_number};
ghost use Rattle.of_wire.specs.Failures.{Reads};
ghost use Rattle.of_messages.specs.GroupMods.{command_of_group_mod, delete_of, group_mod_of, group_of, group_kind_of};
ghost use Rattle.of_messages.specs.Promised.{IsSoundGroupMod};

use crate::bucket_reading::read_buckets;
use crate::reading::rest_from;
use byteorder::{BigEndian, ByteOrder};
use of_groups::{Buckets, GroupKind};
use of_wire::ReadError;
use of_wire::codes::{OFPGMFC_BAD_COMMAND, OFPGMFC_BAD_TYPE, OFPGMFC_INVALID_GROUP};
use of_wire::limits::{OFPG_ALL, OFPG_MAX};
use std::alloc::Global;

/// A group as a GROUP_MOD asks for it.
#[derive(Drop)]
pub struct NewGroup {
    /// 0 to OFPG_MAX.
    pub id: u32,
    pub kind: GroupKind,
    pub buckets: Buckets,
}

/// A GROUP_MOD (OpenFlow 1.3.5, 7.3.4.2).
#[derive(Drop)]
pub enum GroupMod {
    Add(NewGroup),
    /// Gives the group of that number another type and other buckets.
    Modify(NewGroup),
    /// Of the group of a number from 0 to OFPG_MAX, or of all.
    Delete(Option<u32>),
}

#[derive(Clone, Copy, PartialEq, Eq)]
enum GroupCommand {
    Add,
    Modify,
    Delete,
}

#[tactic(auto, unfolding(crate::specs::GroupMods::command_of_group_mod))]
fn command_from(number: u16) -> Option<GroupCommand>
    ensures { result ≡ command_of_group_mod number }
{
    match number {
        0 => Some(GroupCommand::Add),
        1 => Some(GroupCommand::Modify),
        2 => Some(GroupCommand::Delete),
        _ => None,
    }
}

#[tactic(auto, unfolding(crate::specs::GroupMods::group_kind_of))]
fn kind_from(number: u8) -> Option<GroupKind>
    ensures { result ≡ group_kind_of number }
{
    match number {
        0 => Some(GroupKind::All),
        2 => Some(GroupKind::Indirect),
        3 => Some(GroupKind::FastFailover),
        _ => None,
    }
}

// The group that an ADD or a MODIFY asks for.
fn read_group(alloc: Global, message: &[u8]) -> Result<NewGroup, ReadError>
    requires { 16 ≤ length message.now }
    ensures reads { Reads result (group_of (slice_index message.now 10) (big_number 4 (drop 12 message.now)) (drop 16 message.now)) }
    ensures number { IfOk result (λ group. group.id ≤ 0xffffff00) }
{
    let id = BigEndian::read_u32(rest_from(message, 12));
    if id > OFPG_MAX {
        return Err(ReadError::Refused(OFPGMFC_INVALID_GROUP));
    }
    let Some(kind) = kind_from(message[10]) else {
        return Err(ReadError::Refused(OFPGMFC_BAD_TYPE));
    };
    let buckets = read_buckets(alloc, rest_from(message, 16))?;
    Ok(NewGroup { id, kind, buckets })
}

// The DELETE of the group of that number, or of all.
fn delete_from(number: u32) -> Result<GroupMod, ReadError>
    ensures reads { Reads result (delete_of number) }
    ensures sound { IfOk result IsSoundGroupMod }
{
    if number == OFPG_ALL {
        Ok(GroupMod::Delete(None))
    } else if number > OFPG_MAX {
        Err(ReadError::Refused(OFPGMFC_INVALID_GROUP))
    } else {
        Ok(GroupMod::Delete(Some(number)))
    }
}

pub(crate) fn read_group_mod(alloc: Global, message: &[u8]) -> Result<GroupMod, ReadError>
    requires { 16 ≤ length message.now }
    ensures reads { Reads result (group_mod_of message.now) }
    ensures sound { IfOk result IsSoundGroupMod }
{
    match command_from(BigEndian::read_u16(rest_from(message, 8))) {
        Some(GroupCommand::Add) => Ok(GroupMod::Add(read_group(alloc, message)?)),
        Some(GroupCommand::Modify) => Ok(GroupMod::Modify(read_group(alloc, message)?)),
        Some(GroupCommand::Delete) => delete_from(BigEndian::read_u32(rest_from(message, 12))),
        None => Err(ReadError::Refused(OFPGMFC_BAD_COMMAND)),
    }
}
