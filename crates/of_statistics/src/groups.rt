//! GROUP, GROUP_DESC and GROUP_FEATURES (OpenFlow 1.3.5, 7.3.5.9, 7.3.5.10 and 7.3.5.11).
ghost use Rattle.std.specs.Prelude.{◌≡◌, ◌<◌, ◌≤◌, ◌+◌, ◌*◌, ◌++◌, length, map, OnOk, IfOk};
ghost use Rattle.std.specs.List.{flat_map};
ghost use Rattle.of_table.specs.Tables.{tables_of};
ghost use Rattle.of_statistics.specs.Groups.{bucket_row, group_actions, group_bytes, group_description, group_description_bytes, group_features_body, group_features_bytes, group_fixed_part, group_row, group_statistics_rows, row_among, with_bit};
ghost use Rattle.of_statistics.specs.Replies.{with_row, with_rows};

use crate::references::references;
use crate::replies::{Replies, begun, sealed};
use crate::writing::put_duration;
use of_actions::{ACTIONS, ActionRow};
use of_classifier::Lookup;
use of_groups::{Bucket, Group, Groups};
use of_messages::{MessageBytes, write_buckets};
use of_table::FlowTables;
use of_wire::{put_u16, put_u32, put_u64};
use std::alloc::{AllocError, Global};

/// OFPMP_GROUP.
const GROUP: u16 = 6;

/// OFPMP_GROUP_DESC.
const GROUP_DESC: u16 = 7;

/// OFPMP_GROUP_FEATURES.
const GROUP_FEATURES: u16 = 8;

/// ALL, INDIRECT and FAST-FAILOVER; chains, which are checked; 256 groups at most of each type that there is.
const FEATURES: [u8; 24] = [
    0, 0, 0, 0x0d, 0, 0, 0, 0x0c, 0, 0, 1, 0, 0, 0, 0, 0, 0, 0, 1, 0, 0, 0, 1, 0,
];

// How long the row of a group is: 40 bytes, and 16 for each bucket.
fn size_of(group: &Group) -> usize
    ensures size { result ≡ 40 + 16 * length group.now.buckets }
    ensures short { result ≤ 296 }
{
    40 + 16 * group.buckets.as_slice().len()
}

// The length of the whole row, the group's number, how many refer to it, and its counters, 32 bytes.
fn put_front(row: &mut Vec<u8>, references: u32, group: &Group) -> Result<(), AllocError>
    ensures { OnOk result (row.new.items ≡ row.old.items ++ group_fixed_part references group.now) }
{
    put_u16(row, size_of(group) as u16)?;
    row.extend_from_slice(&[0; 2])?;
    put_u32(row, group.id)?;
    put_u32(row, references)?;
    row.extend_from_slice(&[0; 4])?;
    put_u64(row, group.packets)?;
    put_u64(row, group.bytes)
}

fn put_bucket(row: &mut Vec<u8>, bucket: &Bucket) -> Result<(), AllocError>
    ensures { OnOk result (row.new.items ≡ row.old.items ++ bucket_row bucket.now) }
{
    put_u64(row, bucket.packets)?;
    put_u64(row, bucket.bytes)
}

fn put_buckets(row: &mut Vec<u8>, buckets: &[Bucket]) -> Result<(), AllocError>
    ensures { OnOk result (row.new.items ≡ row.old.items ++ flat_map bucket_row buckets.now) }
{
    for bucket in buckets {
        put_bucket(row, bucket)?;
    }
    Ok(())
}

// What a group has counted.
fn stats_row(alloc: Global, now: u64, references: u32, group: &Group) -> Result<Vec<u8>, AllocError>
    ensures row { IfOk result (λ v. v.items ≡ group_row now references group.now) }
    ensures short { IfOk result (λ v. length v.items ≤ 65519) }
{
    let mut row = Vec::with_capacity(alloc, size_of(group))?;
    put_front(&mut row, references, group)?;
    put_duration(&mut row, now, group.created)?;
    put_buckets(&mut row, group.buckets.as_slice())?;
    Ok(row)
}

fn put_group<L: Lookup>(
    out: &mut Replies,
    alloc: Global,
    groups: &Groups,
    tables: &FlowTables<L>,
    group: &Group,
) -> Result<(), AllocError>
    ensures { OnOk result (out.new ≡ with_row out.old (row_among groups.now (tables_of tables.now) group.now)) }
{
    let references = references(tables, groups, group.id);
    out.push(&stats_row(alloc, tables.latest(), references, group)?)
}

fn put_groups<L: Lookup>(
    out: &mut Replies,
    alloc: Global,
    groups: &Groups,
    tables: &FlowTables<L>,
) -> Result<(), AllocError>
    ensures { OnOk result (out.new ≡ with_rows out.old (map (row_among groups.now (tables_of tables.now)) groups.now)) }
{
    for group in groups.groups() {
        put_group(out, alloc, groups, tables, group)?;
    }
    Ok(())
}

// The groups that are asked for.
fn put_asked<L: Lookup>(
    out: &mut Replies,
    alloc: Global,
    groups: &Groups,
    tables: &FlowTables<L>,
    which: Option<u32>,
) -> Result<(), AllocError>
    ensures { OnOk result (out.new ≡ with_rows out.old (group_statistics_rows which groups.now (tables_of tables.now))) }
{
    let Some(id) = which else {
        return put_groups(out, alloc, groups, tables);
    };
    match groups.group(id) {
        Some(group) => put_group(out, alloc, groups, tables, group),
        None => Ok(()),
    }
}

/// What a group has counted, or each group in ascending order, how many entries and groups send to it, and how long it has
/// existed (OpenFlow 1.3.5, 7.3.5.9). `None` is all groups; a group that does not exist has no row.
pub fn group_replies<L: Lookup>(
    alloc: Global,
    xid: u32,
    groups: &Groups,
    tables: &FlowTables<L>,
    which: Option<u32>,
) -> Result<Vec<MessageBytes>, AllocError>
    ensures { IfOk result (λ r. r.items ≡ group_bytes xid which groups.now (tables_of tables.now)) }
{
    let mut out = Replies::new(alloc, xid, GROUP)?;
    put_asked(&mut out, alloc, groups, tables, which)?;
    out.close()
}

// What a group is: 8 bytes, and its buckets.
fn description_row(alloc: Global, group: &Group) -> Result<Vec<u8>, AllocError>
    ensures row { IfOk result (λ v. v.items ≡ group_description group.now) }
    ensures short { IfOk result (λ v. length v.items ≤ 65519) }
{
    let buckets = write_buckets(alloc, &group.buckets)?;
    let size = 8 + buckets.len();
    let mut row = Vec::with_capacity(alloc, size)?;
    put_u16(&mut row, size as u16)?;
    row.extend_from_slice(&[group.kind.number(), 0])?;
    put_u32(&mut row, group.id)?;
    row.extend_from_slice(&buckets)?;
    Ok(row)
}

fn put_descriptions(out: &mut Replies, alloc: Global, groups: &[Group]) -> Result<(), AllocError>
    ensures { OnOk result (out.new ≡ with_rows out.old (map group_description groups.now)) }
{
    for group in groups {
        out.push(&description_row(alloc, group)?)?;
    }
    Ok(())
}

/// What each group is, in ascending order of number (OpenFlow 1.3.5, 7.3.5.10).
pub fn group_description_replies(
    alloc: Global,
    xid: u32,
    groups: &Groups,
) -> Result<Vec<MessageBytes>, AllocError>
    ensures { IfOk result (λ r. r.items ≡ group_description_bytes xid groups.now) }
{
    let mut out = Replies::new(alloc, xid, GROUP_DESC)?;
    put_descriptions(&mut out, alloc, groups.groups())?;
    out.close()
}

fn with_type(bits: u32, row: ActionRow) -> u32
    ensures { result ≡ with_bit bits row }
{
    bits | 1u32.wrapping_shl(u32::from(row.kind))
}

// A bit for the type of each action.
fn action_bits() -> u32
    ensures { result ≡ group_actions }
{
    ACTIONS.iter().fold(0, |bits, row| with_type(bits, *row))
}

#[tactic(auto, unfolding(crate::specs::Groups::group_features_body))]
fn put_features(out: &mut Vec<u8>) -> Result<(), AllocError>
    ensures { OnOk result (out.new.items ≡ out.old.items ++ group_features_body) }
{
    let actions = action_bits();
    out.extend_from_slice(&FEATURES)?;
    put_u32(out, actions)?;
    put_u32(out, 0)?;
    put_u32(out, actions)?;
    put_u32(out, actions)
}

/// Which groups there can be (OpenFlow 1.3.5, 7.3.5.11).
pub fn group_features_reply(alloc: Global, xid: u32) -> Result<MessageBytes, AllocError>
    ensures { IfOk result (λ r. r ≡ group_features_bytes xid) }
{
    let mut out = begun(alloc)?;
    put_features(&mut out)?;
    Ok(sealed(out, xid, GROUP_FEATURES, 0))
}
