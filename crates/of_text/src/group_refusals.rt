//! The refusals of a group.
ghost use Rattle.std.specs.Prelude.{◌≡◌, ◌++◌, ◌∷◌, [], ℕ, List, true, false, length, nat_le, nat_lt, not, map, take, IfOk, slice_index_or};
ghost use Rattle.std.specs.List.{AllByRecursion, flat_map};
ghost use Rattle.of_wire.specs.{declared.code.Code.Code as ACode, Refusals.first_of};
ghost use Rattle.of_groups.specs.{Buckets.any_sends, Groups.any_watches, Faults.is_absent, Faults.is_bad_watch, Faults.is_not_one};
ghost use Rattle.of_text.specs.Refusals.{all_there, buckets_refusals as refusals_of_buckets, counted_as, group_refusals, list_refusals, naming_refusals};
ghost use Rattle.of_text.specs.{Groups.TextGroup, Groups.bucket_rows, Groups.group_rows, Groups.rows_of_groups, First.refused_group, Judging.codes_from, Judging.kept_refusals, Judging.told_refusals};
ghost use Rattle.of_text.specs.Views.{view_bucket, view_group, view_groups};
ghost use Rattle.of_lines.specs.Rows.{Fits};

use crate::group::{BucketText, GroupText};
use crate::refusals::{applied, first, list_refusal};
use of_groups::{
    Buckets, Group, chain_lengths, has_bad_watch, lacks_one_bucket, sends_to_absent, watches_absent,
};
use of_oxm::Code;
use of_wire::codes::{
    OFPBAC_BAD_OUT_GROUP, OFPGMFC_BAD_WATCH, OFPGMFC_INVALID_GROUP, OFPGMFC_LOOP,
    OFPGMFC_OUT_OF_BUCKETS, OFPGMFC_OUT_OF_GROUPS,
};
use of_wire::limits::OFPG_MAX;
use std::alloc::{AllocError, Global};

fn bucket_refusal(bucket: &BucketText) -> Option<Code>
    ensures { result ≡ first_of (list_refusals (view_bucket bucket.now).actions) }
{
    list_refusal(&bucket.actions)
}

#[tactic(auto, using(crate::proofs::RefusalLemmas::first_append, crate::proofs::RefusalLemmas::flat_next))]
fn each_refusal(buckets: &[BucketText]) -> Option<Code>
    ensures { result ≡ first_of (flat_map (λ b. list_refusals (view_bucket b).actions) buckets.now) }
{
    for bucket in buckets {
        if let Some(code) = bucket_refusal(bucket) {
            return Some(code);
        }
    }
    None
}

#[tactic(auto, using(std::proofs::lemmas::List::take_all))]
fn first_buckets(buckets: &[BucketText]) -> &[BucketText]
    ensures { result.now ≡ take 16 buckets.now }
{
    if buckets.len() < 16 {
        return buckets;
    }
    let (first, _) = buckets.split_at(16);
    first
}

fn buckets_refusal(buckets: &[BucketText]) -> Option<Code>
    ensures { result ≡ first_of (refusals_of_buckets (map view_bucket buckets.now)) }
{
    let each = each_refusal(first_buckets(buckets));
    let many = applied(16 < buckets.len(), OFPGMFC_OUT_OF_BUCKETS);
    first(each, many)
}

// The refusal of the message that would add the group.
fn told_refusal(group: &GroupText) -> Option<Code>
    ensures { result ≡ first_of (told_refusals (view_group group.now)) }
{
    if OFPG_MAX < group.head.id {
        return Some(OFPGMFC_INVALID_GROUP);
    }
    buckets_refusal(&group.buckets)
}

// The refusal of a group after so many others, apart from what it names.
fn kept_refusal(place: usize, group: &Group) -> Option<Code>
    ensures { result ≡ first_of (kept_refusals place group.now) }
{
    let buckets = group.buckets.as_slice();
    if has_bad_watch(group.kind, buckets) {
        Some(OFPGMFC_BAD_WATCH)
    } else if lacks_one_bucket(group.kind, buckets) {
        Some(OFPGMFC_INVALID_GROUP)
    } else if 256 <= place {
        Some(OFPGMFC_OUT_OF_GROUPS)
    } else {
        None
    }
}

// The group without buckets.
fn bare(alloc: Global, group: &GroupText) -> Group
    ensures { result ≡ record { id = group.now.head.id; kind = group.now.head.kind; buckets = []; packets = 0; bytes = 0; created = 0 } }
{
    Group {
        id: group.head.id,
        kind: group.head.kind,
        buckets: Buckets::new(alloc),
        packets: 0,
        bytes: 0,
        created: 0,
    }
}

// The group as it counts for the others, and its refusal by itself.
fn judge(
    alloc: Global,
    place: usize,
    group: &GroupText,
) -> Result<(Group, Option<Code>), AllocError>
    requires { AllByRecursion Fits (group_rows (view_group group.now)) }
    ensures there { IfOk result (λ r. r.0 ≡ counted_as place (view_group group.now)) }
    ensures code { IfOk result (λ r. r.1 ≡ first_of (group_refusals place (view_group group.now))) }
{
    if let Some(code) = told_refusal(group) {
        return Ok((bare(alloc, group), Some(code)));
    }
    let made = group.to_group(0)?;
    if let Some(code) = kept_refusal(place, &made) {
        return Ok((bare(alloc, group), Some(code)));
    }
    Ok((made, None))
}

// Groups as they count for each other, and the refusal of each by itself.
#[derive(Drop)]
struct Judged {
    there: Vec<Group>,
    codes: Vec<Option<Code>>,
}

fn judge_all(alloc: Global, groups: &[GroupText]) -> Result<Judged, AllocError>
    requires { AllByRecursion Fits (rows_of_groups (view_groups groups.now)) }
    ensures there { IfOk result (λ j. j.there.items ≡ all_there (view_groups groups.now)) }
    ensures codes { IfOk result (λ j. j.codes.items ≡ codes_from 0 (view_groups groups.now)) }
{
    let mut there = Vec::new(alloc);
    let mut codes = Vec::new(alloc);
    for group in groups {
        let (counted, code) = judge(alloc, there.len(), group)?;
        there.push(counted)?;
        codes.push(code)?;
    }
    Ok(Judged { there, codes })
}

// The refusal of a group that names others, of which these exist, and that begins a chain of this length.
fn naming_refusal(there: &[Group], group: &Group, length: u8) -> Option<Code>
    ensures { result ≡ first_of ((any_sends (is_absent there.now) group.now.buckets, OFPBAC_BAD_OUT_GROUP) ∷
        (any_watches (is_absent there.now) group.now.kind group.now.buckets, OFPGMFC_BAD_WATCH) ∷ (nat_lt 3 length, OFPGMFC_LOOP) ∷ []) }
{
    if sends_to_absent(there, group) {
        Some(OFPBAC_BAD_OUT_GROUP)
    } else if watches_absent(there, group) {
        Some(OFPGMFC_BAD_WATCH)
    } else if 3 < length {
        Some(OFPGMFC_LOOP)
    } else {
        None
    }
}

/// The first group that is refused, by its place, and its first refusal.
pub fn refused_among(
    alloc: Global,
    groups: &[GroupText],
) -> Result<Option<(usize, Code)>, AllocError>
    requires { AllByRecursion Fits (rows_of_groups (view_groups groups.now)) }
    ensures { IfOk result (λ r. r ≡ refused_group (all_there (view_groups groups.now)) 0 (view_groups groups.now)) }
{
    let judged = judge_all(alloc, groups)?;
    let lengths = chain_lengths(alloc, &judged.there)?;
    for place in 0..groups.len() {
        let named = naming_refusal(&judged.there, &judged.there[place], lengths[place]);
        if let Some(code) = first(judged.codes[place], named) {
            return Ok(Some((place, code)));
        }
    }
    Ok(None)
}
