//! What is found about two switches, as JSON.
ghost use Rattle.std.specs.Prelude.{◌≡◌, ◌++◌, codes, IfOk, OnOk};
ghost use Rattle.of_json.specs.{ChangesInJson.changes_member, Parts.listed, Strings.array_member};
ghost use Rattle.of_diff_report.specs.DiffJson.{also_member, also_object, begin_at, both_hits_members, diff_head, diff_json, difference_members, difference_object, differences_member, limits_member, other_ports_json, region_members, region_string, regions_member, same_in_json, side_hits_members, undecided_member, undecided_string, why_name};

use crate::hits::{DiffSide, FileFlows, SideHits, push_changed_member, push_hits_member};
use crate::region::{DescribedSet, lacking, push_set};
use crate::reserved::{Limits, Reserved};
use crate::telling::{Told, ToldUndecided};
use crate::words::is_same_with;
use of_alike::Where;
use of_classifier::Lookup;
use of_diff::{Difference, Differences, Why};
use of_json::{
    begin_array, push_array_member, push_bytes_member, push_changes_member, push_document_head,
    push_items_member, push_listed, push_number_member, push_quoted, push_string,
    push_string_member, push_truth,
};
use of_machine::Item;
use of_values::Part::{Number, Text};
use of_values::{push_decimal, put};
use std::alloc::{AllocError, Global};

// ---- members: % is the place of a part

pub const SAME: [u8; 25] = *br#","same":%,"ports_differ":"#;

pub const NO_LIMITS: [u8; 21] = *br#","miss_send_len":null"#;

pub const BOTH_LIMITS: [u8; 22] = *br#","miss_send_len":[%,%]"#;

pub const NOTHING: [u8; 55] = *br#","differences":[],"undecided":[],"undecided_regions":[]"#;

pub const AT_PORT: [u8; 7] = *br#"{"at":%"#;

pub const AT_CONTROLLER: [u8; 18] = *br#"{"at":"controller""#;

pub const ALSO_SETS: [u8; 10] = *br#","sets":%}"#;

pub const OF_REGION: [u8; 57] = *br#","region_ttl_from":%,"region_ttl_to":%,"region_without":%"#;

// ---- a difference

// Appends the first member of an object: where something else leaves.
fn begin_with_place(out: &mut Vec<u8>, at: Where) -> Result<(), AllocError>
    ensures { OnOk result (out.new.items ≡ out.old.items ++ begin_at at) }
{
    match at {
        Where::Port(port) => put(out, &AT_PORT, &[Number(u128::from(port))]),
        Where::Controller => out.extend_from_slice(&AT_CONTROLLER),
    }
}

// Appends what changed in what leaves each switch.
fn push_both_changes(
    alloc: Global,
    out: &mut Vec<u8>,
    came: &[u8],
    first: &[Item],
    second: &[Item],
) -> Result<(), AllocError>
    ensures { OnOk result (out.new.items ≡ out.old.items ++ changes_member (codes "first_changes") came.now first.now
        ++ changes_member (codes "second_changes") came.now second.now) }
{
    push_changes_member(alloc, out, b"first_changes", came, first)?;
    push_changes_member(alloc, out, b"second_changes", came, second)
}

#[tactic(auto, unfolding(crate::specs::DiffJson::difference_members))]
fn push_difference_members(
    alloc: Global,
    out: &mut Vec<u8>,
    difference: &Difference,
) -> Result<(), AllocError>
    ensures { OnOk result (out.new.items ≡ out.old.items ++ difference_members difference.now) }
{
    let (frame, first, second) = (&difference.frame, &difference.first, &difference.second);
    begin_with_place(out, difference.at)?;
    push_number_member(out, b"in_port", u128::from(difference.in_port))?;
    push_bytes_member(alloc, out, b"frame", frame)?;
    push_items_member(alloc, out, b"first", first)?;
    push_items_member(alloc, out, b"second", second)?;
    push_both_changes(alloc, out, frame, first, second)?;
    push_number_member(out, b"sets", difference.sets.len() as u128)
}

// Appends the entries that a frame hits at a switch, and which of them changed.
#[tactic(auto, unfolding(crate::specs::DiffJson::side_hits_members))]
fn push_side_hits(
    out: &mut Vec<u8>,
    entries: &[u8],
    changed: &[u8],
    flows: &FileFlows<'_>,
    hits: &SideHits,
) -> Result<(), AllocError>
    ensures { OnOk result (out.new.items ≡ out.old.items ++ side_hits_members entries.now changed.now flows.now hits.now) }
{
    push_hits_member(out, entries, flows, &hits.all)?;
    push_changed_member(out, changed, &hits.all)
}

// The same for both switches.
#[tactic(auto, unfolding(crate::specs::DiffJson::both_hits_members))]
fn push_both_hits(
    out: &mut Vec<u8>,
    first: &FileFlows<'_>,
    second: &FileFlows<'_>,
    told: &Told<'_>,
) -> Result<(), AllocError>
    ensures { OnOk result (out.new.items ≡ out.old.items ++ both_hits_members first.now second.now told.now) }
{
    push_side_hits(out, b"first_entries", b"first_changed", first, &told.first)?;
    push_side_hits(
        out,
        b"second_entries",
        b"second_changed",
        second,
        &told.second,
    )
}

// Appends the region of a set of frames, if there are words for it.
#[tactic(auto, unfolding(crate::specs::DiffJson::region_members))]
fn push_region_members(
    out: &mut Vec<u8>,
    region: &Option<DescribedSet<'_>>,
) -> Result<(), AllocError>
    ensures { OnOk result (out.new.items ≡ out.old.items ++ region_members region.now) }
{
    let Some(DescribedSet { frames, words }) = region else {
        return Ok(());
    };
    let (from, to) = (u128::from(frames.ttl_from), u128::from(frames.ttl_to));
    push_string_member(out, b"region", words)?;
    put(
        out,
        &OF_REGION,
        &[Number(from), Number(to), Number(lacking(frames) as u128)],
    )
}

#[tactic(auto, unfolding(crate::specs::DiffJson::also_object))]
fn push_also_object(out: &mut Vec<u8>, difference: &&Difference) -> Result<(), AllocError>
    ensures { OnOk result (out.new.items ≡ out.old.items ++ also_object difference.now) }
{
    begin_with_place(out, difference.at)?;
    put(out, &ALSO_SETS, &[Number(difference.sets.len() as u128)])
}

#[tactic(auto, unfolding(crate::specs::DiffJson::also_member))]
fn push_also_member(out: &mut Vec<u8>, also: &[&Difference]) -> Result<(), AllocError>
    ensures { OnOk result (out.new.items ≡ out.old.items ++ also_member also.now) }
{
    push_array_member(out, b"also", also, push_also_object)
}

#[tactic(auto, unfolding(crate::specs::DiffJson::difference_object))]
fn push_difference_object<L: Lookup>(
    alloc: Global,
    out: &mut Vec<u8>,
    first: &DiffSide<'_, L>,
    second: &DiffSide<'_, L>,
    told: &Told<'_>,
) -> Result<(), AllocError>
    ensures { OnOk result (out.new.items ≡ out.old.items ++ difference_object first.now.flows second.now.flows told.now) }
{
    push_difference_members(alloc, out, told.difference)?;
    push_both_hits(out, &first.flows, &second.flows, told)?;
    push_region_members(out, &told.region)?;
    push_also_member(out, &told.also)?;
    out.push(b'}')?;
    Ok(())
}

fn difference_objects<L: Lookup>(
    alloc: Global,
    first: &DiffSide<'_, L>,
    second: &DiffSide<'_, L>,
    told: &[Told<'_>],
) -> Result<Vec<u8>, AllocError>
    ensures { IfOk result (λ text. text.items ≡ listed (difference_object first.now.flows second.now.flows) told.now) }
{
    let mut out = Vec::new(alloc);
    push_listed(&mut out, told, |out, one| {
        push_difference_object(alloc, out, first, second, one)
    })?;
    Ok(out)
}

#[tactic(auto, unfolding(of_json::specs::Strings::array_member))]
fn push_texts_member(out: &mut Vec<u8>, name: &[u8], texts: &[u8]) -> Result<(), AllocError>
    ensures { OnOk result (out.new.items ≡ out.old.items ++ array_member name.now texts.now) }
{
    begin_array(out, name)?;
    out.extend_from_slice(texts)?;
    out.push(b']')?;
    Ok(())
}

#[tactic(auto, unfolding(crate::specs::DiffJson::differences_member))]
fn push_differences_member<L: Lookup>(
    alloc: Global,
    out: &mut Vec<u8>,
    first: &DiffSide<'_, L>,
    second: &DiffSide<'_, L>,
    told: &[Told<'_>],
) -> Result<(), AllocError>
    ensures { OnOk result (out.new.items ≡ out.old.items ++ differences_member first.now.flows second.now.flows told.now) }
{
    let objects = difference_objects(alloc, first, second, told)?;
    push_texts_member(out, b"differences", &objects)
}

// ---- why frames are undecided

fn name_of_why(why: Why) -> &'static [u8]
    ensures { result.now ≡ why_name why }
{
    match why {
        Why::UnknownTag => b"unknown tag",
        Why::Steps => b"steps",
        Why::Search => b"search",
        Why::OtherActions => b"other actions",
    }
}

#[tactic(auto, unfolding(crate::specs::DiffJson::undecided_string))]
fn push_why(out: &mut Vec<u8>, told: &ToldUndecided<'_>) -> Result<(), AllocError>
    ensures { OnOk result (out.new.items ≡ out.old.items ++ undecided_string told.now) }
{
    push_quoted(out, name_of_why(told.undecided.why))
}

#[tactic(auto, unfolding(crate::specs::DiffJson::undecided_member))]
fn push_undecided_member(
    out: &mut Vec<u8>,
    undecided: &[ToldUndecided<'_>],
) -> Result<(), AllocError>
    ensures { OnOk result (out.new.items ≡ out.old.items ++ undecided_member undecided.now) }
{
    push_array_member(out, b"undecided", undecided, push_why)
}

// Appends the region of a set of frames, as it is printed in words, or null if there are no words for it.
fn push_region(alloc: Global, out: &mut Vec<u8>, told: &ToldUndecided<'_>) -> Result<(), AllocError>
    ensures { OnOk result (out.new.items ≡ out.old.items ++ region_string told.now) }
{
    let Some(set) = &told.region else {
        return out.extend_from_slice(b"null");
    };
    let mut text = Vec::new(alloc);
    push_set(&mut text, set)?;
    push_string(out, &text)
}

fn region_strings(alloc: Global, undecided: &[ToldUndecided<'_>]) -> Result<Vec<u8>, AllocError>
    ensures { IfOk result (λ text. text.items ≡ listed region_string undecided.now) }
{
    let mut out = Vec::new(alloc);
    push_listed(&mut out, undecided, |out, told| {
        push_region(alloc, out, told)
    })?;
    Ok(out)
}

#[tactic(auto, unfolding(crate::specs::DiffJson::regions_member))]
fn push_regions_member(
    alloc: Global,
    out: &mut Vec<u8>,
    undecided: &[ToldUndecided<'_>],
) -> Result<(), AllocError>
    ensures { OnOk result (out.new.items ≡ out.old.items ++ regions_member undecided.now) }
{
    let strings = region_strings(alloc, undecided)?;
    push_texts_member(out, b"undecided_regions", &strings)
}

// ---- the document

fn push_limits(out: &mut Vec<u8>, limits: Option<Limits>) -> Result<(), AllocError>
    ensures { OnOk result (out.new.items ≡ out.old.items ++ limits_member limits) }
{
    match limits {
        None => out.extend_from_slice(&NO_LIMITS),
        Some(Limits { first, second }) => put(
            out,
            &BOTH_LIMITS,
            &[Number(u128::from(first)), Number(u128::from(second))],
        ),
    }
}

// The beginning of the document, up to the differences.
#[tactic(auto, unfolding(crate::specs::DiffJson::diff_head))]
fn head(
    alloc: Global,
    same: &[u8],
    ports_differ: bool,
    of: &Reserved<'_>,
) -> Result<Vec<u8>, AllocError>
    ensures { IfOk result (λ text. text.items ≡ diff_head same.now ports_differ of.now.missing.now of.now.limits) }
{
    let mut out = Vec::new(alloc);
    out.push(b'{')?;
    push_document_head(&mut out, b"diff")?;
    put(&mut out, &SAME, &[Text(same)])?;
    push_truth(&mut out, ports_differ)?;
    push_array_member(&mut out, b"missing_ports", of.missing, |out, port| {
        push_decimal(out, u128::from(*port))
    })?;
    push_limits(&mut out, of.limits)?;
    Ok(out)
}

fn same_word(of: &Reserved<'_>, found: &Differences) -> &'static [u8]
    ensures { result.now ≡ same_in_json of.now.missing.now of.now.limits found.now }
{
    if is_same_with(of, found) {
        b"true"
    } else if found.found.is_empty() {
        b"null"
    } else {
        b"false"
    }
}

/// What is found about two switches, as JSON.
#[tactic(auto, unfolding(crate::specs::DiffJson::diff_json))]
pub fn differences_as_json<L: Lookup>(
    alloc: Global,
    first: &DiffSide<'_, L>,
    second: &DiffSide<'_, L>,
    of: &Reserved<'_>,
    told: &[Told<'_>],
    undecided: &[ToldUndecided<'_>],
    found: &Differences,
) -> Result<Vec<u8>, AllocError>
    ensures { IfOk result (λ text. text.items ≡ diff_json first.now.flows second.now.flows of.now.missing.now of.now.limits told.now undecided.now found.now) }
{
    let mut out = head(alloc, same_word(of, found), false, of)?;
    push_differences_member(alloc, &mut out, first, second, told)?;
    push_undecided_member(&mut out, undecided)?;
    push_regions_member(alloc, &mut out, undecided)?;
    out.extend_from_slice(b"}\n")?;
    Ok(out)
}

/// That two switches have different ports, as JSON.
#[tactic(auto, unfolding(crate::specs::DiffJson::other_ports_json))]
pub fn other_ports_as_json(alloc: Global, missing: &[u32]) -> Result<Vec<u8>, AllocError>
    ensures { IfOk result (λ text. text.items ≡ other_ports_json missing.now) }
{
    let of = Reserved {
        missing,
        limits: None,
    };
    let mut out = head(alloc, b"false", true, &of)?;
    out.extend_from_slice(&NOTHING)?;
    out.extend_from_slice(b"}\n")?;
    Ok(out)
}
