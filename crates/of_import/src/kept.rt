//! Which groups and flows of a table are kept.
ghost use Rattle.std.specs.Prelude.{◌≡◌, ◌++◌, ◌∷◌, false, map, length, is_some, nat_eq, slice_get, slice_index_or, [], None, IfOk, OnOk};
ghost use Rattle.std.specs.{HashMap.get, List.AllByRecursion, List.list_any, Option.option_map_or};
ghost use Rattle.of_oxm.specs.SameMatch.{is_same_match};
ghost use Rattle.of_text.specs.{First.first_refusal, Flows.text_rows, Texts.AreRows, Views.view, Views.view_flows, Views.view_group, Views.view_groups, Digests.flow_digest};
ghost use Rattle.of_import.specs.Kept.{accepted, after_refusal, groups_in, kept_groups, kept_of_lines, refused_flows as refused_of, replaces as replaces_flow, with_older, youngest as youngest_of};
ghost use Rattle.of_import.specs.{Digests.digests_of, Digests.HasDigests, Digests.PutsDigest, KeptViews.view_kept, KeptViews.view_kept_groups, KeptViews.view_refusal};
ghost use Rattle.of_import.specs.ParsedLinesViews.{AreSoundGroups, FlowIsSound, view_flow_line, view_group_line};

use crate::copies::copy_group;
use crate::parsed_lines::{FlowLine, GroupLine, remove_id};
use of_oxm::Code;
use of_text::{Config, FillError, FlowText, GroupText, digest, refusal_beside};
use std::alloc::{AllocError, Global};
use std::collections::HashMap;

/// A line that the switch refuses, and its first refusal (OpenFlow 1.3.5, 7.4.4).
#[derive(Clone, Copy, Debug)]
pub struct LineRefusal {
    pub line: usize,
    pub code: Code,
}

/// What is kept of the lines that were read, and the lines that the switch refuses.
#[derive(Drop)]
pub struct KeptLines {
    pub groups: Vec<GroupLine>,
    pub flows: Vec<FlowLine>,
    pub refused: Vec<LineRefusal>,
}

fn copies_of(alloc: Global, groups: &[GroupLine]) -> Result<Vec<GroupText>, AllocError>
    ensures { IfOk result (λ copies. map view_group copies.items ≡ map (λ it. view_group it.group) groups.now) }
{
    let mut copies = Vec::new(alloc);
    for it in groups {
        copies.push(copy_group(alloc, &it.group)?)?;
    }
    Ok(copies)
}

// The place of the first group or flow that is refused, and its first refusal.
fn refusal_among(
    alloc: Global,
    groups: Vec<GroupText>,
    flows: Vec<FlowText>,
) -> Result<Option<(usize, Code)>, AllocError>
    requires { AreRows (text_rows (view_groups groups.items) (view_flows flows.items)) }
    ensures { IfOk result (λ r. r ≡ first_refusal (view_groups groups.items) (view_flows flows.items)) }
{
    match Config::of_items(alloc, groups, flows) {
        Ok(_config) => Ok(None),
        Err(FillError::Refused { place, code }) => Ok(Some((place, code))),
        Err(FillError::NoMemory) => Err(AllocError),
    }
}

// The same among groups alone.
fn refused_group(alloc: Global, groups: &[GroupLine]) -> Result<Option<(usize, Code)>, AllocError>
    requires { AreSoundGroups groups.now }
    ensures { IfOk result (λ r. r ≡ first_refusal (groups_in (map view_group_line groups.now)) []) }
{
    let copies = copies_of(alloc, groups)?;
    let flows = Vec::new(alloc);
    match refusal_among(alloc, copies, flows) {
        Ok(refusal) => Ok(refusal),
        Err(error) => Err(error),
    }
}

fn line_at(alloc: Global, groups: &[GroupLine], place: usize) -> Result<usize, AllocError>
    ensures { IfOk result (λ line. line ≡ slice_index_or (map (λ g. g.line) groups.now) place 0) }
{
    let lines: Vec<usize> = groups.iter().map(|it| it.line).collect(alloc)?;
    match lines.get(place) {
        Some(line) => Ok(*line),
        None => Ok(0),
    }
}

fn id_at(alloc: Global, groups: &[GroupLine], place: usize) -> Result<u32, AllocError>
    ensures { IfOk result (λ id. id ≡ slice_index_or (map (λ g. g.group.head.id) groups.now) place 0) }
{
    let ids: Vec<u32> = groups.iter().map(|it| it.group.head.id).collect(alloc)?;
    match ids.get(place) {
        Some(id) => Ok(*id),
        None => Ok(0),
    }
}

// Leaves out the group that is refused first; whether there is one.
fn leave_first(
    alloc: Global,
    groups: &mut Vec<GroupLine>,
    refused: &mut Vec<LineRefusal>,
) -> Result<bool, AllocError>
    requires { AreSoundGroups groups.old.items }
    ensures left { OnOk result (view_kept_groups groups.new refused.new ≡
        after_refusal (first_refusal (groups_in (map view_group_line groups.old.items)) []) (view_kept_groups groups.old refused.old)) }
    ensures none { IfOk result (λ some. some ≡ is_some (first_refusal (groups_in (map view_group_line groups.old.items)) [])) }
    ensures sound { OnOk result (AreSoundGroups groups.new.items) }
{
    match refused_group(alloc, groups)? {
        Some((place, code)) => {
            let line = line_at(alloc, groups, place)?;
            let id = id_at(alloc, groups, place)?;
            remove_id(groups, id);
            refused.push(LineRefusal { line, code })?;
            Ok(true)
        }
        None => Ok(false),
    }
}

/// Leaves out the groups that the switch refuses, so that none of the others is refused.
pub fn keep_groups(
    alloc: Global,
    groups: &mut Vec<GroupLine>,
    refused: &mut Vec<LineRefusal>,
) -> Result<(), AllocError>
    requires { AreSoundGroups groups.old.items }
    ensures left { OnOk result (view_kept_groups groups.new refused.new ≡ kept_groups (length groups.old.items) (view_kept_groups groups.old refused.old)) }
    ensures none { OnOk result (first_refusal (groups_in (map view_group_line groups.new.items)) [] ≡ None) }
    ensures sound { OnOk result (AreSoundGroups groups.new.items) }
{
    let count = groups.len();
    let mut left = count;
    while left > 0 {
        left -= 1;
        if !leave_first(alloc, groups, refused)? {
            return Ok(());
        }
    }
    Ok(())
}

// Puts a flow to those that are accepted, or its line to those that are refused.
fn judge(
    groups: &[GroupText],
    kept: &mut Vec<FlowLine>,
    refused: &mut Vec<LineRefusal>,
    it: FlowLine,
) -> Result<(), AllocError>
    requires groups { first_refusal (view_groups groups.now) [] ≡ None }
    requires kept { AllByRecursion FlowIsSound kept.old.items }
    requires flow { FlowIsSound it }
    ensures accepted { OnOk result (map view_flow_line kept.new.items ≡
        map view_flow_line kept.old.items ++ accepted (view_groups groups.now) (view_flow_line it ∷ [])) }
    ensures refused { OnOk result (map view_refusal refused.new.items ≡
        map view_refusal refused.old.items ++ refused_of (view_groups groups.now) (view_flow_line it ∷ [])) }
    ensures sound { OnOk result (AllByRecursion FlowIsSound kept.new.items) }
{
    match refusal_beside(groups, &it.flow) {
        Some(code) => refused.push(LineRefusal {
            line: it.line,
            code,
        })?,
        None => kept.push(it)?,
    }
    Ok(())
}

/// The flows that the switch accepts beside these groups, of which none is refused; the others are appended to those that it refuses.
pub fn keep_flows(
    alloc: Global,
    groups: &[GroupLine],
    flows: Vec<FlowLine>,
    refused: &mut Vec<LineRefusal>,
) -> Result<Vec<FlowLine>, AllocError>
    requires groups { first_refusal (groups_in (map view_group_line groups.now)) [] ≡ None }
    requires flows { AllByRecursion FlowIsSound flows.items }
    ensures accepted { IfOk result (λ kept. map view_flow_line kept.items ≡
        accepted (groups_in (map view_group_line groups.now)) (map view_flow_line flows.items)) }
    ensures refused { OnOk result (map view_refusal refused.new.items ≡
        map view_refusal refused.old.items ++ refused_of (groups_in (map view_group_line groups.now)) (map view_flow_line flows.items)) }
    ensures sound { IfOk result (λ kept. AllByRecursion FlowIsSound kept.items) }
{
    let texts = copies_of(alloc, groups)?;
    let mut kept = Vec::new(alloc);
    let mut left = flows;
    left.reverse();
    while let Some(it) = left.pop() {
        judge(&texts, &mut kept, refused, it)?;
    }
    Ok(kept)
}

// Whether one of these flows replaces another.
fn is_replaced(later: &[FlowLine], flow: &FlowText) -> bool
    ensures { result ≡ list_any (λ g. replaces_flow (view g.flow) (view flow.now)) later.now }
{
    later.iter().any(|other| replaces(&other.flow, flow))
}

fn has_fields_of(flow: &FlowText, other: &FlowText) -> bool
    ensures { result ≡ is_same_match other.now.fields.items flow.now.fields.items }
{
    other.fields.as_slice() == flow.fields.as_slice()
}

// Whether the flow takes the place of the other.
fn replaces(flow: &FlowText, other: &FlowText) -> bool
    ensures { result ≡ replaces_flow (view flow.now) (view other.now) }
{
    other.head.table == flow.head.table
        && other.head.priority == flow.head.priority
        && has_fields_of(flow, other)
}

// Whether the flow at that place, if there is one, replaces another.
fn replaces_at(later: &[FlowLine], place: usize, flow: &FlowText) -> bool
    ensures { result ≡ option_map_or (λ g. replaces_flow (view g.flow) (view flow.now)) (slice_get later.now place) false }
{
    match later.get(place) {
        Some(other) => replaces(&other.flow, flow),
        None => false,
    }
}

// The same as is_replaced, beginning at a place.
fn is_replaced_from(later: &[FlowLine], place: usize, flow: &FlowText) -> bool
    ensures { result ≡ list_any (λ g. replaces_flow (view g.flow) (view flow.now)) later.now }
{
    if replaces_at(later, place, flow) {
        return true;
    }
    is_replaced(later, flow)
}

fn place_of(places: &HashMap<u128, usize>, key: u128) -> Option<usize>
    ensures { result ≡ get nat_eq places.now key }
{
    places.get(&key).copied()
}

// Whether one of these flows replaces a flow of that digest. Under the digests of the flows there are places where one with that digest may be.
fn has_younger(
    later: &[FlowLine],
    places: &HashMap<u128, usize>,
    key: u128,
    flow: &FlowText,
) -> bool
    requires digests { HasDigests (digests_of later.now) places.now }
    requires key { key ≡ flow_digest (view flow.now) }
    ensures { result ≡ list_any (λ g. replaces_flow (view g.flow) (view flow.now)) later.now }
{
    match place_of(places, key) {
        Some(place) => is_replaced_from(later, place, flow),
        None => false,
    }
}

fn put_digest(places: &mut HashMap<u128, usize>, key: u128, place: usize) -> Result<(), AllocError>
    ensures { OnOk result (PutsDigest places.old places.new key place) }
{
    places.insert(key, place)?;
    Ok(())
}

// Adds a flow to those after it, unless one of them replaces it.
fn add_older(
    later: &mut Vec<FlowLine>,
    places: &mut HashMap<u128, usize>,
    it: FlowLine,
) -> Result<(), AllocError>
    requires digests { HasDigests (digests_of later.old.items) places.old }
    requires later { AllByRecursion FlowIsSound later.old.items }
    requires flow { FlowIsSound it }
    ensures added { OnOk result (map view_flow_line later.new.items ≡ with_older (map view_flow_line later.old.items) (view_flow_line it)) }
    ensures digests { OnOk result (HasDigests (digests_of later.new.items) places.new) }
    ensures sound { OnOk result (AllByRecursion FlowIsSound later.new.items) }
{
    let key = digest(&it.flow);
    if !has_younger(later, places, key, &it.flow) {
        put_digest(places, key, later.len())?;
        later.push(it)?;
    }
    Ok(())
}

/// Without the flows that a later one replaces.
#[tactic(auto, unfolding(crate::specs::Kept::youngest))]
pub fn youngest(alloc: Global, flows: Vec<FlowLine>) -> Result<Vec<FlowLine>, AllocError>
    requires { AllByRecursion FlowIsSound flows.items }
    ensures kept { IfOk result (λ kept. map view_flow_line kept.items ≡ youngest_of (map view_flow_line flows.items)) }
    ensures sound { IfOk result (λ kept. AllByRecursion FlowIsSound kept.items) }
{
    let mut later = Vec::new(alloc);
    let mut places = HashMap::new(alloc);
    let mut left = flows;
    while let Some(it) = left.pop() {
        add_older(&mut later, &mut places, it)?;
    }
    later.reverse();
    Ok(later)
}

/// What is kept of the lines that were read.
#[tactic(auto, unfolding(crate::specs::Kept::kept_of_lines))]
pub fn keep(
    alloc: Global,
    groups: Vec<GroupLine>,
    flows: Vec<FlowLine>,
) -> Result<KeptLines, AllocError>
    requires groups { AreSoundGroups groups.items }
    requires flows { AllByRecursion FlowIsSound flows.items }
    ensures kept { IfOk result (λ kept. view_kept kept ≡ kept_of_lines (map view_group_line groups.items) (map view_flow_line flows.items)) }
    ensures groups { IfOk result (λ kept. AreSoundGroups kept.groups.items) }
    ensures flows { IfOk result (λ kept. AllByRecursion FlowIsSound kept.flows.items) }
{
    let mut groups = groups;
    let mut refused = Vec::new(alloc);
    keep_groups(alloc, &mut groups, &mut refused)?;
    let flows = keep_flows(alloc, &groups, flows, &mut refused)?;
    let flows = youngest(alloc, flows)?;
    Ok(KeptLines {
        groups,
        flows,
        refused,
    })
}
