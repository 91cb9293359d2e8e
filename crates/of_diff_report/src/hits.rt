//! The entries that a frame hits at one of two switches, and which of them changed.
ghost use Rattle.std.specs.Prelude.{◌≡◌, ◌↔◌, ◌++◌, IfOk, OnOk, false, map};
ghost use Rattle.std.specs.List.{All, flat_map};
ghost use Rattle.of_diff_report.specs.Changed.{AreSideHits, IsInOther, IsMarked, are_same_hits as are_same_hits_by, changed_at, hit_of, hits_in};
ghost use Rattle.of_diff_report.specs.EntryHits.{changed_member, hit_entries_member, hit_line, hit_lines};

use of_alike::has_such_entry;
use of_classifier::Lookup;
use of_json::{Hit, hits_among, push_array_member, push_truth};
use of_report::{Origin, push_entry, push_entry_object};
use of_switch::{Switch, SwitchError};
use of_text::Config;
use of_tracing::trace;
use of_values::push_each;
use of_wire::limits::TABLES;
use std::alloc::{AllocError, Global};

/// The flow entries of a switch, and where these come from, by table, then by age.
#[derive(Drop)]
pub struct FileFlows<'a> {
    pub config: &'a Config,
    pub origins: &'a [Vec<Origin>],
}

/// One of the two switches.
#[derive(Drop)]
pub struct DiffSide<'a, L: Lookup> {
    pub flows: FileFlows<'a>,
    pub switch: &'a Switch<L>,
}

/// An entry that a frame hits.
#[derive(Clone, Copy)]
pub struct MarkedHit {
    pub hit: Hit,
    /// Whether the other switch has no entry in the same table with the same priority, match, cookie and instructions.
    pub changed: bool,
}

/// The entries that a frame hits at a switch, in turn.
#[derive(Drop)]
pub struct SideHits {
    pub all: Vec<MarkedHit>,
    pub changed: Vec<Hit>,
}

fn hits_of<L: Lookup>(
    alloc: Global,
    switch: &Switch<L>,
    port: u32,
    frame: &[u8],
) -> Result<Vec<Hit>, AllocError>
    ensures { IfOk result (λ hits. hits.items ≡ hits_in port frame.now switch.now.core.forwarding) }
{
    match trace(alloc, switch, port, frame) {
        Ok(trace) => hits_among(alloc, &trace.steps),
        Err(SwitchError::NoMemory) => Err(AllocError),
        Err(_) => unreachable!(),
    }
}

// Whether the other switch has no entry that says the same.
fn is_changed<L: Lookup>(own: &Switch<L>, other: &Switch<L>, hit: Hit) -> bool
    ensures { (result ≡ false) ↔ IsInOther own.now.core.forwarding other.now.core.forwarding hit }
{
    if hit.table >= TABLES {
        return true;
    }
    match own.datapath().entries(hit.table).at(hit.number) {
        None => true,
        Some(entry) => !has_such_entry(other.datapath().entries(hit.table), entry),
    }
}

fn mark<L: Lookup>(own: &Switch<L>, other: &Switch<L>, hit: &Hit) -> MarkedHit
    ensures hit { result.hit ≡ hit.now }
    ensures marked { IsMarked own.now.core.forwarding other.now.core.forwarding result }
{
    MarkedHit {
        hit: *hit,
        changed: is_changed(own, other, *hit),
    }
}

fn marked<L: Lookup>(
    alloc: Global,
    own: &Switch<L>,
    other: &Switch<L>,
    hits: &[Hit],
) -> Result<Vec<MarkedHit>, AllocError>
    ensures all { IfOk result (λ all. map hit_of all.items ≡ hits.now) }
    ensures marked { IfOk result (λ all. All (IsMarked own.now.core.forwarding other.now.core.forwarding) all.items) }
{
    let mut all = Vec::new(alloc);
    for hit in hits {
        all.push(mark(own, other, hit))?;
    }
    Ok(all)
}

fn changed_among(alloc: Global, all: &[MarkedHit]) -> Result<Vec<Hit>, AllocError>
    ensures { IfOk result (λ changed. changed.items ≡ flat_map changed_at all.now) }
{
    let mut changed = Vec::new(alloc);
    for marked in all {
        if marked.changed {
            changed.push(marked.hit)?;
        }
    }
    Ok(changed)
}

/// The entries that a frame hits at a switch, and those of them that the other switch does not have.
pub fn side_hits<L: Lookup>(
    alloc: Global,
    own: &Switch<L>,
    other: &Switch<L>,
    port: u32,
    frame: &[u8],
) -> Result<SideHits, AllocError>
    ensures { IfOk result (AreSideHits own.now.core.forwarding other.now.core.forwarding port frame.now) }
{
    let hits = hits_of(alloc, own, port, frame)?;
    let all = marked(alloc, own, other, &hits)?;
    let changed = changed_among(alloc, &all)?;
    Ok(SideHits { all, changed })
}

/// Whether these are the same hits in the same order.
pub fn are_same_hits(a: &[Hit], b: &[Hit]) -> bool
    ensures { result ≡ are_same_hits_by a.now b.now }
{
    match a {
        [] => match b {
            [] => true,
            [_, ..] => false,
        },
        [hit, hits @ ..] => match b {
            [] => false,
            [other, others @ ..] => {
                hit.table == other.table
                    && hit.number == other.number
                    && are_same_hits(hits, others)
            }
        },
    }
}

#[tactic(auto, unfolding(crate::specs::EntryHits::hit_line))]
fn push_hit(
    out: &mut Vec<u8>,
    who: &[u8],
    flows: &FileFlows<'_>,
    marked: MarkedHit,
) -> Result<(), AllocError>
    ensures { OnOk result (out.new.items ≡ out.old.items ++ hit_line who.now flows.now marked) }
{
    out.extend_from_slice(who)?;
    out.extend_from_slice(b"hits ")?;
    push_entry(
        out,
        flows.config,
        flows.origins,
        marked.hit.table,
        marked.hit.number,
    )?;
    let end: &[u8] = if marked.changed {
        b", changed\n"
    } else {
        b"\n"
    };
    out.extend_from_slice(end)
}

/// Appends a line for each entry that a frame hits, behind the name of the switch.
pub fn push_hit_lines(
    out: &mut Vec<u8>,
    who: &[u8],
    flows: &FileFlows<'_>,
    hits: &[MarkedHit],
) -> Result<(), AllocError>
    ensures { OnOk result (out.new.items ≡ out.old.items ++ hit_lines who.now flows.now hits.now) }
{
    push_each(out, hits, |out, hit| push_hit(out, who, flows, *hit))
}

/// Appends a further member: an array of the entries that a frame hits.
#[tactic(auto, unfolding(crate::specs::EntryHits::hit_entries_member))]
pub fn push_hits_member(
    out: &mut Vec<u8>,
    name: &[u8],
    flows: &FileFlows<'_>,
    hits: &[MarkedHit],
) -> Result<(), AllocError>
    ensures { OnOk result (out.new.items ≡ out.old.items ++ hit_entries_member name.now flows.now hits.now) }
{
    push_array_member(out, name, hits, |out, marked| {
        push_entry_object(
            out,
            flows.config,
            flows.origins,
            marked.hit.table,
            marked.hit.number,
        )
    })
}

/// Appends a further member: for each of the entries whether it changed.
#[tactic(auto, unfolding(crate::specs::EntryHits::changed_member))]
pub fn push_changed_member(
    out: &mut Vec<u8>,
    name: &[u8],
    hits: &[MarkedHit],
) -> Result<(), AllocError>
    ensures { OnOk result (out.new.items ≡ out.old.items ++ changed_member name.now hits.now) }
{
    push_array_member(out, name, hits, |out, marked| {
        push_truth(out, marked.changed)
    })
}
