//! What is found about two switches, in words.
ghost use Rattle.std.specs.Prelude.{◌≡◌, ◌++◌, [], IfOk, OnOk};
ghost use Rattle.std.specs.List.{flat_map, list_all, list_any};
ghost use Rattle.of_diff_report.specs.DiffWords.{also_line, are_of_expired, are_same, both_switches_words, lines_of_reason, more_regions, sets_and_also_words, are_same_with, count_why, diff_summary, diff_words, difference_count, difference_head, difference_words, expired_count, expired_words, first_expired_words, further_place, is_expired_difference, is_expired_item, is_of_expired, is_same_place, limits_line, missing_line, missing_lines, other_ports_words, reason_lines, regions_of, same_words, sets_line, switch_words, told_words, undecided_why, undecided_words, where_words, wheres_after, with_where};

use crate::hits::{DiffSide, FileFlows, MarkedHit, push_hit_lines};
use crate::region::push_region_line;
use crate::reserved::{Limits, Reserved, has_reason};
use crate::telling::{Told, ToldUndecided};
use of_alike::Where;
use of_build::push_hex;
use of_classifier::Lookup;
use of_diff::{Difference, Differences, Why};
use of_json::{push_changed_side, push_frame_lines, push_undecided_count, push_undecided_sets};
use of_machine::Item;
use of_switch::Switch;
use of_trace::push_heading;
use of_values::Part::Number;
use of_values::{push_each, put};
use of_wire::PacketInReason;
use std::alloc::{AllocError, Global};

// ---- lines: % is the place of a part

pub const MISSING: [u8; 49] = *b"port % is named, and the switch does not have it\n";

pub const OTHER_PORTS: [u8; 34] = *b"the switches have different ports\n";

pub const LIMITS: [u8; 96] =
    *b"miss_send_len is % and %: how much of a frame whose TTL expires a PACKET_IN has is not compared\n";

pub const BY_PORT: [u8; 19] = *b"differs by port %: ";

pub const TO_CONTROLLER: [u8; 27] = *b"differs to the controller: ";

pub const SETS: [u8; 22] = *b"    sets of frames: %\n";

pub const DIFFERENCE: [u8; 12] = *b"% difference";

pub const DIFFERENCES: [u8; 13] = *b"% differences";

pub const ALSO: [u8; 10] = *b"    also: ";

pub const ALSO_BY_PORT: [u8; 11] = *b", by port %";

pub const ALSO_TO_CONTROLLER: [u8; 19] = *b", to the controller";

pub const EXPIRED: [u8; 29] = *b"of frames whose TTL expires: ";

pub const SUCH_AS: [u8; 19] = *b", such as --port % ";

pub const UNKNOWN_TAG: [u8; 46] = *b"a lookup asks what is not known of a VLAN tag\n";

pub const STEPS: [u8; 50] = *b"the runs took as many steps as they may (--steps)\n";

pub const SEARCH: [u8; 95] =
    *b"the search for a frame took as many steps as it may, or found none with a port of the switches\n";

pub const OTHER_ACTIONS: [u8; 77] =
    *b"the actions differ, but what they made of the frame that was run is the same\n";

pub const MORE_REGIONS: [u8; 15] = *b"    and % more\n";

pub const SAME: [u8; 56] = *b"same: all frames that a port receives are treated alike\n";

pub const SAME_UNLESS_LIMITS: [u8; 69] =
    *b"no difference, except perhaps in how much of a frame a PACKET_IN has\n";

pub const SAME_UNLESS_MISSING: [u8; 63] =
    *b"no difference, as long as the switches do not have these ports\n";

/// How many regions of undecided frames are printed for each reason.
pub const REGIONS: usize = 5;

// Appends a line about a port that is named and missing.
#[tactic(auto, unfolding(crate::specs::DiffWords::missing_line))]
fn push_missing(out: &mut Vec<u8>, port: &u32) -> Result<(), AllocError>
    ensures { OnOk result (out.new.items ≡ out.old.items ++ missing_line port.now) }
{
    put(out, &MISSING, &[Number(u128::from(*port))])
}

fn push_all_missing(out: &mut Vec<u8>, missing: &[u32]) -> Result<(), AllocError>
    ensures { OnOk result (out.new.items ≡ out.old.items ++ missing_lines missing.now) }
{
    push_each(out, missing, push_missing)
}

// Appends a line about the miss_send_len, if they differ.
fn push_limits(out: &mut Vec<u8>, limits: Option<Limits>) -> Result<(), AllocError>
    ensures { OnOk result (out.new.items ≡ out.old.items ++ limits_line limits) }
{
    match limits {
        None => Ok(()),
        Some(Limits { first, second }) => put(
            out,
            &LIMITS,
            &[Number(u128::from(first)), Number(u128::from(second))],
        ),
    }
}

// ---- a difference

// Appends where something else leaves.
fn push_where(out: &mut Vec<u8>, at: Where) -> Result<(), AllocError>
    ensures { OnOk result (out.new.items ≡ out.old.items ++ where_words at) }
{
    match at {
        Where::Port(port) => put(out, &BY_PORT, &[Number(u128::from(port))]),
        Where::Controller => out.extend_from_slice(&TO_CONTROLLER),
    }
}

// Appends how many sets of frames a difference has, if more than one.
fn push_sets_line(out: &mut Vec<u8>, count: usize) -> Result<(), AllocError>
    ensures { OnOk result (out.new.items ≡ out.old.items ++ sets_line count) }
{
    match count {
        1 => Ok(()),
        _ => put(out, &SETS, &[Number(count as u128)]),
    }
}

// Appends the entries that a frame hits at a switch, what leaves it, and what changed in that.
#[tactic(auto, unfolding(crate::specs::DiffWords::switch_words))]
fn push_switch(
    alloc: Global,
    out: &mut Vec<u8>,
    who: &[u8],
    flows: &FileFlows<'_>,
    hits: &[MarkedHit],
    frame: &[u8],
    items: &[Item],
) -> Result<(), AllocError>
    ensures { OnOk result (out.new.items ≡ out.old.items ++ switch_words who.now flows.now hits.now frame.now items.now) }
{
    push_hit_lines(out, who, flows, hits)?;
    push_changed_side(alloc, out, who, frame, items)
}

fn push_difference_count(out: &mut Vec<u8>, count: usize) -> Result<(), AllocError>
    ensures { OnOk result (out.new.items ≡ out.old.items ++ difference_count count) }
{
    let line: &[u8] = if count == 1 {
        &DIFFERENCE
    } else {
        &DIFFERENCES
    };
    put(out, line, &[Number(count as u128)])
}

fn is_among(places: &[Where], at: Where) -> bool
    ensures { result ≡ list_any (is_same_place at) places.now }
{
    places.iter().any(|place| at == *place)
}

// Adds a place, once.
fn add_place(places: &mut Vec<Where>, at: Where) -> Result<(), AllocError>
    ensures { OnOk result (places.new.items ≡ with_where places.old.items at) }
{
    if is_among(places, at) {
        return Ok(());
    }
    places.push(at)?;
    Ok(())
}

// The places of differences, each once.
fn places_of(alloc: Global, also: &[&Difference]) -> Result<Vec<Where>, AllocError>
    ensures { IfOk result (λ places. places.items ≡ wheres_after [] also.now) }
{
    let mut places = Vec::new(alloc);
    for difference in also {
        add_place(&mut places, difference.at)?;
    }
    Ok(places)
}

fn push_place(out: &mut Vec<u8>, at: &Where) -> Result<(), AllocError>
    ensures { OnOk result (out.new.items ≡ out.old.items ++ further_place at.now) }
{
    match at {
        Where::Port(port) => put(out, &ALSO_BY_PORT, &[Number(u128::from(*port))]),
        Where::Controller => out.extend_from_slice(&ALSO_TO_CONTROLLER),
    }
}

fn push_places(out: &mut Vec<u8>, places: &[Where]) -> Result<(), AllocError>
    ensures { OnOk result (out.new.items ≡ out.old.items ++ flat_map further_place places.now) }
{
    push_each(out, places, push_place)
}

// Appends where further differences of the same changed entries are, if there are such.
#[tactic(auto, unfolding(crate::specs::DiffWords::also_line))]
fn push_also(alloc: Global, out: &mut Vec<u8>, also: &[&Difference]) -> Result<(), AllocError>
    ensures { OnOk result (out.new.items ≡ out.old.items ++ also_line also.now) }
{
    if also.is_empty() {
        return Ok(());
    }
    let places = places_of(alloc, also)?;
    out.extend_from_slice(&ALSO)?;
    push_difference_count(out, also.len())?;
    push_places(out, &places)?;
    out.push(b'\n')?;
    Ok(())
}

// Appends where something else leaves, a frame, and the region of its set.
#[tactic(auto, unfolding(crate::specs::DiffWords::difference_head))]
fn push_difference_head<L: Lookup>(
    alloc: Global,
    out: &mut Vec<u8>,
    switch: &Switch<L>,
    told: &Told<'_>,
) -> Result<(), AllocError>
    ensures { OnOk result (out.new.items ≡ out.old.items ++ difference_head switch.now.core.forwarding told.now) }
{
    let difference = told.difference;
    let (port, frame) = (difference.in_port, difference.frame.as_slice());
    push_where(out, difference.at)?;
    push_heading(alloc, out, switch, port, frame)?;
    push_frame_lines(alloc, out, port, frame)?;
    push_region_line(out, &told.region)
}

// Appends what both switches do with a frame.
#[tactic(auto, unfolding(crate::specs::DiffWords::both_switches_words))]
fn push_both_switches(
    alloc: Global,
    out: &mut Vec<u8>,
    first: &FileFlows<'_>,
    second: &FileFlows<'_>,
    told: &Told<'_>,
) -> Result<(), AllocError>
    ensures { OnOk result (out.new.items ≡ out.old.items ++ both_switches_words first.now second.now told.now) }
{
    let difference = told.difference;
    push_switch(
        alloc,
        out,
        b"    first: ",
        first,
        &told.first.all,
        &difference.frame,
        &difference.first,
    )?;
    push_switch(
        alloc,
        out,
        b"    second: ",
        second,
        &told.second.all,
        &difference.frame,
        &difference.second,
    )
}

// Appends how many sets of frames a difference has, and what is told with it.
#[tactic(auto, unfolding(crate::specs::DiffWords::sets_and_also_words))]
fn push_further(alloc: Global, out: &mut Vec<u8>, told: &Told<'_>) -> Result<(), AllocError>
    ensures { OnOk result (out.new.items ≡ out.old.items ++ sets_and_also_words told.now) }
{
    push_sets_line(out, told.difference.sets.len())?;
    push_also(alloc, out, &told.also)
}

// Appends a difference: where, the frame, what both switches do with it, and what is told with it.
#[tactic(auto, unfolding(crate::specs::DiffWords::difference_words))]
fn push_difference<L: Lookup>(
    alloc: Global,
    out: &mut Vec<u8>,
    first: &DiffSide<'_, L>,
    second: &DiffSide<'_, L>,
    told: &Told<'_>,
) -> Result<(), AllocError>
    ensures { OnOk result (out.new.items ≡ out.old.items ++
        difference_words first.now.flows second.now.flows first.now.switch.now.core.forwarding told.now) }
{
    push_difference_head(alloc, out, first.switch, told)?;
    push_both_switches(alloc, out, &first.flows, &second.flows, told)?;
    push_further(alloc, out, told)
}

// ---- differences of frames whose TTL expires

fn is_expired(item: &Item) -> bool
    ensures { result ≡ is_expired_item item.now }
{
    match item {
        Item::Sent { .. } => false,
        Item::PacketIn(packet) => packet.reason == PacketInReason::InvalidTtl,
    }
}

fn some_expire(items: &[Item]) -> bool
    ensures { result ≡ list_any is_expired_item items.now }
{
    items.iter().any(|item| is_expired(item))
}

// Whether the TTL of the frame expires at one of the switches.
#[tactic(auto, unfolding(crate::specs::DiffWords::is_of_expired))]
fn expires(difference: &Difference) -> bool
    ensures { result ≡ is_of_expired difference.now }
{
    some_expire(&difference.first) || some_expire(&difference.second)
}

fn all_of_expired(also: &[&Difference]) -> bool
    ensures { result ≡ list_all is_expired_difference also.now }
{
    also.iter().all(|difference| expires(difference))
}

// Whether the TTL expires of each frame of those that are told together.
#[tactic(auto, unfolding(crate::specs::DiffWords::are_of_expired))]
fn all_expire(told: &Told<'_>) -> bool
    ensures { result ≡ are_of_expired told.now }
{
    expires(told.difference) && all_of_expired(&told.also)
}

// Appends differences, except those that are only counted.
fn push_differences<L: Lookup>(
    alloc: Global,
    out: &mut Vec<u8>,
    first: &DiffSide<'_, L>,
    second: &DiffSide<'_, L>,
    all: bool,
    told: &[Told<'_>],
) -> Result<(), AllocError>
    ensures { OnOk result (out.new.items ≡ out.old.items ++ flat_map (told_words all first.now.flows second.now.flows
        first.now.switch.now.core.forwarding) told.now) }
{
    for one in told {
        if all || !all_expire(one) {
            push_difference(alloc, out, first, second, one)?;
        }
    }
    Ok(())
}

#[tactic(auto, unfolding(crate::specs::DiffWords::expired_words))]
fn push_expired(
    alloc: Global,
    out: &mut Vec<u8>,
    count: usize,
    difference: &Difference,
) -> Result<(), AllocError>
    ensures { OnOk result (out.new.items ≡ out.old.items ++ expired_words count difference.now) }
{
    out.extend_from_slice(&EXPIRED)?;
    push_difference_count(out, count)?;
    put(out, &SUCH_AS, &[Number(u128::from(difference.in_port))])?;
    push_hex(alloc, out, &difference.frame)?;
    out.push(b'\n')?;
    Ok(())
}

// Appends a line about the differences that are only counted, if there are such: how many, and the first of their frames.
fn push_first_expired(
    alloc: Global,
    out: &mut Vec<u8>,
    count: usize,
    told: &[Told<'_>],
) -> Result<(), AllocError>
    ensures { OnOk result (out.new.items ≡ out.old.items ++ first_expired_words count told.now) }
{
    for one in told {
        if all_expire(one) {
            return push_expired(alloc, out, count, one.difference);
        }
    }
    Ok(())
}

fn count_expired(told: &[Told<'_>]) -> usize
    ensures { result ≡ expired_count told.now }
{
    told.iter().filter(|one| all_expire(one)).count()
}

// ---- why frames are undecided

// How many sets of frames are undecided for a reason.
fn count_undecided(undecided: &[ToldUndecided<'_>], why: Why) -> usize
    ensures { result ≡ count_why why undecided.now }
{
    undecided
        .iter()
        .filter(|set| why == set.undecided.why)
        .count()
}

fn sentence(why: Why) -> &'static [u8]
    ensures { result.now ≡ undecided_why why }
{
    match why {
        Why::UnknownTag => &UNKNOWN_TAG,
        Why::Steps => &STEPS,
        Why::Search => &SEARCH,
        Why::OtherActions => &OTHER_ACTIONS,
    }
}

// Appends the regions of the first sets of frames that are undecided for a reason.
fn push_regions(
    out: &mut Vec<u8>,
    undecided: &[ToldUndecided<'_>],
    why: Why,
) -> Result<(), AllocError>
    ensures { OnOk result (out.new.items ≡ out.old.items ++ regions_of why REGIONS undecided.now) }
{
    let mut left = REGIONS;
    for set in undecided {
        if left > 0 && why == set.undecided.why {
            push_region_line(out, &set.region)?;
            left -= 1;
        }
    }
    Ok(())
}

// Appends of how many sets no region is printed, if there are such.
fn push_more_regions(out: &mut Vec<u8>, count: usize) -> Result<(), AllocError>
    ensures { OnOk result (out.new.items ≡ out.old.items ++ more_regions count) }
{
    if count > REGIONS {
        put(out, &MORE_REGIONS, &[Number((count - REGIONS) as u128)])
    } else {
        Ok(())
    }
}

#[tactic(auto, unfolding(crate::specs::DiffWords::lines_of_reason))]
fn push_lines_of_reason(
    out: &mut Vec<u8>,
    count: usize,
    undecided: &[ToldUndecided<'_>],
    why: Why,
) -> Result<(), AllocError>
    ensures { OnOk result (out.new.items ≡ out.old.items ++ lines_of_reason count undecided.now why) }
{
    if count == 0 {
        return Ok(());
    }
    push_undecided_sets(out, count)?;
    out.extend_from_slice(sentence(why))?;
    push_regions(out, undecided, why)?;
    push_more_regions(out, count)
}

// Appends how many sets of frames are undecided for a reason, and regions of them, if there are such.
fn push_reason(
    out: &mut Vec<u8>,
    undecided: &[ToldUndecided<'_>],
    why: Why,
) -> Result<(), AllocError>
    ensures { OnOk result (out.new.items ≡ out.old.items ++ reason_lines undecided.now why) }
{
    push_lines_of_reason(out, count_undecided(undecided, why), undecided, why)
}

#[tactic(auto, unfolding(crate::specs::DiffWords::undecided_words))]
fn push_undecided(out: &mut Vec<u8>, undecided: &[ToldUndecided<'_>]) -> Result<(), AllocError>
    ensures { OnOk result (out.new.items ≡ out.old.items ++ undecided_words undecided.now) }
{
    push_reason(out, undecided, Why::UnknownTag)?;
    push_reason(out, undecided, Why::Steps)?;
    push_reason(out, undecided, Why::Search)?;
    push_reason(out, undecided, Why::OtherActions)
}

// ---- the summary

/// Whether nothing differs, and nothing is undecided.
pub fn is_same(found: &Differences) -> bool
    ensures { result ≡ are_same found.now }
{
    found.found.is_empty() && found.undecided.is_empty()
}

/// Whether, besides, no port is missing, and the miss_send_len are the same.
pub fn is_same_with(of: &Reserved<'_>, found: &Differences) -> bool
    ensures { result ≡ are_same_with of.now.missing.now of.now.limits found.now }
{
    !has_reason(of) && is_same(found)
}

fn same_line(of: &Reserved<'_>) -> &'static [u8]
    ensures { result.now ≡ same_words of.now.missing.now of.now.limits }
{
    match (of.missing, of.limits) {
        ([], None) => &SAME,
        ([], Some(_)) => &SAME_UNLESS_LIMITS,
        _ => &SAME_UNLESS_MISSING,
    }
}

// Appends how many differences are told, and how many undecided sets of frames there are.
#[tactic(auto, unfolding(crate::specs::DiffWords::diff_summary))]
fn push_summary(
    out: &mut Vec<u8>,
    of: &Reserved<'_>,
    told: usize,
    found: &Differences,
) -> Result<(), AllocError>
    ensures { OnOk result (out.new.items ≡ out.old.items ++ diff_summary of.now.missing.now of.now.limits told found.now) }
{
    if is_same(found) {
        return out.extend_from_slice(same_line(of));
    }
    push_difference_count(out, told)?;
    push_undecided_count(out, found.undecided.len())?;
    out.push(b'\n')?;
    Ok(())
}

/// What is found about two switches, in words. Frames are described as the first switch receives them.
#[tactic(auto, unfolding(crate::specs::DiffWords::diff_words))]
pub fn differences_in_words<L: Lookup>(
    alloc: Global,
    first: &DiffSide<'_, L>,
    second: &DiffSide<'_, L>,
    of: &Reserved<'_>,
    told: &[Told<'_>],
    undecided: &[ToldUndecided<'_>],
    found: &Differences,
) -> Result<Vec<u8>, AllocError>
    ensures { IfOk result (λ text. text.items ≡ diff_words first.now.flows second.now.flows of.now.missing.now of.now.limits
        first.now.switch.now.core.forwarding told.now undecided.now found.now) }
{
    let mut out = Vec::new(alloc);
    let expired = count_expired(told);
    push_all_missing(&mut out, of.missing)?;
    push_limits(&mut out, of.limits)?;
    push_differences(alloc, &mut out, first, second, expired == told.len(), told)?;
    if expired < told.len() {
        push_first_expired(alloc, &mut out, expired, told)?;
    }
    push_undecided(&mut out, undecided)?;
    push_summary(&mut out, of, told.len(), found)?;
    Ok(out)
}

/// That two switches have different ports, in words.
pub fn other_ports_in_words(alloc: Global, missing: &[u32]) -> Result<Vec<u8>, AllocError>
    ensures { IfOk result (λ text. text.items ≡ other_ports_words missing.now) }
{
    let mut out = Vec::new(alloc);
    push_all_missing(&mut out, missing)?;
    out.extend_from_slice(&OTHER_PORTS)?;
    Ok(out)
}
