//! What all frames of a set have in common, in words.
ghost use Rattle.std.specs.Prelude.{◌≡◌, ℕ, ◌++◌, Option, IfOk, OnOk, true};
ghost use Rattle.std.specs.List.{list_all};
ghost use Rattle.of_layers.specs.declared.field.Field.{Field as TheField};
ghost use Rattle.of_oxm.specs.Relations.{matches_map};
ghost use Rattle.of_regions.specs.{declared.meeting.Meeting.TheVariants.Whole, Meeting.Meets, Searching.InSome};
ghost use Rattle.of_diff_report.specs.RegionWords.{IsRegionOfSet, IsRegionOf, IsTrueOf, count_of_entries, inner_part, is_inner_region, is_of_entry as is_of_entry_by, is_port_block as is_port_block_by, lacks_part, region_line, region_words, ttl_range_part, words_said};

use of_frame_words::{NoFrame, read_conditions};
use of_layers::Field;
use of_ovs_words::text_for;
use of_oxm::MatchField;
use of_regions::{Meeting, Region};
use of_symbolic_run::{FrameSet, any_about_metadata};
use of_values::Part::Number;
use of_values::{push_value_words, put};
use std::alloc::{AllocError, Global};

pub const REGION: [u8; 12] = *b"    region: ";

pub const ALL_FRAMES: [u8; 10] = *b"all frames";

pub const INNER: [u8; 23] = *b" with an inner VLAN tag";

pub const TTL: [u8; 19] = *b" with nw_ttl % to %";

pub const LACKS_ONE: [u8; 16] = *b" without % match";

pub const LACKS: [u8; 18] = *b" without % matches";

/// A set of frames, and what all of them have in common, in words such as `in_port=1,tcp,nw_dst=10.0.0.0/8`: `paths --match` reads them as conditions
/// that each of its frames fulfils. The set may have fewer frames.
#[derive(Drop)]
pub struct DescribedSet<'a> {
    pub frames: &'a FrameSet,
    pub words: Vec<u8>,
}

// ---- conditions

fn has_all(region: &Region, fields: &[MatchField]) -> bool
    ensures { result ≡ true → Meets region.now fields.now Whole }
{
    matches!(region.meet(fields), Meeting::Whole)
}

// Whether all packets of regions have these fields.
fn all_match(regions: &[Region], fields: &[MatchField]) -> bool
    ensures { result ≡ true → (map : TheField → Option ℕ) → InSome regions.now map → matches_map fields.now map ≡ true }
{
    for region in regions {
        if !has_all(region, fields) {
            return false;
        }
    }
    true
}

// What is known of a field in a region, if a match can say it.
fn known_condition(region: &Region, field: Field) -> Option<MatchField> {
    let mask = region.masks.masks.get(field)?;
    let value = region.known.get(field)?;
    let row = field.row();
    let mask = if mask == row.ones {
        None
    } else if mask != 0 && row.maskable {
        Some(mask)
    } else {
        return None;
    };
    Some(MatchField { field, value, mask })
}

// Adds what is known of a field in the first of some regions, if so it is in all of them.
fn add_common(
    conditions: &mut Vec<MatchField>,
    regions: &[Region],
    field: Field,
) -> Result<(), AllocError> {
    let Some(first) = regions.first() else {
        return Ok(());
    };
    match known_condition(first, field) {
        Some(e) if all_match(regions, &[e]) => {
            conditions.push(e)?;
            Ok(())
        }
        _ => Ok(()),
    }
}

// What all packets of some regions have in common: the port, the type, and the other fields by their numbers. Frames that come in have no metadata.
fn common_conditions(alloc: Global, regions: &[Region]) -> Result<Vec<MatchField>, AllocError> {
    let mut conditions = Vec::new(alloc);
    add_common(&mut conditions, regions, Field::InPort)?;
    add_common(&mut conditions, regions, Field::EthType)?;
    let fields: &[Field] = &Field::ALL;
    for field in fields {
        if !matches!(field, Field::InPort | Field::EthType | Field::Metadata) {
            add_common(&mut conditions, regions, *field)?;
        }
    }
    Ok(conditions)
}

// ---- words

// The word for a type and a protocol, if there is one.
fn protocol_word(ethertype: u128, protocol: Option<u128>) -> Option<&'static [u8]> {
    match (ethertype, protocol) {
        (0x0800, Some(1)) => Some(b"icmp"),
        (0x0800, Some(6)) => Some(b"tcp"),
        (0x0800, Some(17)) => Some(b"udp"),
        (0x0800, _) => Some(b"ip"),
        (0x86dd, Some(6)) => Some(b"tcp6"),
        (0x86dd, Some(17)) => Some(b"udp6"),
        (0x86dd, Some(58)) => Some(b"icmp6"),
        (0x86dd, _) => Some(b"ipv6"),
        (0x0806, _) => Some(b"arp"),
        _ => None,
    }
}

// The protocol that conditions say, if one of these words says it.
fn protocol_among(conditions: &[MatchField]) -> Option<u128> {
    let e = conditions.iter().find(|e| e.field == Field::IpProto)?;
    match e.value {
        1 | 6 | 17 | 58 => Some(e.value),
        _ => None,
    }
}

fn push_setting(out: &mut Vec<u8>, word: &[u8], e: &MatchField) -> Result<(), AllocError> {
    out.extend_from_slice(word)?;
    out.push(b'=')?;
    push_value_words(out, e.field, e.value, e.mask)
}

// Appends what is known of a VLAN tag (OpenFlow 1.3.5, 7.2.3.7).
fn push_tag(out: &mut Vec<u8>, e: &MatchField) -> Result<(), AllocError> {
    match (e.value, e.mask) {
        (0, None) => out.extend_from_slice(b"vlan_vid=0"),
        (0x1000, Some(0x1000)) => out.extend_from_slice(b"vlan_vid=0x1000/0x1000"),
        (_, Some(_)) => push_setting(out, b"vlan_vid", e),
        (_, None) => push_setting(out, b"dl_vlan", e),
    }
}

fn push_type(out: &mut Vec<u8>, e: &MatchField, protocol: Option<u128>) -> Result<(), AllocError> {
    match (e.mask, protocol_word(e.value, protocol)) {
        (None, Some(word)) => out.extend_from_slice(word),
        _ => push_setting(out, text_for(e.field), e),
    }
}

// Appends the word for a condition, behind a comma if it is not the first one.
fn push_condition(
    out: &mut Vec<u8>,
    e: &MatchField,
    protocol: Option<u128>,
) -> Result<(), AllocError> {
    if e.field == Field::IpProto && protocol.is_some() {
        return Ok(());
    }
    if !out.is_empty() {
        out.push(b',')?;
    }
    match e.field {
        Field::EthType => push_type(out, e, protocol),
        Field::VlanVid => push_tag(out, e),
        Field::IpDscp => push_setting(out, b"ip_dscp", e),
        _ => push_setting(out, text_for(e.field), e),
    }
}

// The words for conditions, such as `in_port=1,tcp,nw_dst=10.0.0.0/8`.
fn words_for(alloc: Global, conditions: &[MatchField]) -> Result<Vec<u8>, AllocError> {
    let mut words = Vec::new(alloc);
    let protocol = protocol_among(conditions);
    for e in conditions {
        push_condition(&mut words, e, protocol)?;
    }
    Ok(words)
}

// Whether words are read as conditions that all frames of a set fulfil.
fn are_true_of(alloc: Global, words: &[u8], frames: &FrameSet) -> Result<bool, AllocError>
    ensures { IfOk result (λ yes. yes ≡ true → IsTrueOf frames.now words.now) }
{
    match read_conditions(alloc, words) {
        Ok(fields) => Ok(!any_about_metadata(&fields) && all_match(&frames.part.regions, &fields)),
        Err(NoFrame::NoMemory) => Err(AllocError),
        Err(NoFrame::Refused(_)) => Ok(false),
    }
}

/// What all frames of a set have in common, if there are words for it that are read as such.
pub fn describe(alloc: Global, frames: &FrameSet) -> Result<Option<DescribedSet<'_>>, AllocError>
    ensures { IfOk result (IsRegionOfSet frames.now) }
{
    let conditions = common_conditions(alloc, &frames.part.regions)?;
    let words = words_for(alloc, &conditions)?;
    if are_true_of(alloc, &words, frames)? {
        Ok(Some(DescribedSet { frames, words }))
    } else {
        Ok(None)
    }
}

/// The same of the first of some sets.
pub fn describe_first(
    alloc: Global,
    sets: &[FrameSet],
) -> Result<Option<DescribedSet<'_>>, AllocError>
    ensures { IfOk result (IsRegionOf sets.now) }
{
    match sets {
        [] => Ok(None),
        [frames, ..] => describe(alloc, frames),
    }
}

// ---- the line

fn said(words: &[u8]) -> &[u8]
    ensures { result.now ≡ words_said words.now }
{
    if words.is_empty() { &ALL_FRAMES } else { words }
}

fn is_inner(region: &Region) -> bool
    ensures { result ≡ is_inner_region region.now }
{
    region.known.get(Field::Metadata).unwrap_or(0) / 0x1000 % 2 == 1
}

fn are_inner(regions: &[Region]) -> bool
    ensures { result ≡ list_all is_inner_region regions.now }
{
    regions.iter().all(is_inner)
}

fn push_inner(out: &mut Vec<u8>, regions: &[Region]) -> Result<(), AllocError>
    ensures { OnOk result (out.new.items ≡ out.old.items ++ inner_part regions.now) }
{
    match regions {
        [] => Ok(()),
        _ if are_inner(regions) => out.extend_from_slice(&INNER),
        _ => Ok(()),
    }
}

fn push_ttl(out: &mut Vec<u8>, low: u8, high: u8) -> Result<(), AllocError>
    ensures { OnOk result (out.new.items ≡ out.old.items ++ ttl_range_part low high) }
{
    if low == 0 && high == 255 {
        return Ok(());
    }
    put(
        out,
        &TTL,
        &[Number(u128::from(low)), Number(u128::from(high))],
    )
}

fn is_port_block(e: &MatchField) -> bool
    ensures { result ≡ is_port_block_by e.now }
{
    e.field.number() == Field::InPort.number() && e.mask.is_some()
}

fn is_of_entry(conditions: &Vec<MatchField>) -> bool
    ensures { result ≡ is_of_entry_by conditions.now }
{
    conditions.iter().any(|e| !is_port_block(e))
}

/// How many lists of conditions are those of entries: the others leave out the numbers of ports that the switches do not have.
pub fn lacking(frames: &FrameSet) -> usize
    ensures { result ≡ count_of_entries frames.now.part.lacks.items }
{
    frames
        .part
        .lacks
        .iter()
        .filter(|conditions| is_of_entry(conditions))
        .count()
}

fn push_lacks(out: &mut Vec<u8>, count: usize) -> Result<(), AllocError>
    ensures { OnOk result (out.new.items ≡ out.old.items ++ lacks_part count) }
{
    match count {
        0 => Ok(()),
        1 => put(out, &LACKS_ONE, &[Number(1)]),
        _ => put(out, &LACKS, &[Number(count as u128)]),
    }
}

/// Appends the region of a set: its words, whether each of its frames has an inner tag, the range of its TTL, and how many matches match
/// none of its frames.
#[tactic(auto, unfolding(crate::specs::RegionWords::region_words))]
pub fn push_set(out: &mut Vec<u8>, set: &DescribedSet<'_>) -> Result<(), AllocError>
    ensures { OnOk result (out.new.items ≡ out.old.items ++ region_words set.now) }
{
    out.extend_from_slice(said(&set.words))?;
    push_inner(out, &set.frames.part.regions)?;
    push_ttl(out, set.frames.ttl_from, set.frames.ttl_to)?;
    push_lacks(out, lacking(set.frames))
}

/// Appends a line with the region of a set, if there are words for it.
pub fn push_region_line(
    out: &mut Vec<u8>,
    region: &Option<DescribedSet<'_>>,
) -> Result<(), AllocError>
    ensures { OnOk result (out.new.items ≡ out.old.items ++ region_line region.now) }
{
    let Some(set) = region else {
        return Ok(());
    };
    out.extend_from_slice(&REGION)?;
    push_set(out, set)?;
    out.push(b'\n')?;
    Ok(())
}
