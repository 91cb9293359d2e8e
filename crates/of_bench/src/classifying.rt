//! Lookups in a classifier by groups of masks.

use crate::clock::{Timed, time};
use crate::frames::TAGGED_TCP;
use of_classifier::Lookup;
use of_headers::{FieldKey, read};
use of_mask_groups::MaskGroups;
use of_oxm::{Match, ReadError, read_match};
use std::alloc::{AllocError, Global};
use std::io;

/// How many entries there are.
const ENTRIES: u64 = 4096;

/// How many keys there are, in turns.
pub const KEYS: u64 = 256;

/// A match of METADATA under a mask, ETH_TYPE 0x0800, IP_PROTO 6 and TCP_DST 80.
const MATCH: [u8; 48] = [
    0, 1, 0, 41, 0x80, 0, 0x05, 16, 0, 0, 0, 0, 0, 0, 0, 0, // METADATA
    0, 0, 0, 0, 0, 0, 0xff, 0xff, // its mask
    0x80, 0, 0x0a, 2, 0x08, 0x00, 0x80, 0, 0x14, 1, 6, 0x80, 0, 0x1c, 2, 0, 80, 0, 0, 0, 0, 0, 0,
    0,
];

/// The next of a sequence of numbers that looks random.
pub fn following(number: u64) -> u64 {
    number
        .wrapping_mul(6_364_136_223_846_793_005)
        .wrapping_add(1_442_695_040_888_963_407)
}

/// The bytes of a match of two bytes of METADATA, under one of 256 masks.
pub fn numbered_fields(mask: u8, value: u16) -> [u8; 48] {
    let mut bytes = MATCH;
    let low = value.to_be_bytes();
    bytes[14] = low[0];
    bytes[15] = low[1];
    bytes[21] = mask;
    bytes
}

/// Such a match.
pub fn numbered_match(alloc: Global, mask: u8, value: u16) -> Result<Match, ReadError> {
    let (fields, _) = read_match(alloc, &numbered_fields(mask, value))?;
    Ok(fields)
}

/// The key of a frame with this METADATA.
pub fn key_with(metadata: u64) -> Option<FieldKey> {
    Some(read(&TAGGED_TCP, 1, metadata).ok()?.key())
}

#[derive(Drop)]
struct Classify {
    lookup: MaskGroups,
    keys: Vec<FieldKey>,
}

impl Timed for Classify {
    fn call(&mut self, turn: u64) -> u64 {
        match self.keys.get((turn % KEYS) as usize) {
            Some(key) => {
                let (winner, probes) = self.lookup.find(key);
                (winner.unwrap_or(ENTRIES as usize) as u64).wrapping_add(probes as u64)
            }
            None => 0,
        }
    }
}

/// The keys of frames whose low 16 bits of METADATA are those of some entry.
pub fn keys(alloc: Global) -> Result<Vec<FieldKey>, AllocError> {
    let mut keys = Vec::new(alloc);
    let mut number = 1u64;
    for _ in 0..KEYS {
        number = following(number);
        if let Some(key) = key_with((number >> 32) % ENTRIES) {
            keys.push(key)?;
        }
    }
    Ok(keys)
}

/// 4,096 entries over some masks, of the same priority, or of a lower one for each mask.
pub fn entries<L: Lookup>(alloc: Global, masks: u8, falling: bool) -> Option<L> {
    let mut lookup = L::empty(alloc, 0).ok()?;
    for value in 0..4096u16 {
        let mask = (value % u16::from(masks.max(1)) % 256) as u8;
        let priority = if falling {
            300u16.saturating_sub(u16::from(mask))
        } else {
            10
        };
        lookup
            .add(numbered_match(alloc, mask, value).ok()?, priority)
            .ok()?;
    }
    Some(lookup)
}

fn time_masks(rt: &HostRuntime, name: &str, masks: u8, falling: bool) -> io::Result<()> {
    let (Some(lookup), Ok(keys)) = (
        entries::<MaskGroups>(rt.alloc(), masks, falling),
        keys(rt.alloc()),
    ) else {
        return println!(rt; "{name}: no memory");
    };
    time(rt, name, &mut Classify { lookup, keys })
}

/// `find` among 4,096 entries over some masks.
pub fn time_classify(rt: &HostRuntime) -> io::Result<()> {
    time_masks(rt, "classify, 1 mask", 1, false)?;
    time_masks(rt, "classify, 4", 4, false)?;
    time_masks(rt, "classify, 16", 16, false)?;
    time_masks(rt, "classify, 32", 32, false)?;
    time_masks(rt, "classify, 64", 64, false)?;
    time_masks(rt, "classify, 32 of falling priority", 32, true)
}
