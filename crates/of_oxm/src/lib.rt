//! Matches of flows: how they are encoded on the wire, what they match, cover and overlap (OpenFlow 1.3.5, 7.2.3).
#![tactic(auto)]

mod field_reading;
mod flow_match;
mod masks;
mod match_field;
mod normal_form;
mod prerequisites;
mod reading;
mod relations;
mod writing;

pub use flow_match::{Match, same_fields};
pub use masks::{FieldMask, agreeing_match_alike, key_of, mask_of, matched_is_seen};
pub use match_field::MatchField;
pub use of_wire::{Code, ReadError};
pub use prerequisites::{is_met, prerequisites_met};
pub use reading::{one_code, one_encoding, read_match};
pub use relations::{
    agrees, bits_of, covered_has_prerequisites, covered_is_matched, covers, first_difference,
    matched_is_covered, matches, normal_form_is_meant, overlap_is_common_match, overlaps,
};
pub use writing::{put_match, write_match};
