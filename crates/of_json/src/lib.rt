//! Texts of JSON (RFC 8259), and what leaves a switch, in words and as JSON. Strings of our own words need no escape: letters, digits and signs of
//! ASCII other than quotation marks and backslashes. Strings of other words may have any bytes.
#![tactic(auto)]

mod altered;
mod changes_json;
mod changes_words;
mod counters;
mod hits;
mod items;
mod json_items;
mod lines;
mod listing;
mod matches;
mod parts;
mod strings;
mod undecided;

pub use altered::{Change, Property, changes};
pub use changes_json::push_changes_member;
pub use changes_words::{item_frame, push_changed_side};
pub use counters::push_counters_member;
pub use hits::{Hit, hits_among};
pub use items::{push_frame_lines, push_side};
pub use json_items::{push_controller_place, push_items_member, push_port_place};
pub use lines::push_line_strings;
pub use listing::{push_array_member, push_listed};
pub use matches::push_match_object;
pub use parts::{
    push_bytes_member, push_document_head, push_hex_member, push_key, push_number_member,
    push_quoted, push_text_member, push_truth, push_truth_member,
};
pub use strings::{begin_array, push_string, push_string_member};
pub use undecided::{push_undecided_count, push_undecided_sets};
