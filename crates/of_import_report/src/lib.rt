//! The outcome of an import as JSON, and the lines of flow entries in a table of Open vSwitch.
#![tactic(auto)]

mod answer;
mod document;
mod edits;
mod help;
mod items;
mod keywords;
mod listing;
mod origins;
mod refusals;
mod whys;

pub use answer::{Answer, import_as_json};
pub use document::left_out;
pub use help::{help_of, reason_of};
pub use listing::fault_lines;
pub use origins::table_origins;
pub use whys::why_words;
