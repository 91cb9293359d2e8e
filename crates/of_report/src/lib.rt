//! The report of `check`: which flow entries never win, and other likely mistakes, in words or as JSON.
#![tactic(auto)]

mod counting;
mod entries;
mod json;
mod json_entries;
mod json_remarks;
mod packets;
mod remarks;
mod report;
mod reporting;
mod shadowing;
mod words;

pub use entries::push_entry;
pub use json_entries::push_entry_object;
pub use of_values::Origin;
pub use reporting::{Form, write_report};
pub use shadowing::write_flow_report;
