//! Flow text as event files: what a controller sends to build the flow tables of a configuration on a new switch.
#![tactic(auto)]

mod building;
mod listing;

pub use building::{build, push_hex};
pub use listing::{group_text, messages};
