//! The report of `diff`: which frames two switches treat differently, in words or as JSON.
#![tactic(auto)]

mod hits;
mod json;
mod region;
mod reserved;
mod telling;
mod words;
mod writing;

pub use hits::{DiffSide, FileFlows};
pub use writing::{DiffForm, DiffVerdict, write_differences};
