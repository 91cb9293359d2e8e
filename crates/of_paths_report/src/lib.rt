//! The report of `paths`: which steps the frames that a switch receives take, in words or as JSON.
#![tactic(auto)]

mod asked;
mod classes;
mod destination;
mod hits;
mod json;
mod json_hits;
mod laws;
mod undecided;
mod writing;

pub use asked::Asked;
pub use laws::told_frames_are_those_that_go_there;
pub use of_paths::Destination;
pub use writing::{PathsForm, PathsVerdict, write_paths};
