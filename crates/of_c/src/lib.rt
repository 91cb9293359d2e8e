//! The switch for programs in other languages: a static library of calls from bytes to bytes, for C and all that calls C
//! (embed/ofswitch.h, docs/EMBED.md).
//!
//! Each call gives what the command of its name prints, as JSON or in words where that command has both. The text goes into a buffer of the caller, as
//! much of it as there is room for, and its length, a status and the line at fault into an [`Answer`]. No call keeps anything, except those on a living
//! switch, which is in memory of the caller.
#![tactic(auto)]

mod answer;
mod check;
mod diff;
mod import;
mod live;
mod living;
mod paths;
mod replay;
mod require;
mod switch;
mod trace;
mod words;

pub use answer::Answer;
pub use check::ofswitch_check;
pub use diff::ofswitch_diff;
pub use import::ofswitch_import;
pub use living::{
    ofswitch_begin, ofswitch_end, ofswitch_feed, ofswitch_frame, ofswitch_moment, ofswitch_row,
    ofswitch_size,
};
pub use paths::ofswitch_paths;
pub use replay::{ofswitch_explain, ofswitch_replay};
pub use require::ofswitch_require;
pub use trace::ofswitch_trace;
pub use words::ofswitch_frame_in_words;
