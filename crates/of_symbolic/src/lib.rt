//! Packets that actions rewrote, in terms of the frame that came in, and what a lookup does with all of them (OpenFlow 1.3.5, 5.3 and 5.12).
#![tactic(auto)]

mod asking;
mod branching;
mod laws;
mod overlay;
mod part;
mod pulled_entry;
mod pulling;

pub use branching::{Branch, branches};
pub use laws::{overlays_show_views, pulled_matches_are_of_frames, rewritten_frames_have_views};
pub use overlay::{Overlay, PushedTag, ReceivedTag, TagNumber};
pub use part::Part;
pub use pulling::{Pulled, pull};
