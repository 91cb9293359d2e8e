//! Frames, and conditions on them, in the words of Open vSwitch (ovs-vswitchd(8), ofproto/trace; ovs-fields(7)).
#![tactic(auto)]

mod conditions;
mod fields;
mod frame;
mod laws;
mod printed;
mod said;
mod why;
mod words;

pub use conditions::read_conditions;
pub use fields::match_of;
pub use frame::{Received, read_frame};
pub use laws::frames_have_what_words_say;
pub use printed::frame_words;
pub use why::{NoFrame, Refusal, Why};
pub use words::is_frame_words;
