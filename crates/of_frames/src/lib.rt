//! The shapes of frames: which headers a frame may have, and so which fields (OpenFlow 1.3.5, 7.2.3.7 and 7.2.3.8); and frames with given fields, the
//! inverse of reading.
#![tactic(auto)]

mod bits;
mod frame;
mod laws;
mod packets;
mod shape;
mod shape_laws;
mod sums;

pub use frame::frame_of;
pub use laws::{checksums_are_right, frames_have_their_fields, known_packets_have_frames};
pub use shape::{PRESENT, Rule, Shape, Tagging};
pub use shape_laws::{frames_have_shapes, tags_are_seen};
