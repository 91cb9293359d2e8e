//! The match fields of OpenFlow 1.3.5 and the layers of a frame, as definitions: what the fields are, how layers are encoded, and that a frame has exactly one reading.
#![tactic(auto)]

mod field;
mod laws;
mod place;
mod transport;

pub use field::{Field, FieldRow, Prerequisite};
pub use laws::{encoded_by_one, number_names_field};
pub use place::Place;
pub use transport::Transport;
