//! The fields of a frame, as a lookup takes them, and where its layers begin.
#![tactic(auto)]

mod bytes;
mod chain;
mod digest;
mod fields;
mod headers;
mod key;
mod known;
mod layers;
mod layout;
mod mixer;
mod numbers;
mod place;
mod reading;
mod seeing;
mod transport;

pub use bytes::word_at;
pub use fields::same_fields;
pub use headers::{FrameFault, Headers, check_length, read, read_inside};
pub use key::FieldKey;
pub use known::Known;
pub use layout::{Layout, Network, Payload, is_tag, layout_in};
pub use mixer::Mixer;
pub use numbers::Numbers;
pub use of_layers::{Field, FieldRow, Place, Prerequisite, Transport, encoded_by_one};
