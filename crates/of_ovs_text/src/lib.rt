//! The groups and flows of a configuration as lines that `ovs-ofctl` reads.
#![tactic(auto)]

mod actions;
mod cutting;
mod fields;
mod flow;
mod flows;
mod group;
mod groups;
mod lengths;
mod lines;
mod message_words;
mod no_message;
mod packet_out;
mod parts;
mod short;
mod writing;

pub use lines::ovs_text;
pub use message_words::message_bytes;
pub use no_message::NoMessage;
