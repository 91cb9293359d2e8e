//! The structs of the OpenFlow channel as tables of their fields, and what follows from a table; and the table of its messages.
#![tactic(auto)]

mod laws;
pub mod messages;

pub use laws::{messages_have_their_sizes, structs_are_read_and_written};
pub use messages::{MessageRow, Size, Way, message_name, message_row};
