//! Laws about the definitions of the crates below, to compare them with: each of their functions' contracts is a theorem, and its body is
//! empty. A law on one crate's own values is in that crate. And the messages of a controller as bytes, and configurations as such messages.
//!
//! `fields` has laws of the fields of frames, `rewritten` of those that a lookup sees of a frame once an action has rewritten it. `messages` and
//! `written_messages` join the grammar of messages to what reads them and to what writes them: which bytes encode which message is in specs/Grammar
//! for a controller's and in specs/Told for the switch's, apart from both. `replies` does so for multipart replies (specs/Replied), and says that no
//! message of either side begins another. `round_trip` has what holds of a file that is written for a flow text, when it is run (specs/RoundTrip).
//! `config_laws` says that the messages of a configuration give it back (specs/Built). `standard` compares the tables that code and definitions
//! read with the numbers of the standard, which are written apart from them (specs/Standard).
#![tactic(auto)]

mod building;
mod config_laws;
mod fault;
mod fields;
mod flow_mod;
mod group_mod;
mod header;
mod messages;
mod multipart;
mod packet_out;
mod replies;
mod rewritten;
mod round_trip;
mod sending;
mod small;
mod sound;
mod standard;
mod write_error;
mod writing;
mod written_messages;

pub use building::build;
pub use config_laws::{
    each_is_taken_or_the_first_is_named, messages_by_number_build_it, messages_give_it_back,
};
pub use fault::ConfigFault;
pub use fields::{fields_of_every_frame, values_within_their_bits};
pub use messages::{
    action_types_are_all, actions_are_structs, instructions_are_structs,
    no_encoding_begins_another, one_message, read_as_exactly, read_exactly,
};
pub use replies::{
    no_message_begins_another, no_reply_begins_another, one_reply, written_replies_are_encoded,
};
pub use rewritten::{
    fields_after_pop, fields_after_push, fields_after_set, fields_after_ttl,
    fields_after_ttl_decremented,
};
pub use round_trip::{dis_undoes_asm, text_comes_back, texts_are_refused_as_messages};
pub use sending::config_of;
pub use standard::tables_are_of_the_standard;
pub use write_error::WriteError;
pub use writing::write_message;
pub use written_messages::{
    written_flow_mod_is_encoded, written_group_mod_is_encoded, written_is_told,
};
