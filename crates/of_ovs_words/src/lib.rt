//! The keywords of Open vSwitch's flow syntax (ovs-ofctl(8), ovs-fields(7), ovs-actions(7)): what each means in a match or as an action.
#![tactic(auto)]

mod action_word;
mod actions;
mod field_word;
mod head_word;
mod ipv6;
mod keywords;
mod laws;
mod lists;
mod numbers;
mod port;
mod port_word;
mod protocol_word;
mod setting;
mod settings;
mod stop;
mod tci;
mod values;
mod why;
mod words;

pub use action_word::{ActionWord, Verb};
pub use actions::{drops, push_action, push_actions};
pub use field_word::{FieldWord, Form, Target, text_for};
pub use head_word::{HeadWord, Part};
pub use laws::each_field_has_a_word;
pub use numbers::numbered;
pub use port::port_in;
pub use port_word::PortWord;
pub use protocol_word::ProtocolWord;
pub use settings::{fields_of, set_field, set_protocol};
pub use stop::Stop;
pub use why::Why;
pub use words::{cut_word, is_gap, name_of, value_of};
