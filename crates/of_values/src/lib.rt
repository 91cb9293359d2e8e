//! Values of match fields and flow entries in words, as people who run networks write them.
#![tactic(auto)]

mod addresses;
mod characters;
mod digits;
mod each;
mod entries;
mod form;
mod ipv6;
mod lines;
mod origins;
mod ports;
mod prefixes;
mod values;

pub use characters::{printable, push_printable};
pub use digits::{push_decimal, push_hexadecimal};
pub use each::push_each;
pub use entries::{push_entry_words, push_field_words};
pub use form::{Form, form_of};
pub use lines::{Part, put};
pub use origins::{Origin, push_counter_words};
pub use ports::push_port;
pub use values::push_value_words;
