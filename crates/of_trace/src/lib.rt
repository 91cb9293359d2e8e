//! The tracer: why a frame went where it went.
#![tactic(auto)]

mod fields;
mod form;
mod json;
mod laws;
mod notes;
mod noting;
mod packets;
mod printing;
mod reasons;
mod sight;
mod tracing_file;
mod unsent;
mod words;
mod writing;

pub use form::{Asked, Form, Output, Style};
pub use json::print_json;
pub use laws::{notes_only_add, steps_tell_packets, traces_come_whole};
pub use noting::explain;
pub use printing::{print, print_words, push_step};
pub use sight::Sight;
pub use tracing_file::{TRACED_PORTS, trace_file};
pub use words::{push_heading, push_words_line};
pub use writing::{trace_text, write_trace};
