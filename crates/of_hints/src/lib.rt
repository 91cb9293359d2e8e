//! What is wrong with a line of an event file or of a flow text, in words, for the person who wrote it.
#![tactic(auto)]

mod action_lines;
mod forms;
mod hint;
mod laws;
mod layout;
mod marked;
mod saying;
mod seen;
mod sentences;
mod stream;
mod values;
mod words;

pub use forms::{EVENT_ROWS, FLOW_LINES, Form, Word};
pub use hint::{Hint, event_row_hint, flow_line_hint, import_hint};
pub use laws::refusals_have_sentences;
pub use marked::{Marked, Place};
pub use saying::{end, end_file, say_refusal};
pub use seen::{Seen, Watched, line_in};
pub use sentences::refusal_sentence;
pub use stream::{OutputReader, Stream};
