//! Event files explained: what each row did, in words, and questions about the switch, answered while its rows are played.
#![tactic(auto)]

mod answering;
mod effects;
mod explaining;
mod fields;
mod folding;
mod frames;
mod json_rows;
mod laws;
mod messages;
mod names;
mod notes;
mod question;
mod replies;
mod requests;
mod rows;
mod said;
mod saying;
mod told;

pub use answering::Answering;
pub use explaining::{explain, explain_json};
pub use fields::{Field, Form};
pub use folding::Folding;
pub use frames::push_frame_notes;
pub use json_rows::ExplainingJson;
pub use laws::each_message_is_told;
pub use messages::push_message;
pub use names::Names;
pub use requests::push_request;
pub use rows::Explaining;
pub use saying::say_messages;
