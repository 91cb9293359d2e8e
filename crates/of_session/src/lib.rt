//! The controller's side of a switch: the stream of its messages, and the phase of its connection.
#![tactic(auto)]

mod session;
mod stream;

pub use session::{Next, Phase, Session};
pub use stream::{Beginning, Stream, splits_once};
