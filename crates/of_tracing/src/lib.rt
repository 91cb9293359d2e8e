//! The steps of a frame, and why an entry won or did not.
#![tactic(auto)]

mod explaining;
mod reason;
mod traces;
mod tracing;

pub use explaining::{why, why_where, winner_in};
pub use reason::Reason;
pub use traces::Trace;
pub use tracing::trace;
