//! Action sets (OpenFlow 1.3.5, 5.10).
#![tactic(auto)]

mod action_set;
mod laws;
mod rank;

pub use action_set::ActionSet;
pub use laws::{order_is_by_rank, set_is_map};
