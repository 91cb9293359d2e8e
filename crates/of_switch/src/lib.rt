//! The switch: events to effects.
#![tactic(auto)]

mod event;
mod laws;
mod port_change;
mod switch;
mod switch_core;
mod switch_error;

pub use event::{Event, Report};
pub use laws::{
    chunk_handles_its_messages, ids_told_are_ids_held, interrupted_events_go_on, loaded_is_told,
    no_memory_changes_nothing, refusal_changes_nothing, two_chunks,
};
pub use of_datapath::{Effect, Effects};
pub use port_change::PortChange;
pub use switch::{Seed, Switch};
pub use switch_error::SwitchError;
