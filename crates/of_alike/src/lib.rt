//! What two switches have in common: their entries, groups and ports, and what their runs emit.
#![tactic(auto)]

mod alike;
mod continuing;
mod emissions;
mod groups;
mod ingress;
mod leaving;
mod ports;
mod sending;
mod tables;

pub use alike::{Compared, Where, first_difference};
pub use continuing::{are_tasks_from, go_on_alike, have_equal_tasks};
pub use emissions::is_same_emission;
pub use groups::have_same_groups;
pub use leaving::{leave_alike, other_ingress};
pub use ports::have_same_ports;
pub use sending::rewrites;
pub use tables::{Changed, changed_entries, has_such_entry, have_same_entries};
