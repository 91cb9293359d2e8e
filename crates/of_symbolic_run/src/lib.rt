//! A run of the switch for all frames of a part at once: its states, the steps that are the same for each frame, and which frames a switch receives
//! (OpenFlow 1.3.5, 5.1).
#![tactic(auto)]

mod advance;
mod copying;
mod decrementing;
mod dividing;
mod entering;
mod finding;
mod frame_set;
mod frames;
mod grouped;
mod grouping;
mod joint;
mod known_ttl;
mod laws;
mod metadata;
mod popping;
mod ports;
mod received;
mod reception;
mod rewrites;
mod served;
mod side;
mod state;
mod stepping;
mod ttl_frames;
mod written;

pub use advance::{Advance, advance_state};
pub use decrementing::divide_by_ttl;
pub use dividing::{Case, listed_entries, look_up};
pub use finding::FrameFound;
pub use frame_set::FrameSet;
pub use grouping::run_group;
pub use joint::{JointCase, look_up_both};
pub use laws::ended_states_give_runs;
pub use metadata::any_about_metadata;
pub use popping::pops_tags;
pub use ports::{absent_ports, ingress_condition, receiving_port};
pub use received::received_state;
pub use reception::received_frames;
pub use rewrites::Rewrites;
pub use served::{ServedAction, ServedInstruction};
pub use side::{Side, step_side};
pub use state::{Emission, SymbolicPacket, SymbolicState, SymbolicTask, Work};
pub use written::Written;
