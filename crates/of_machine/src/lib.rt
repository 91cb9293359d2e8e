//! The instruction machine: what a packet meets on its way through flow tables and groups (OpenFlow 1.3.5, 5.1).
#![tactic(auto)]

mod data;
mod emit;
mod laws;
mod machine;
mod packet_frame;
mod runs;
mod tables;
mod world;

pub use data::{Count, Counts, Item, Items, Outcome, Packet, Step, ToController};
pub use laws::{
    every_run_ends, frames_stay_frames, frames_stay_short, numbers_are_names, packets_take_turns,
};
pub use of_groups::Chosen;
pub use of_wire::PacketInReason;
pub use packet_frame::{PacketFrame, rewrite_frame};
pub use runs::{run, run_actions};
pub use tables::is_miss;
pub use world::{NoLog, StepLog, Steps, World};
