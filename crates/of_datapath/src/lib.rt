//! The datapath: the flow tables, the groups, the ports and the held frames, and what frames and a controller's commands do to them (OpenFlow 1.3.5, 2 and 5).
#![tactic(auto)]

mod commands;
mod configuring;
mod control;
mod datapath;
mod dry_run;
mod effect;
mod held_frame;
mod held_frames;
mod laws;
mod loading;
mod port_status;
mod reception;
mod removal;
mod statistics;
mod told;

pub use commands::{any_to_absent_group, flow_from, has_flag, names_absent_group, which_from};
pub use configuring::config_from;
pub use control::{AsyncConfig, Control};
pub use datapath::Datapath;
pub use effect::{Effect, Effects};
pub use held_frame::HeldFrame;
pub use held_frames::{HeldFrames, following_id};
pub use laws::{
    an_id_serves_until_used, at_most_256_are_held, forgotten_frames_serve_never,
    frames_have_ids_of_their_own,
};
pub use loading::load_tables;
pub use port_status::{write_change, write_status};
pub use removal::Removal;
pub use statistics::{answers, asked_by, asks_absent_port};
