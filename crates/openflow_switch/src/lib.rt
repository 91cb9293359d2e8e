//! The switch as a library: all that a program needs that has an OpenFlow 1.3.5 switch inside.
//!
//! `OpenFlowSwitch` is the switch with the classifier of `ofswitch`. Its calls (`frame`, `feed` and `next`, `port_change`, `moment`) return their
//! effects; `run` does events in any order, and its contract is the abstract switch's run. crates/of_example is a whole program.
#![tactic(auto)]

use of_cache::Cached;
use of_mask_groups::MaskGroups;
pub use of_switch::{Effect, Effects, Event, PortChange, Report, Switch, SwitchError};
pub use of_text::{Config, assemble, disassemble};
pub use of_wire::Bytes;

/// A switch that looks entries up in rows of answers over one map for each distinct mask.
pub type OpenFlowSwitch = Switch<Cached<MaskGroups>>;
