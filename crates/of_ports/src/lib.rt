//! The ports of a switch: their configuration, their state and what they count (OpenFlow 1.3.5, 4.1, 5.8 and 7.2.1).
#![tactic(auto)]

mod config;
mod counters;
mod editing;
mod port;
mod ports;

pub use config::PortConfig;
pub use counters::{PortCount, PortCounters};
pub use port::{Port, find_port};
pub use ports::Ports;
