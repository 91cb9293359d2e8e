//! A switch that serves controllers: turns of accepting, reading and writing.
#![tactic(auto)]

mod gathering;
mod laws;
mod peers;
mod rows;
mod serving;
mod turns;

pub use gathering::{push_answers, waits};
pub use laws::connections_take_prefixes;
pub use peers::{Accepted, Clock, Peers};
pub use rows::Rows;
pub use serving::{serve, serve_on};
