//! For tests: rows of a text; peers, a clock and a network in memory, which follow a script and record what passes.
#![tactic(auto)]

pub mod network;
pub mod peers;
pub mod rows;
