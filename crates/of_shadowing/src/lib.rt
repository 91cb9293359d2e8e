//! Which flows of a file of ovs-ofctl never win a lookup, if match fields that OpenFlow 1.3 does not have are conditions of their own.
#![tactic(auto)]

mod conditions;
mod laws;
mod leads;
mod line_words;
mod listed_flow;
mod listing;
mod reached;
mod rivals;
mod ties;
mod verdicts;

pub use laws::{never_wins_nowhere, plain_flows_are_entries};
pub use leads::Leads;
pub use listed_flow::ListedFlow;
pub use listing::{Listing, read_listing};
pub use reached::unreachable_tables;
pub use verdicts::{check_flow, check_flows};
