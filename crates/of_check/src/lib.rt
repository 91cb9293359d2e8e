//! Which flow entries can never win a lookup, and likely mistakes in tables and groups.
#![tactic(auto)]

mod actions;
mod checking;
mod finding;
mod groups;
mod laws;
mod outline;
mod remark;
mod remark_laws;
mod remarks;
mod rivals;
mod search;
mod tables;
mod ties;
mod verdict;

pub use actions::required_port;
pub use checking::{check, is_never};
pub use finding::Finding;
pub use laws::{
    fields_go_together, last_actions_are_unseen, never_is_never,
    nothing_leaves_by_the_ingress_port, runs_stay_at_reached_tables,
};
pub use remark::Remark;
pub use remark_laws::reached_by_ways;
pub use remarks::remarks_on;
pub use search::check_entry;
pub use verdict::Verdict;
