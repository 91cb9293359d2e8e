//! Replies to requests for statistics and descriptions: MULTIPART_REPLY (OpenFlow 1.3.5, 7.3.5).
#![tactic(auto)]

mod aggregate;
mod description;
mod flows;
mod groups;
mod laws;
mod ports;
mod references;
mod replies;
mod tables;
mod writing;

pub use aggregate::aggregate_reply;
pub use description::description_reply;
pub use flows::flow_replies;
pub use groups::{group_description_replies, group_features_reply, group_replies};
pub use laws::pieces_are_whole;
pub use ports::{description_of, port_description_reply, port_stats_reply};
pub use tables::table_reply;
