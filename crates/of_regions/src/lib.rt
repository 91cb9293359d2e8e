//! Regions of packets: the packets of one shape of which some bits are known (OpenFlow 1.3.5, 5.3 and 7.2.3.7), and a search in them for a packet that
//! one match matches and others do not.
#![tactic(auto)]

mod building;
mod dividing;
mod joining;
mod looking;
mod meeting;
mod narrowing;
mod region;
mod rival;
mod searching;
mod starting;
mod witness;

pub use meeting::Meeting;
pub use narrowing::narrowed;
pub use region::Region;
pub use rival::Rival;
pub use searching::{Found, search, search_among};
pub use starting::regions_of;
pub use witness::Packet;
