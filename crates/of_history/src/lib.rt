//! The history of what a switch shows: the messages, rows and times of an event file at which it changes.
#![tactic(auto)]

mod cause;
mod differing;
mod entries;
mod expiring;
mod fate;
mod laws;
mod marks;
mod objects;
mod reason;
mod sight;
mod telling;
mod view;
mod watching;
mod way;

pub use cause::{By, Cause};
pub use differing::LineByLine;
pub use entries::{EntriesView, EntryFilter};
pub use fate::FrameView;
pub use laws::fates_between;
pub use objects::InJson;
pub use reason::Reason;
pub use sight::Sight;
pub use telling::{ChangeTeller, InWords};
pub use view::View;
pub use watching::{LogHistory, history};
pub use way::{FoundStep, WaySight, Winner};
