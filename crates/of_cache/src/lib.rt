//! A classifier that keeps what it found, by region.
#![tactic(auto)]

mod beaten;
mod cached;
mod cause;
mod dropping;
mod hashing;
mod keeping;
mod laws;
mod region;

pub use cached::Cached;
pub use laws::{
    any_history_answers_as_the_list, fresh_row_is_sound, meeting_is_common_map,
    regions_are_agreement, rows_stay_sound,
};
pub use region::{Region, Row};
