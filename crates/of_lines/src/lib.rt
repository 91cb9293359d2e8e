//! The lines of flow text: the words of each line, and the order of lines.
#![tactic(auto)]

mod lines;
mod names;
mod notes;
mod numbers;
mod order;
mod reading;
mod row;
mod writing;

pub use lines::{cut, is, is_passed_over};
pub use notes::{begin_note, end_note, push_note};
pub use numbers::push_number;
pub use order::{Place, following};
pub use reading::read_row;
pub use row::{BucketHead, FlowHead, GroupHead, Row};
pub use writing::{push_row, push_value};
