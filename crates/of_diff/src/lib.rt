//! Which frames two switches treat differently.
#![tactic(auto)]

mod agreement;
mod changing;
mod cutting;
mod difference;
mod differing;
mod ending;
mod gathering;
mod joining;
mod laws;
mod pair;
mod revealing;
mod stepping;
mod turns;

pub use difference::{Difference, Differences, EmittedByBoth, Undecided, Why};
pub use differing::differences;
pub use laws::controllers_are_told_alike;
