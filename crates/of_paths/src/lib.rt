//! The paths of all frames that a switch receives, in classes.
#![tactic(auto)]

mod classing;
mod conditions;
mod destination;
mod dividing;
mod each_port;
mod laws;
mod path;
mod stepping;
mod ways;

pub use conditions::ingress_conditions;
pub use destination::Destination;
pub use dividing::paths;
pub use each_port::{paths_of_each_port, paths_of_port};
pub use laws::frames_of_one_way_go_alike;
pub use path::{Merging, Path, PathClass, Paths, UndecidedFrames, WhyUndecided};
pub use ways::is_same_way;
