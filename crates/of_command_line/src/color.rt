//! When a report is printed in color.

use crate::{NoRequest, refused};
use std::alloc::Global;

/// When a report in words has colors.
#[derive(Clone, Copy, PartialEq, Eq)]
pub enum Colors {
    /// If standard output is a terminal, and the environment has no NO_COLOR.
    Auto,
    Always,
    Never,
}

/// What --color says.
pub(crate) fn colors_of(alloc: Global, word: Option<&str>) -> Result<Colors, NoRequest> {
    match word {
        None | Some("auto") => Ok(Colors::Auto),
        Some("always") => Ok(Colors::Always),
        Some("never") => Ok(Colors::Never),
        Some(_) => Err(refused(alloc, "bad color: auto, always or never\n")?),
    }
}
