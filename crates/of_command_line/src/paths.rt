//! Which frames `paths` divides, and when they are given up.

use crate::received::port_of;
use crate::{FileKind, NoRequest, SwitchFile, number_in, ovs_reading_of, port_list_of, refused};
use clap::ArgMatches;
use of_wire::limits::OFPP_MAX;
use std::alloc::Global;

const DEFAULT_STEPS: u32 = 100_000;

/// Which frames are divided, and how.
#[derive(PartialEq, Eq, Drop)]
pub struct PathsAsked {
    pub of: SwitchFile,
    /// Only frames that come in by this port, 1 to 0xffffff00.
    pub port: Option<u32>,
    /// Only frames that these words match; empty words match each frame.
    pub within: String,
    /// Whether each set of frames is a path of its own.
    pub each: bool,
    /// Only paths that lead there are printed.
    pub to: Option<Leading>,
    /// After how many of them frames are given up.
    pub steps: u32,
    /// Whether it is one JSON document.
    pub json: bool,
}

/// Where paths lead.
#[derive(Clone, Copy, PartialEq, Eq)]
pub enum Leading {
    /// Out of this port, 1 to 0xffffff00.
    Port(u32),
    Controller,
    /// Nothing leaves.
    Drop,
}

fn leading_of(alloc: Global, word: Option<&str>) -> Result<Option<Leading>, NoRequest> {
    match word {
        None => Ok(None),
        Some("controller") => Ok(Some(Leading::Controller)),
        Some("drop") => Ok(Some(Leading::Drop)),
        Some(word) => match number_in(word) {
            Some(port) if port >= 1 && port <= OFPP_MAX => Ok(Some(Leading::Port(port))),
            _ => Err(refused(alloc, "bad --to: a port number, controller or drop\n")?),
        },
    }
}

/// The words of `paths`.
pub(crate) fn paths_of(alloc: Global, matches: &ArgMatches<'_>) -> Result<PathsAsked, NoRequest> {
    let port = match matches.get_str("N") {
        None => None,
        Some(word) => Some(port_of(alloc, FileKind::Guessed, number_in(word))?),
    };
    Ok(PathsAsked {
        of: SwitchFile {
            path: matches.get_str("FILE").unwrap_or("-").to_string(alloc)?,
            kind: FileKind::Guessed,
            ports: port_list_of(alloc, matches.get_str("ports"))?,
            reading: ovs_reading_of(alloc, matches)?,
        },
        port,
        within: matches.get_str("match").unwrap_or("").to_string(alloc)?,
        each: matches.get_flag("each"),
        to: leading_of(alloc, matches.get_str("to"))?,
        steps: steps_of(alloc, matches.get_str("steps"))?,
        json: matches.get_flag("json"),
    })
}

pub(crate) fn steps_of(alloc: Global, word: Option<&str>) -> Result<u32, NoRequest> {
    let Some(word) = word else {
        return Ok(DEFAULT_STEPS);
    };
    match number_in(word) {
        Some(steps) => Ok(steps),
        None => Err(refused(alloc, "bad steps: a 32-bit number\n")?),
    }
}
