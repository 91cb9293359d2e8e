//! How what ovs-ofctl prints is read: the options of each command that reads it.

use crate::command::{Argument, Kind};
use crate::{NoRequest, refused, text_of};
use clap::ArgMatches;
use std::alloc::Global;

/// How what ovs-ofctl prints is read.
#[derive(PartialEq, Eq, Drop)]
pub struct OvsReading {
    /// Whether lines that the switch cannot take are left out.
    pub skip: bool,
    /// Whether tables get the numbers 0 to 15.
    pub renumber: bool,
    /// What `ovs-ofctl dump-ports-desc` prints, for the names of ports.
    pub port_names: Option<String>,
}

impl OvsReading {
    /// The option that another file does not have, if there is one: then nothing is left out, and no table gets another number.
    pub fn own_option(&self) -> Option<&'static str> {
        match (self.skip, self.renumber) {
            (true, _) => Some("--skip"),
            (false, true) => Some("--renumber"),
            (false, false) => None,
        }
    }
}

/// The arguments of each command that reads what ovs-ofctl prints.
pub(crate) const OVS_READING: [Argument; 3] = [
    Argument {
        name: "skip",
        kind: Kind::Flag("skip"),
        help: "Leave out lines of what ovs-ofctl prints that this switch refuses, and actions to NORMAL and LOCAL",
    },
    Argument {
        name: "renumber",
        kind: Kind::Flag("renumber"),
        help: "Give the tables in what ovs-ofctl prints the numbers 0 to 15, in their order",
    },
    Argument {
        name: "port-names",
        kind: Kind::Optional("port-names", "FILE"),
        help: "Read names of ports in what ovs-ofctl prints as the numbers in FILE, which `ovs-ofctl dump-ports-desc` prints",
    },
];

// The file with the names of ports, which is no standard input.
fn port_names_of(alloc: Global, matches: &ArgMatches<'_>) -> Result<Option<String>, NoRequest> {
    match matches.get_str("port-names") {
        Some("-") => Err(refused(
            alloc,
            "bad --port-names: it is a file, not standard input\n",
        )?),
        path => Ok(text_of(alloc, path)?),
    }
}

/// What these arguments say.
pub(crate) fn ovs_reading_of(
    alloc: Global,
    matches: &ArgMatches<'_>,
) -> Result<OvsReading, NoRequest> {
    Ok(OvsReading {
        skip: matches.get_flag("skip"),
        renumber: matches.get_flag("renumber"),
        port_names: port_names_of(alloc, matches)?,
    })
}
