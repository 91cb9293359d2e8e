//! What `check` is asked for.

use crate::command::{Argument, COLOR, Kind};
use crate::{
    Check, CheckOutput, NoRequest, SwitchFile, refused, steps_of, switch_file_of, text_of,
};
use clap::ArgMatches;
use std::alloc::Global;

/// What the help of `check` says.
pub(crate) const CHECKS: &str =
    "FILE is a flow text (`ofswitch asm --help`), an event file (`ofswitch replay
--help`), or what ovs-ofctl prints (`ofswitch import --help`). The first word
that is not in a comment says which; --flows, --events and --ovs override this.
The report has first what was found, then a summary, then, with --all, the
flows that win, each with a packet. A flow of a dump is named with its
counters, such as n_packets=0.

  table 0 entry 2 (line 7, priority 5, ipv4_dst 10.1.0.0/16) never wins: ...
      table 0 entry 0 (line 1, priority 9, ipv4_dst 10.0.0.0/8)
  table 3 is unreachable: no goto leads to it from table 0
  12 flows: 9 win, 3 never win, 0 undecided

The entries that shadow a flow have precedence and match together all that it
matches, whatever the frame, the port and the metadata. A flow is undecided if
the search ended after N steps. Whether packets reach a flow also depends on
the tables before it. A table without a table-miss entry is reported if a goto
leads to it, or with --all. A flow that is not reported does not necessarily do
what was intended.

With --require, each line of REQ is a requirement of the switch, which is
proved for all frames that it receives:

  no frame ip,nw_src=10.0.9.0/24 leaves by 2,3,4
  each frame in_port=1,ip,nw_dst=10.0.1.0/24 leaves by 2 except ttl
  each frame in_port=1,ip leaves only by 2,3,controller
  each frame ip passes table 1
  some frame in_port=1,tcp,tp_dst=80 leaves by 2

Exit status: 4 if something is found: a flow that never wins or is undecided, a
likely mistake, or a requirement that fails; 5 if nothing is found and a
requirement is undecided; 0 if nothing is found.

  ofswitch check examples/office.txt
  ofswitch check --all examples/router.flows
  ofswitch check --all --words examples/router.flows
  ofswitch check --json examples/router.flows
  ofswitch check examples/office.txt --require examples/office.req";

/// The arguments of `check`.
pub(crate) const CHECK: [Argument; 12] = [
    Argument {
        name: "FILE",
        kind: Kind::Place,
        help: "The file to check; - is standard input",
    },
    Argument {
        name: "flows",
        kind: Kind::Alternative("flows", "FILE"),
        help: "The flow text to check; - is standard input",
    },
    Argument {
        name: "events",
        kind: Kind::Alternative("events", "FILE"),
        help: "The event file whose rows make the flows to check; - is standard input",
    },
    Argument {
        name: "ovs",
        kind: Kind::Alternative("ovs", "FILE"),
        help: "The dump or file of ovs-ofctl to check; - is standard input",
    },
    Argument {
        name: "words",
        kind: Kind::Flag("words"),
        help: "With --all, print packets as words that `trace` takes",
    },
    Argument {
        name: "all",
        kind: Kind::Flag("all"),
        help: "Print the report with all remarks and the flows that win",
    },
    Argument {
        name: "json",
        kind: Kind::Flag("json"),
        help: "Print the report as JSON (docs/JSON.md), with all remarks and all flows",
    },
    Argument {
        name: "steps",
        kind: Kind::Optional("steps", "N"),
        help: "Leave a flow undecided after N steps (by default 100000)",
    },
    Argument {
        name: "require",
        kind: Kind::Optional("require", "REQ"),
        help: "Prove the requirements of this file, or print a frame that shows that one fails (docs/REQUIRE.md)",
    },
    Argument {
        name: "junit",
        kind: Kind::Optional("junit", "XML"),
        help: "With --require, also write the verdicts to this file, as JUnit writes test results",
    },
    Argument {
        name: "ports",
        kind: Kind::Optional("ports", "LIST"),
        help: "The ports of the switch of FILE, such as 1-8,100 (by default 1 to 4 and those that its flows and groups name)",
    },
    COLOR,
];

// Which report is printed.
fn output_of(matches: &ArgMatches<'_>) -> CheckOutput {
    if matches.get_flag("json") {
        return CheckOutput::Json;
    }
    match (matches.get_flag("all"), matches.get_flag("words")) {
        (true, true) => CheckOutput::AllInWords,
        (true, false) => CheckOutput::All,
        (false, _) => CheckOutput::Report,
    }
}

// Whether two files are both standard input.
fn is_input_twice(of: &SwitchFile, require: &Option<String>) -> bool {
    match require {
        Some(path) => of.path.as_str() == "-" && path.as_str() == "-",
        None => false,
    }
}

/// What is checked, and how. Refused are verdicts without requirements, and standard input as both files.
pub(crate) fn check_of(alloc: Global, matches: &ArgMatches<'_>) -> Result<Check, NoRequest> {
    if matches.get_str("junit").is_some() && matches.get_str("require").is_none() {
        return Err(refused(
            alloc,
            "bad --junit: there are no verdicts without --require\n",
        )?);
    }
    let of = switch_file_of(alloc, matches)?;
    let require = text_of(alloc, matches.get_str("require"))?;
    if is_input_twice(&of, &require) {
        return Err(refused(
            alloc,
            "bad --require: the file and its requirements cannot both be standard input\n",
        )?);
    }
    Ok(Check {
        of,
        steps: steps_of(alloc, matches.get_str("steps"))?,
        output: output_of(matches),
        require,
        junit: text_of(alloc, matches.get_str("junit"))?,
    })
}
