//! What `history` is about.

use crate::command::{Argument, COLOR, Kind};
use crate::received::received_of;
use crate::{FileKind, NoRequest, dpid_of, long_number_in, number_in, row_of};
use clap::ArgMatches;
use of_frame_words::{NoFrame, read_conditions};
use of_oxm::MatchField;
use of_wire::limits::TABLES;
use std::alloc::Global;

/// What the help of `history` says.
pub(crate) const HISTORIES: &str =
    "FILE is an event file (`ofswitch replay --help`), such as a log of `live`. Its
rows are played on a new switch, and after each message of the controller, each
change of a port and each time, the fate of the frame is looked at: the steps
that it would take and what would leave, if it were received then at that port.
Where the fate has changed, it says what happened, and both fates:

  in_port=2,dl_src=02:00:00:00:00:02,dl_dst=02:00:00:00:00:01
  line 14, message 1
      from the controller: FLOW_MOD xid 5 ADD table 0 priority 1 ...
      - table 0, priority 0, any packet
      ...
      - to the controller: no match, table 0: 020000000001...
      + table 0, priority 1, in_port 2, eth_dst 02:00:00:00:00:01
      ...
      + out by port 1: 020000000001...

Lines with - are of the fate before it, lines with + of the fate after it, and
lines without a mark of both. Between two changes that are printed the fate is
the same. The first fate is that on a switch without ports. Connections do not
matter: what goes to the controller is a packet, whether one is connected or
not. With --row the frame is the one of a row `f PORT HEX`, and the history
ends there: the last change says why the frame went where it went. FRAME and
--port are as `trace` takes them.

With --flow it is the history of flow entries: those whose match is at least as
specific as the words, such as ip,nw_dst=10.0.0.0/8. Words may also be table=N,
priority=N, and cookie=N or cookie=N/MASK. Each entry is a line, with - if it
went and + if it came: one that is modified or replaced has both. Counters do
not matter.

  line 30: t 9000000000
      - table 0, priority 1, in_port 2, cookie 0x0, idle 5, hard 0, flags 0, ...

  ofswitch history examples/moved-host.events \\
      in_port=2,dl_src=02:00:00:00:00:02,dl_dst=02:00:00:00:00:01
  ofswitch history examples/moved-host.events --row 21
  ofswitch history examples/moved-host.events \\
      --flow priority=1,dl_dst=02:00:00:00:00:01
  ofswitch history examples/failover.events \\
      --port 1 02000000000202000000000188b5";

/// Its arguments.
pub(crate) const HISTORY: [Argument; 8] = [
    Argument {
        name: "FILE",
        kind: Kind::Positional,
        help: "The event file, such as a log of `live`; - is standard input",
    },
    Argument {
        name: "FRAME",
        kind: Kind::Place,
        help: "The frame: two hexadecimal digits per byte, or words such as in_port=1,tcp,nw_src=10.0.0.1,tp_dst=80",
    },
    Argument {
        name: "row",
        kind: Kind::Alternative("row", "ROW"),
        help: "Take the frame of this line of the file, and play only the lines before it",
    },
    Argument {
        name: "flow",
        kind: Kind::Alternative("flow", "WORDS"),
        help: "The history of the flow entries that have these words, such as table=0,ip,nw_dst=10.0.0.0/8",
    },
    Argument {
        name: "N",
        kind: Kind::ExcludedByBoth("port", "N", "row", "flow"),
        help: "The port at which the frame is received. Words of FRAME may say it instead",
    },
    Argument {
        name: "dpid",
        kind: Kind::Optional("dpid", "N"),
        help: "The datapath_id, decimal or 0x and hexadecimal digits (by default 1)",
    },
    Argument {
        name: "json",
        kind: Kind::Flag("json"),
        help: "Print a JSON object for each change, in a line of its own (docs/JSON.md)",
    },
    COLOR,
];

/// Of what a history is.
#[derive(PartialEq, Eq, Drop)]
pub enum HistoryOf {
    /// Of this frame, at a port from 1 to 0xffffff00.
    Frame { port: u32, frame: Vec<u8> },
    /// Of the one of the row in this line, from 1, and only up to it.
    Row(u32),
    /// Of these flow entries.
    Entries(EntriesAsked),
}

/// Flow entries: those of a table, a priority and a cookie whose match is at least as specific as some fields.
#[derive(PartialEq, Eq, Drop)]
pub struct EntriesAsked {
    /// The number of a table; `None` for all.
    pub table: Option<u8>,
    /// `None` for all.
    pub priority: Option<u16>,
    pub cookie: u64,
    /// The bits of the cookie that are to agree.
    pub cookie_mask: u64,
    pub fields: Vec<MatchField>,
}

/// Which history is printed, and how.
#[derive(PartialEq, Eq, Drop)]
pub struct HistoryAsked {
    /// The event file; `-` is standard input.
    pub file: String,
    pub of: HistoryOf,
    /// The switch's datapath_id.
    pub dpid: u64,
    /// Whether it is JSON Lines.
    pub json: bool,
}

fn refused_word(alloc: Global, word: &str, why: &str) -> NoRequest {
    match format!(in alloc; "bad flow: {word}: {why}\n") {
        Ok(text) => NoRequest::Refused(text),
        Err(_) => NoRequest::NoMemory,
    }
}

// The match of words.
fn fields_of(alloc: Global, words: &str) -> Result<Vec<MatchField>, NoRequest> {
    match read_conditions(alloc, words.as_bytes()) {
        Ok(fields) => Ok(fields),
        Err(NoFrame::NoMemory) => Err(NoRequest::NoMemory),
        Err(NoFrame::Refused(refusal)) => Err(NoRequest::Words {
            what: "bad flow",
            refusal,
        }),
    }
}

// A cookie and its mask, which is all ones without one.
fn cookie_in(word: &str) -> Option<(u64, u64)> {
    match word.split_once('/') {
        Some((cookie, mask)) => Some((long_number_in(cookie)?, long_number_in(mask)?)),
        None => Some((long_number_in(word)?, u64::MAX)),
    }
}

impl EntriesAsked {
    // Takes a word that is none of the match.
    fn add_word(
        &mut self,
        alloc: Global,
        word: &str,
        name: &str,
        value: &str,
    ) -> Result<bool, NoRequest> {
        match name {
            "table" => match number_in(value) {
                Some(number) if number < u32::from(TABLES) => self.table = Some(number as u8),
                _ => return Err(refused_word(alloc, word, "a table is a number from 0 to 15")),
            },
            "priority" => match number_in(value) {
                Some(number) if number <= u32::from(u16::MAX) => self.priority = Some(
                    number as u16,
                ),
                _ => return Err(refused_word(
                    alloc,
                    word,
                    "a priority is a number from 0 to 65535",
                )),
            },
            "cookie" => match cookie_in(value) {
                Some((cookie, mask)) => {
                    self.cookie = cookie;
                    self.cookie_mask = mask;
                }
                None => return Err(refused_word(
                    alloc,
                    word,
                    "a cookie is a 64-bit number, or two with a / between them",
                )),
            },
            _ => return Ok(false),
        }
        Ok(true)
    }
}

// The entries of words.
fn entries_of(alloc: Global, words: &str) -> Result<EntriesAsked, NoRequest> {
    let mut asked = EntriesAsked {
        table: None,
        priority: None,
        cookie: 0,
        cookie_mask: 0,
        fields: Vec::new(alloc),
    };
    let mut others = String::new(alloc);
    for word in words.split(',') {
        let (name, value) = word.split_once('=').unwrap_or((word, ""));
        if !asked.add_word(alloc, word, name, value)? {
            others.push_str(word)?;
            others.push(',')?;
        }
    }
    asked.fields = fields_of(alloc, others.as_str())?;
    Ok(asked)
}

fn asked_of(alloc: Global, matches: &ArgMatches<'_>) -> Result<HistoryOf, NoRequest> {
    if let Some(row) = row_of(alloc, matches.get_str("row"))? {
        return Ok(HistoryOf::Row(row));
    }
    if let Some(words) = matches.get_str("flow") {
        return Ok(HistoryOf::Entries(entries_of(alloc, words)?));
    }
    let word = matches.get_str("FRAME").unwrap_or("");
    let received = received_of(alloc, FileKind::Events, matches.get_str("N"), word)?;
    Ok(HistoryOf::Frame {
        port: received.port,
        frame: received.frame,
    })
}

/// The words of `history`.
pub(crate) fn history_of(
    alloc: Global,
    matches: &ArgMatches<'_>,
) -> Result<HistoryAsked, NoRequest> {
    Ok(HistoryAsked {
        file: matches.get_str("FILE").unwrap_or("-").to_string(alloc)?,
        of: asked_of(alloc, matches)?,
        dpid: dpid_of(alloc, matches.get_str("dpid"))?,
        json: matches.get_flag("json"),
    })
}
