//! The command line of `ofswitch`: the words that a user types, read as a request.
#![tactic(auto)]

mod brief;
mod checking;
mod color;
mod columns;
mod command;
mod counts;
mod history;
mod inputs;
mod numbers;
mod ovs_reading;
mod painting;
mod paths;
mod port_list;
mod received;
mod rules;
mod saying;
mod serving;
mod switch_file;

ghost use Rattle.std.specs.{Prelude.◌≡◌, Iterator.IsFinite};
ghost use Rattle.of_command_line.specs.declared.NoRequest.TheVariants.{NoMemory};

use brief::brief_help;
use checking::check_of;
use clap::ArgMatches;
use clap::error::{Error, ErrorKind};
pub use color::Colors;
use color::colors_of;
use columns::in_columns;
use command::command;
use counts::{DEFAULT_READS, idle_of, live_turns_of, reads_of, turns_of};
use history::history_of;
pub use history::{EntriesAsked, HistoryAsked, HistoryOf};
use inputs::{log_of, running_rows_of, tables_of};
use numbers::{dpid_of, long_number_in, number_in};
use of_frame_words::Refusal;
use of_wire::limits::TABLES;
pub use ovs_reading::OvsReading;
use ovs_reading::ovs_reading_of;
pub use painting::{Color, Part, paint};
pub use paths::{Leading, PathsAsked};
use paths::{paths_of, steps_of};
use port_list::port_list_of;
use received::{NO_FILE, NO_FRAME, is_frame, received_of};
use saying::saying_of;
use std::alloc::{AllocError, Global};
use std::net::{IpAddr, Net, SocketAddr, ToSocketAddrs};
use std::str::FromStr;
pub use switch_file::{FileKind, SwitchFile};
use switch_file::{assembly_of, disassembly_of, switch_file_of};

/// `trace --flows` and `live --ports` have ports 1 to this one at most.
const LAST_PORT: u32 = 64;

/// The highest number of a network (RFC 7348, 5).
const LAST_NETWORK: u32 = 0xff_ffff;

/// Where controllers find a switch (OpenFlow 1.3.5, 6.3.1).
const DEFAULT_ADDRESS: &str = "127.0.0.1:6653";

/// Where datagrams are received, and the port of VXLAN (RFC 7348, 5).
const DEFAULT_TUNNEL: &str = "0.0.0.0:4789";

const VXLAN_PORT: u16 = 4789;

const DEFAULT_DPID: u64 = 1;

/// A run over the rows or lines of a file; `-` is standard input.
#[derive(PartialEq, Eq, Drop)]
pub struct FileRun {
    pub file: String,
    pub run: Run,
}

/// What is done with the rows or lines of a file.
#[derive(PartialEq, Eq, Drop)]
pub enum Run {
    /// An event file runs on a new switch, and what it gives is printed.
    Replay {
        /// The switch's datapath_id.
        dpid: u64,
        output: ReplayOutput,
        /// Whether questions in the file are answered; then the output is no JSON.
        ask: bool,
        /// How often the file is read at most.
        reads: u32,
    },
    /// An event file is printed that builds the flow tables of a flow text.
    Assemble,
    /// An event file runs on a new switch, and the groups and flows that it has then are printed as flow text.
    Disassemble,
}

/// What the words of a command line say.
#[derive(PartialEq, Eq, Drop)]
pub struct CommandLine {
    pub request: Request,
    pub colors: Colors,
}

/// What the user asks for.
#[derive(PartialEq, Eq, Drop)]
pub enum Request {
    /// To run over a file.
    File(FileRun),
    /// To print messages of OpenFlow in words: hexadecimal digits, or a file of them or of bytes; `-` is standard input.
    Say {
        messages: String,
    },
    /// To print the flow text of a table of Open vSwitch; `-` is standard input.
    Import {
        file: String,
        reading: OvsReading,
        /// Whether the outcome is printed as one JSON document.
        json: bool,
    },
    /// To print the bytes of a message, or of a frame, that words say.
    Encode {
        words: String,
        /// The transaction id of the message.
        xid: u32,
    },
    /// To print the event file that builds the groups and flows of the switch of a file; `-` is standard input.
    Assemble(SwitchFile),
    /// To print the groups and flows of the switch of a file as ovs-ofctl reads them; `-` is standard input.
    Dump(SwitchFile),
    /// To print the trace of a frame that is received at a port of the switch of a file; `-` is standard input.
    Trace(Trace),
    /// To print where in an event file the fate of a frame or flow entries change; `-` is standard input.
    History(HistoryAsked),
    /// To print which flows of the switch of a file can win, and which never do; `-` is standard input.
    Check(Check),
    /// To print which frames the switches of two files treat differently.
    Diff(Diff),
    /// To print which steps the frames take that the switch of a file receives; `-` is standard input.
    Paths(PathsAsked),
    /// To serve controllers.
    Serve(Serve),
    /// To forward the frames of a network.
    Live(Live),
}

/// What is printed of the rows of an event file.
#[derive(Clone, Copy, PartialEq, Eq)]
pub enum ReplayOutput {
    /// What the switch gives.
    Effects,
    /// The rows, and below each of them what it did, in words.
    Explained,
    /// The same, an object of JSON for each row.
    Json,
}

/// Which frame is traced, and how.
#[derive(PartialEq, Eq, Drop)]
pub struct Trace {
    pub of: SwitchFile,
    /// The line of an event file, from 1, before which the switch is taken; else it is the one after all lines.
    pub at: Option<u32>,
    /// 1 to 64 if an option says that the file is a flow text, else 1 to 0xffffff00.
    pub port: u32,
    pub frame: Vec<u8>,
    /// Whether its lines have notes.
    pub explain: bool,
    /// Of which entries it says why they won or did not.
    pub why: Option<Asked>,
    /// Whether it is in lines, for programs.
    pub lines: bool,
    /// Whether it is one JSON document.
    pub json: bool,
}

/// Which file is checked, and how.
#[derive(PartialEq, Eq, Drop)]
pub struct Check {
    pub of: SwitchFile,
    /// After how many of them a flow is given up.
    pub steps: u32,
    pub output: CheckOutput,
    /// A file of requirements.
    pub require: Option<String>,
    /// The file for the report on these as XML.
    pub junit: Option<String>,
}

/// Which switches are compared, and how.
#[derive(PartialEq, Eq, Drop)]
pub struct Diff {
    /// The files of the switches, of which at most one is `-`, standard input.
    pub first: String,
    pub second: String,
    /// The ports of the switches of files that have none: if they are not given, those that both files name.
    pub ports: Option<Vec<u32>>,
    /// Of both files.
    pub reading: OvsReading,
    /// Whether packets to the controller are left out.
    pub frames: bool,
    /// After how many of them frames are given up.
    pub steps: u32,
    /// Whether it is one JSON document.
    pub json: bool,
}

/// What is printed of a check.
#[derive(Clone, Copy, PartialEq, Eq)]
pub enum CheckOutput {
    /// What is found, and a summary.
    Report,
    /// The same, and the flows that win.
    All,
    /// The same, with packets as words that `trace` takes, if there are such.
    AllInWords,
    /// The report as JSON.
    Json,
}

/// Entries of which a trace says why they won or did not.
#[derive(Clone, Copy, PartialEq, Eq)]
pub enum Asked {
    /// All of each table that is looked up.
    All,
    /// Those of a table, 0 to 15, that have a priority.
    Priority { table: u8, priority: u16 },
}

/// How controllers are served.
#[derive(PartialEq, Eq, Drop)]
pub struct Serve {
    pub meeting: Meeting,
    /// For how many nanoseconds a connection may say nothing, if that is limited.
    pub idle: Option<u64>,
    /// A file with the groups and flows with which the switch begins; `-` is standard input.
    pub tables: Option<String>,
    pub reading: OvsReading,
    /// An event file with ports and frames; `-` is standard input.
    pub events: Option<String>,
    /// Where all that happens is written.
    pub log: Option<String>,
    pub turns: u32,
    /// The datapath_id.
    pub dpid: u64,
    /// Whether nothing is said of connections.
    pub quiet: bool,
}

/// How the frames of a network are forwarded.
#[derive(PartialEq, Eq, Drop)]
pub struct Live {
    /// Where datagrams are received.
    pub tunnel: SocketAddr,
    pub meeting: Meeting,
    /// For how many nanoseconds a connection may say nothing, if that is limited.
    pub idle: Option<u64>,
    /// The switch has the ports 1 to this one, at most 64, and those of the event file.
    pub ports: u32,
    /// A file with the groups and flows with which the switch begins; `-` is standard input.
    pub tables: Option<String>,
    pub reading: OvsReading,
    /// An event file with ports and frames; `-` is standard input.
    pub events: Option<String>,
    /// Whether rows of frames and ports are read from standard input while the switch runs.
    pub rows: bool,
    pub peers: Vec<PortPeer>,
    /// Where all that happens is written.
    pub log: Option<String>,
    pub turns: u64,
    /// The datapath_id.
    pub dpid: u64,
    /// Whether nothing is said of connections.
    pub quiet: bool,
}

/// Where the frames of a port go.
#[derive(Clone, Copy, PartialEq, Eq)]
pub struct PortPeer {
    pub port: u32,
    pub address: SocketAddr,
}

/// How a switch and its controller come together.
#[derive(Clone, Copy, PartialEq, Eq)]
pub enum Meeting {
    /// The controller connects to this address.
    Listen(SocketAddr),
    /// The switch connects to this address.
    Dial(SocketAddr),
}

/// Why the words are no request.
#[derive(Drop)]
pub enum NoRequest {
    /// They ask for help or the version, which is this text.
    Asked(String),
    /// They are not understood; the text says why.
    Refused(String),
    /// A word of a frame or of a match is refused.
    Words {
        what: &'static str,
        refusal: Refusal,
    },
    /// Memory ran out.
    NoMemory,
}

impl From<AllocError> for NoRequest {
    ghost from_gives = { λ _ e. e ≡ NoMemory };

    fn from(_error: AllocError) -> NoRequest {
        NoRequest::NoMemory
    }
}

/// Reads the words of a command line, of which the first is the program's name. Names of hosts are looked up.
pub fn read_request<N: Net>(
    alloc: Global,
    net: &N,
    words: &[String],
) -> Result<CommandLine, NoRequest> {
    match command(alloc)?.try_get_matches_from(words) {
        Ok(matches) => command_line_of(alloc, net, &matches),
        Err(error) => Err(refusal_of(alloc, words, &error)?),
    }
}

fn command_line_of<N: Net>(
    alloc: Global,
    net: &N,
    matches: &ArgMatches<'_>,
) -> Result<CommandLine, NoRequest> {
    let Some((name, matches)) = matches.subcommand() else {
        let run = Run::Replay {
            dpid: DEFAULT_DPID,
            output: ReplayOutput::Effects,
            ask: false,
            reads: DEFAULT_READS,
        };
        let file = "-".to_string(alloc)?;
        return Ok(CommandLine {
            request: Request::File(FileRun { file, run }),
            colors: Colors::Auto,
        });
    };
    Ok(CommandLine {
        request: request_of(alloc, net, name, matches)?,
        colors: colors_of(alloc, matches.get_str("color"))?,
    })
}

fn request_of<N: Net>(
    alloc: Global,
    net: &N,
    name: &str,
    matches: &ArgMatches<'_>,
) -> Result<Request, NoRequest> {
    match name {
        "serve" => Ok(Request::Serve(serve_of(alloc, net, matches)?)),
        "live" => Ok(Request::Live(live_of(alloc, net, matches)?)),
        "trace" => Ok(Request::Trace(trace_of(alloc, matches)?)),
        "history" => Ok(Request::History(history_of(alloc, matches)?)),
        "check" => Ok(Request::Check(check_of(alloc, matches)?)),
        "diff" => Ok(Request::Diff(diff_of(alloc, matches)?)),
        "paths" => Ok(Request::Paths(paths_of(alloc, matches)?)),
        _ => file_request_of(alloc, name, matches),
    }
}

// The requests of one file by its place.
fn file_request_of(
    alloc: Global,
    name: &str,
    matches: &ArgMatches<'_>,
) -> Result<Request, NoRequest> {
    let file = matches.get_str("FILE").unwrap_or("-").to_string(alloc)?;
    match name {
        "say" => saying_of(alloc, matches),
        "import" => Ok(Request::Import {
            file,
            reading: ovs_reading_of(alloc, matches)?,
            json: matches.get_flag("json"),
        }),
        "asm" => assembly_of(alloc, matches),
        "dis" => disassembly_of(alloc, matches),
        _ => {
            let run = run_of(alloc, name, matches)?;
            Ok(Request::File(FileRun { file, run }))
        }
    }
}

fn run_of(alloc: Global, name: &str, matches: &ArgMatches<'_>) -> Result<Run, NoRequest> {
    match name {
        _ => Ok(Run::Replay {
            dpid: dpid_of(alloc, matches.get_str("dpid"))?,
            output: replay_output_of(alloc, matches)?,
            ask: matches.get_flag("ask"),
            reads: reads_of(alloc, matches.get_str("reads"))?,
        }),
    }
}

// JSON is for rows with what they did.
fn replay_output_of(alloc: Global, matches: &ArgMatches<'_>) -> Result<ReplayOutput, NoRequest> {
    let explain = matches.get_flag("explain");
    if !matches.get_flag("json") {
        return Ok(if explain {
            ReplayOutput::Explained
        } else {
            ReplayOutput::Effects
        });
    }
    if !explain {
        return Err(refused(alloc, "bad json: replay prints JSON only with --explain\n")?);
    }
    if matches.get_flag("ask") {
        return Err(refused(
            alloc,
            "bad json: answers to questions are not JSON; leave out --ask or --json\n",
        )?);
    }
    Ok(ReplayOutput::Json)
}

fn trace_of(alloc: Global, matches: &ArgMatches<'_>) -> Result<Trace, NoRequest> {
    let of = switch_file_of(alloc, matches)?;
    // with a file by its place the frame is the second word, else the first
    let frame = match of.kind {
        FileKind::Guessed => matches.get_str("FRAME"),
        _ => matches.get_str("FILE"),
    };
    let Some(frame) = frame else {
        let is_frame_alone = of.kind == FileKind::Guessed && is_frame(of.path.as_str());
        return Err(refused(alloc, if is_frame_alone { NO_FILE } else { NO_FRAME })?);
    };
    let at = row_of(alloc, matches.get_str("at"))?;
    let received = received_of(alloc, of.kind, matches.get_str("N"), frame)?;
    let words = matches.get_flag("words");
    let lines = matches.get_flag("lines") || of.kind == FileKind::Flows && !words;
    Ok(Trace {
        of,
        at,
        port: received.port,
        frame: received.frame,
        explain: matches.get_flag("explain"),
        why: why_of(alloc, matches.get_str("why"))?,
        json: matches.get_flag("json"),
        lines,
    })
}

// Standard input is one of the files at most.
fn diff_of(alloc: Global, matches: &ArgMatches<'_>) -> Result<Diff, NoRequest> {
    let (first, second) = (
        matches.get_str("A").unwrap_or("-"),
        matches.get_str("B").unwrap_or("-"),
    );
    if first == "-" && second == "-" {
        return Err(refused(alloc, "bad files: A and B cannot both be standard input\n")?);
    }
    Ok(Diff {
        first: first.to_string(alloc)?,
        second: second.to_string(alloc)?,
        ports: port_list_of(alloc, matches.get_str("ports"))?,
        reading: ovs_reading_of(alloc, matches)?,
        frames: matches.get_flag("frames"),
        steps: steps_of(alloc, matches.get_str("steps"))?,
        json: matches.get_flag("json"),
    })
}

// The number of a line.
fn row_of(alloc: Global, word: Option<&str>) -> Result<Option<u32>, NoRequest> {
    let Some(word) = word else {
        return Ok(None);
    };
    match number_in(word) {
        Some(row) if row >= 1 => Ok(Some(row)),
        _ => Err(refused(alloc, "bad row: a line number, from 1\n")?),
    }
}

fn why_of(alloc: Global, word: Option<&str>) -> Result<Option<Asked>, NoRequest> {
    let Some(word) = word else {
        return Ok(None);
    };
    match asked_in(word) {
        Some(asked) => Ok(Some(asked)),
        None => Err(refused(
            alloc,
            "bad why: all, or a table and a priority such as \"0 100\"\n",
        )?),
    }
}

fn asked_in(word: &str) -> Option<Asked> {
    if word == "all" {
        return Some(Asked::All);
    }
    let (table, priority) = word.split_once(' ')?;
    let table = u8::try_from(number_in(table)?).ok()?;
    let priority = u16::try_from(number_in(priority)?).ok()?;
    if table < TABLES {
        Some(Asked::Priority { table, priority })
    } else {
        None
    }
}

fn meeting_of<N: Net>(
    alloc: Global,
    net: &N,
    matches: &ArgMatches<'_>,
) -> Result<Meeting, NoRequest> {
    match matches.get_str("connect") {
        Some(word) => Ok(Meeting::Dial(address_of(alloc, net, word)?)),
        None => {
            let word = matches.get_str("listen").unwrap_or(DEFAULT_ADDRESS);
            Ok(Meeting::Listen(address_of(alloc, net, word)?))
        }
    }
}

// The text of an argument, if it is there.
fn text_of(alloc: Global, word: Option<&str>) -> Result<Option<String>, AllocError> {
    match word {
        Some(word) => Ok(Some(word.to_string(alloc)?)),
        None => Ok(None),
    }
}

fn serve_of<N: Net>(alloc: Global, net: &N, matches: &ArgMatches<'_>) -> Result<Serve, NoRequest> {
    Ok(Serve {
        meeting: meeting_of(alloc, net, matches)?,
        idle: idle_of(alloc, matches.get_str("idle"))?,
        tables: tables_of(alloc, matches)?,
        reading: ovs_reading_of(alloc, matches)?,
        events: text_of(alloc, matches.get_str("FILE"))?,
        log: log_of(alloc, matches)?,
        turns: turns_of(alloc, matches.get_str("turns"))?,
        dpid: dpid_of(alloc, matches.get_str("dpid"))?,
        quiet: matches.get_flag("quiet"),
    })
}

fn live_of<N: Net>(alloc: Global, net: &N, matches: &ArgMatches<'_>) -> Result<Live, NoRequest> {
    let tunnel = tunnel_of(alloc, matches.get_str("vxlan").unwrap_or(DEFAULT_TUNNEL))?;
    Ok(Live {
        tunnel,
        meeting: meeting_of(alloc, net, matches)?,
        idle: idle_of(alloc, matches.get_str("idle"))?,
        ports: ports_of(alloc, matches.get_str("ports"))?,
        tables: tables_of(alloc, matches)?,
        reading: ovs_reading_of(alloc, matches)?,
        events: text_of(alloc, matches.get_str("FILE"))?,
        rows: running_rows_of(alloc, matches.get_str("rows"))?,
        peers: peers_of(alloc, tunnel, matches.get_strs("peer").unwrap_or(&[]))?,
        log: log_of(alloc, matches)?,
        turns: live_turns_of(alloc, matches.get_str("turns"))?,
        dpid: dpid_of(alloc, matches.get_str("dpid"))?,
        quiet: matches.get_flag("quiet"),
    })
}

// An address with a port, or without one and then with that of VXLAN.
fn tunnel_in(word: &str) -> Option<SocketAddr> {
    match SocketAddr::from_str(word) {
        Ok(address) => Some(address),
        Err(_) => Some(SocketAddr::new(IpAddr::from_str(word).ok()?, VXLAN_PORT)),
    }
}

fn tunnel_of(alloc: Global, word: &str) -> Result<SocketAddr, NoRequest> {
    match tunnel_in(word) {
        Some(address) => Ok(address),
        None => Err(refused(
            alloc,
            "bad address\nan address is an IP address, and a port after it if that is not 4789, such as 10.0.0.1 or [::1]:8472\n",
        )?),
    }
}

fn ports_of(alloc: Global, word: Option<&str>) -> Result<u32, NoRequest> {
    match number_in(word.unwrap_or("0")) {
        Some(ports) if ports <= LAST_PORT => Ok(ports),
        _ => Err(refused(alloc, "bad ports: it is a number from 0 to 64\n")?),
    }
}

// The numbers of ports are those of networks: 24 bits.
fn peer_in(word: &str) -> Option<PortPeer> {
    let (port, address) = word.split_once('=')?;
    let port = number_in(port)?;
    if port == 0 || port > LAST_NETWORK {
        return None;
    }
    let address = tunnel_in(address)?;
    Some(PortPeer { port, address })
}

fn peer_of(alloc: Global, word: &str) -> Result<PortPeer, NoRequest> {
    match peer_in(word) {
        Some(peer) => Ok(peer),
        None => Err(refused(
            alloc,
            "bad peer: it is a port and an address, such as 1=10.0.0.7 or 1=10.0.0.7:4789\n",
        )?),
    }
}

// Whether a socket at an address can send to another one: at `::` also to IPv4 addresses.
fn can_reach(from: IpAddr, to: IpAddr) -> bool {
    match (from.to_canonical(), to.to_canonical()) {
        (IpAddr::V4(_), IpAddr::V4(_)) | (IpAddr::V6(_), IpAddr::V6(_)) => true,
        (from, IpAddr::V4(_)) => from.is_unspecified(),
        _ => false,
    }
}

// A port has one peer, which the socket can reach, and which is not the socket itself.
fn check_peer(
    alloc: Global,
    tunnel: SocketAddr,
    before: &[PortPeer],
    peer: PortPeer,
) -> Result<(), NoRequest> {
    let PortPeer { port, address } = peer;
    let why = if before.iter().any(|other| other.port == port) {
        format!(in alloc; "bad peer: port {port} has two peers\n")?
    } else if address == tunnel {
        format!(in alloc; "bad peer: {address} is where the switch itself receives datagrams\n")?
    } else if !can_reach(tunnel.ip(), address.ip()) {
        format!(in alloc;
            "bad peer: {address} cannot be reached from {tunnel}, which is an address of the other family\n"
        )?
    } else {
        return Ok(());
    };
    Err(NoRequest::Refused(why))
}

fn peers_of(alloc: Global, tunnel: SocketAddr, words: &[&str]) -> Result<Vec<PortPeer>, NoRequest> {
    let mut peers = Vec::with_capacity(alloc, words.len())?;
    for word in words {
        let peer = peer_of(alloc, word)?;
        check_peer(alloc, tunnel, &peers, peer)?;
        peers.push(peer).map_err(AllocError::from)?;
    }
    Ok(peers)
}

// The parts of a host's name and a port.
fn name_in(word: &str) -> Option<(&str, u16)> {
    let (host, port) = word.split_once(':')?;
    if host.is_empty() {
        return None;
    }
    Some((host, u16::try_from(number_in(port)?).ok()?))
}

// The first address of a host, those of IPv4 before the others.
fn found_in<I: Iterator<Item = SocketAddr> + Drop>(addresses: I) -> Option<SocketAddr>
    requires finite { IsFinite (I.remaining addresses) }
    requires next { I.can_next addresses }
{
    let mut other = None;
    for address in addresses {
        if address.is_ipv4() {
            return Some(address);
        }
        other = other.or(Some(address));
    }
    other
}

fn named_address<N: Net>(
    alloc: Global,
    net: &N,
    host: &str,
    port: u16,
) -> Result<SocketAddr, NoRequest> {
    let why = match (host, port).to_socket_addrs(net) {
        Ok(addresses) => match found_in(addresses) {
            Some(address) => return Ok(address),
            None => format!(in alloc; "bad address\n{host}: no address\n")?,
        },
        Err(error) => format!(in alloc; "bad address\n{host}: {error}\n")?,
    };
    Err(NoRequest::Refused(why))
}

fn address_of<N: Net>(alloc: Global, net: &N, word: &str) -> Result<SocketAddr, NoRequest> {
    if let Ok(address) = SocketAddr::from_str(word) {
        return Ok(address);
    }
    match name_in(word) {
        Some((host, port)) => named_address(alloc, net, host, port),
        None => Err(refused(
            alloc,
            "bad address\nan address is an IP address or a host, and a port, such as 127.0.0.1:6653, [::1]:6653 or localhost:6653\n",
        )?),
    }
}

fn refused(alloc: Global, why: &str) -> Result<NoRequest, AllocError> {
    Ok(NoRequest::Refused(why.to_string(alloc)?))
}

fn refusal_of(alloc: Global, words: &[String], error: &Error) -> Result<NoRequest, AllocError> {
    if error.kind() == ErrorKind::OutOfMemory {
        return Ok(NoRequest::NoMemory);
    }
    let text = format!(in alloc; "{error}")?;
    if error.kind() == ErrorKind::DisplayHelp {
        let is_brief = words.iter().any(|word| word.as_str() == "-h");
        let help = if is_brief {
            brief_help(alloc, words, text.as_str())?
        } else {
            text
        };
        Ok(NoRequest::Asked(in_columns(alloc, help.as_str())?))
    } else if error.exit_code() == 0 {
        Ok(NoRequest::Asked(text))
    } else {
        Ok(NoRequest::Refused(text))
    }
}
