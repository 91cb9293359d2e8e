//! The words of the command line.

use crate::checking::{CHECK, CHECKS};
use crate::history::{HISTORIES, HISTORY};
use crate::ovs_reading::OVS_READING;
use crate::serving::{LIVE, LIVE_ARGUMENTS, SERVE, SERVING};
use clap::{Arg, ArgAction, ArgGroup, Command};
use std::alloc::{AllocError, Global};

const STATUSES: &str = "Exit status:
  0     done
  1     bad arguments
  2     a bad FILE: standard error has `line N: bad row` for an event file,
        `line N: syntax` or `line N: type T code C` for a flow text, and
        `line N: WORD: ...` for each line that `import` refuses (`replay` has
        printed the effects of the rows before that line, the other commands
        print nothing)
  3     `read fault`, `write fault` or `no memory`
  4     `check` found something, `diff` found a difference, or `import --skip`
        left lines out
  5     `diff` found no difference, or `paths` found paths, but frames are
        undecided; or a port is named that the switch does not have

If the reader of standard output has gone, as `head` does, the status is that
of the work that was done.";

const EVENT_FILES: &str = "An event file has one event per line. Words are separated by one space:

  port add 1 0200000000a1 p1 up     a port: number, hardware address, name, up or down
  port link 1 down                  the link of port 1 goes down (or up); `port remove 1` removes the port
  connect                           a controller connects; `lost`: the connection is lost
  c 0400000800000001                bytes of the controller, in hex (- for none)
  f 1 020000000002...               a frame is received at port 1, in hex
  t 9000000000                      the time is 9 seconds after the start, in nanoseconds
  # ...                             a comment

It prints the messages to the controller (`a HEX`), the frames that leave (`s
PORT HEX`), `closed` if the switch ends the connection, and `refused N` if an
event is not possible: 3 not connected, 4 already connected, 5 the port exists,
6 the port does not exist, 7 too many ports, 8 bad port number. With --explain
it prints each row behind the number of its line, and below it what the row
did, in words: answers by name with their fields, errors by the standard's
names, and the path of each frame. Of `t` rows one after the other that do
nothing it prints the last one. With --json beside it, each row is a JSON
object in one line. The effects of all rows that were read are printed before
the next read, so a program can send rows to `replay -` one by one, and read
the effects of each.

  ofswitch replay examples/first-path.events
  ofswitch replay --explain examples/first-path.events
  ofswitch replay --explain --json examples/first-path.events
  ofswitch replay --dpid 0x2a examples/first-path.events";

const FLOW_TEXT: &str =
    "Flow text has groups and then flows, each on several lines. Words are separated
by one space:

  group 1 ff                            number, and all, indirect or ff
  bucket 0 2 4294967295                 weight, and the port and the group that it watches; its actions follow
  flow 0 10 0x0000000000000000 0 0 0    table, priority, cookie, idle and hard timeout, flags
  match in_port 0x00000001              a field, its value and an optional mask
  apply                                 an instruction (apply, clear, write, metadata V M, goto T)
  output 2 0                            an action of that instruction: port and max_len
  # ...                                 a comment

The event file connects a controller, which sends HELLO, a GROUP_MOD for each
group, and a FLOW_MOD for each flow. With --ovs it is that of what ovs-ofctl
prints (`ofswitch import --help`), and with --events that of the groups and
flows after the rows of another event file.

  ofswitch asm examples/router.flows > router.events
  ofswitch asm --ovs br0.txt --skip --renumber > br0.events";

const DISASSEMBLY: &str =
    "Plays the rows as `replay` does, without printing their effects. Then it prints
the switch's groups by number and its flows by table, oldest first, as flow
text (`ofswitch asm --help`), without counters and times. If the file has a bad
row, nothing is printed.

With --ovs it prints the groups and flows of any file that `check` reads, one
per line, as `ovs-ofctl add-groups` and `add-flows` read them.

  ofswitch asm examples/router.flows | ofswitch dis -
  ofswitch dis --ovs examples/router.flows";

const TRACES: &str = "FILE is a flow text (`ofswitch asm --help`), an event file (`ofswitch replay
--help`), or what ovs-ofctl prints (`ofswitch import --help`). The first word
that is not in a comment says which; --flows, --events and --ovs override this.
For flow text or ovs-ofctl output, the switch has its groups and flows, and
ports 1 to 4 and those that they name, all of whose links are up; --ports gives
it others. For an event file, it is the switch after the rows, with its ports
and its connection, or with --at ROW the switch before that line. The trace is
in words: the frame, then the steps, with the priority and the match of each
entry that won, then what leaves:

  in_port 1, eth 02:00:00:00:01:02 > 02:00:00:00:00:a1, eth_type 0x0800, ...
  table 0: entry 1, priority 20, eth_dst 02:00:00:00:00:a1, eth_type 0x0800
  go to table 1
  ...

With --lines there is one line per step, for programs. `trace --flows FILE
--port N HEX` prints these lines, too, on a switch with ports 1 to 64:

  lookup 0 entry 2                      a table, and the entry that won, by age from 0 (or miss)
  apply, write, clear, metadata, goto   an instruction
  output 2 0                            an action; dec_nw_ttl expired
  set                                   the action set runs
  end                                   the packet's processing ends
  s 2 HEX                               at the end: what leaves (and `a HEX` to a connected controller)

With --explain there are notes below the lines: below a lookup the entry that
won, as flow text, and the fields that the table sees; below an action what it
changed, why an output sends nothing, and which buckets of a group run. With
--why all, or --why \"0 100\" for the entries of table 0 that have priority
100, they also say why entries won or lost.

FRAME may be in words, as `ovs-appctl ofproto/trace` takes it: the words of a
match (ovs-fields(7)), without masks, and nw_ttl. Fields of its headers that no
word says are 0, the TTL is 64, lengths and checksums are right. Then --port
may be left out, if in_port says it.

  ofswitch trace examples/router.flows \\
      in_port=1,dl_dst=02:00:00:00:00:a1,ip,nw_src=10.0.0.1,nw_dst=10.1.1.9
  ofswitch trace examples/router.flows --port 1 0200000000a102000000000188b5
  ofswitch trace --lines examples/router.flows in_port=1,arp
  ofswitch trace --events examples/failover.events --at 14 \\
      --port 1 02000000000202000000000188b5";

const DIFFS: &str = "A and B are flow texts (`ofswitch asm --help`), event files (`ofswitch replay
--help`), or what ovs-ofctl prints (`ofswitch import --help`); the first word
that is not in a comment says which. One of them may be -, standard input. For
an event file, the switch is the one after its rows. For flow text or ovs-ofctl
output, it has its groups and flows, and ports, all of whose links are up:
those of --ports; else those that the switch of the other file has, if that is
an event file; else ports 1 to 4 and those that A and B name. It prints frames
for which the two switches send different output; it ran each frame on both:

  differs by port 3: in_port 1, eth 00:00:00:00:00:00 > 02:00:00:00:00:a1, ...
      frame: --port 1 0200...      the frame, as `trace` takes it
      in words: in_port=1,ip,...   words that `trace` takes, if there are such
      region: ip,nw_dst=10.2.0.0/16   what all frames of its set have in common
      first: hits table 1 entry 2 (line 9, priority 20, ...), changed
                                   a flow entry of A that it hits; B lacks it
      first: out by port 3: 02...  what leaves the switch of A: a frame, a packet
                                   to the controller, or nothing
      first: changed: nw_ttl 64 -> 63   what the switch of A changed in it
      second: hits table 1 entry 4 (line 11, priority 0)
      second: to the controller: action, table 1, the first 128 bytes: 0200...
      also: 1 difference, by port 2   others whose frames hit the same changed
                                   entries
  undecided: 2 sets of frames: ..  why it is not known if frames are treated alike
  1 difference, 2 undecided        or `same: all frames that a port receives
                                   are treated alike`

Each difference is of a set of frames, of which one is printed, or of several
sets that differ likewise: then a line has their number, `sets of frames: 2`.
If it prints `same`, the two switches treat each frame that a port receives
alike: by each port the same frames leave in the same order, and the controller
gets the same packets, with the same reason, table, cookie and metadata. With
--frames, packets to the controller are not compared. Counters, timeouts, the
time and frames that a PACKET_OUT begins are not compared.
Switches with different ports are not compared: `the switches have different
ports`. If A or B names a port that the switches do not have, the first line
says so, and it does not print `same`.

Exit status: 0 all frames that a port receives are treated alike; 4 there is a
difference, or the ports differ; 5 no difference was found, but frames are
undecided, or a port is named that the switches do not have. If a file is at
fault, the status is 1, 2 or 3, and the name of the file is before the fault.

  ofswitch diff examples/router.flows examples/router2.flows
  ovs-ofctl -O OpenFlow13 --no-names dump-flows br0 | ofswitch diff br0.flows -";

const PATHS: &str = "FILE is a flow text (`ofswitch asm --help`), an event file (`ofswitch replay
--help`), or what ovs-ofctl prints (`ofswitch import --help`); the first word
that is not in a comment says which. For flow text or ovs-ofctl output, the
switch has its groups and flows, and ports 1 to 4 and those that they name, all
of whose links are up; --ports gives it others. For an event file, it is the
switch after the rows. All frames that it receives are divided into sets whose
frames take the same steps. Sets whose steps differ only in which entries are
hit are one path; with --each, each set is a path of its own:

  path: in_port 1, eth 00:00:00:00:00:00 > 02:00:00:00:00:a1, ...
      frame: --port 1 0200...      a frame of the first set, as `trace` takes it,
                                   which was run
      in words: in_port=1,arp,...  words that `trace` takes, if there are such
      lookup 0 entry 2             its steps, in the lines of `trace --lines`
      apply
      output 2 0
      end
      out by port 2: 0200...       what leaves: a frame, a packet to the
                                   controller, or nothing
      and 2 more sets of frames, by other entries: 0:3, 0:4
  undecided: 2 sets of frames: ..  why it is not known which steps frames take
  7 paths, 2 undecided

An entry is named by its table and its number by age, from 0. With --port, only
frames that come in by this port are divided, and with --match only those that
match, in the words of a match of ovs-ofctl. With --to, only paths are printed
whose frames leave by that port, go to the controller, or are dropped; without
--port, the frames of each ingress port are divided apart then. With --json,
the report is one JSON document, which names the entries that each set of
frames hits.

Exit status: 0 each frame is in a path; 5 frames are undecided, or a port is
named that the switch does not have; 2 the words of --match are not a match
that a flow may have. If the file is at fault, the status is 1, 2 or 3, and the
name of the file is before the fault.

  ofswitch paths examples/router.flows
  ofswitch paths --to drop examples/router.flows
  ofswitch paths --match ip,nw_dst=10.1.0.0/16 examples/router.flows
  ofswitch paths --port 1 --to controller examples/office.txt
  ofswitch paths --json examples/router.flows |
      jq '.paths[] | select(.items == []) | .frame'";

const IMPORTS: &str =
    "FILE has flows and groups, one per line, as `ovs-ofctl -O OpenFlow13 --no-names
dump-flows` and `dump-groups` print them, or as `ovs-ofctl add-flows` and
`add-groups` read them. Groups and flows may be in one file. Statistics, the
heading lines of dumps, comments and empty lines are skipped. A flow that has
the table, the priority and the match of an earlier flow replaces it, as an ADD
would. A resubmit to a later table becomes GOTO_TABLE if it is the last action.

It prints flow text (`ofswitch asm --help`), which `asm`, `trace` and `check`
read: groups by number, flows by table, and in a table in the order of FILE. If
a line uses something that this switch does not support, standard error names
the line and the words, and nothing is printed, unless --skip leaves such lines
out. Comments before the flow text say what was left out or changed; the first
one is `# part of a table: N lines left out`. With --json it prints one JSON
document about the import instead, or about the lines that are refused, and
nothing on standard error.

Ports are numbers. With --port-names, names are read as well, as
in_port=\"s1-eth1\" or output:s1-eth1. Each command that reads such a file has
the options --skip, --renumber and --port-names.

  ofswitch import examples/ovs-router.txt
  ovs-ofctl -O OpenFlow13 --no-names dump-flows br0 |
      ofswitch import - > br0.flows
  ofswitch import --skip --renumber br-int.txt > br-int.flows
  ovs-ofctl -O OpenFlow13 --no-names dump-ports-desc br0 > br0.ports
  ofswitch import --port-names br0.ports dump.txt
  ofswitch import --skip --json br-int.txt |
      jq '.flows[] | select(.counters.n_packets == \"0\") | .line'
  ofswitch check br0.flows";

const SAYING: &str = "FILE is one or more OpenFlow 1.3 messages, one after the other: hexadecimal
digits on the command line, or a file that has hexadecimal digits, with white
space between them or not, or the bytes themselves. It does not matter which
side sends them.

Each message is a line: its type, its transaction id, its fields, and how many
bytes it has, as `replay --explain` prints them. Below it are its match,
actions or group in flow text, or the rows of a multipart reply. Bytes after
the last whole message end with status 2.

With --hex it is the other way round: the words of a message of a controller,
or `frame` and the words of a frame, as `trace` takes them.

  ofswitch say 0400000800000001
  ofswitch say message.bin
  ofswitch say --hex flow add priority=10,ip,nw_dst=10.0.0.0/8,actions=output:2
  ofswitch say --hex role master 7
  ofswitch say --hex frame in_port=1,tcp,nw_src=10.0.0.1,tp_dst=80";

const VERSION: &str = "0.1.0";

pub(crate) const ABOUT: &str = "An OpenFlow 1.3.5 switch whose behaviour is proved";

// The group of the arguments of which there has to be exactly one.
const ALTERNATIVES: &str = "alternatives";

// An argument of a subcommand, and what its help says.
pub(crate) struct Argument {
    pub(crate) name: &'static str,
    pub(crate) kind: Kind,
    pub(crate) help: &'static str,
}

// How an argument is written.
pub(crate) enum Kind {
    // By its place; it has to be there.
    Positional,
    // By their places: one word or more.
    Words,
    // By its place, where it is there; then none of the options of which there has to be exactly one is needed.
    Free,
    // Behind this option, which has to be there.
    Required(&'static str),
    // Behind this option, of which there has to be exactly one; the help calls the value so.
    Alternative(&'static str, &'static str),
    // By its place, in place of the options of which there has to be exactly one.
    Place,
    // Behind this option, where it is there; the help calls the value so.
    Optional(&'static str, &'static str),
    // Behind this option, as often as it is there; the help calls the value so.
    Repeated(&'static str, &'static str),
    // As an optional one, for an option that the named argument excludes.
    Excluded(&'static str, &'static str, &'static str),
    // The same, for one that each of the two named arguments excludes.
    ExcludedByBoth(&'static str, &'static str, &'static str, &'static str),
    // An option without a value.
    Flag(&'static str),
}

// Of each command whose report in words has colors.
pub(crate) const COLOR: Argument = Argument {
    name: "color",
    kind: Kind::Optional("color", "WHEN"),
    help: "Print in color: auto (the default: on a terminal, unless NO_COLOR is set), always or never",
};

pub(crate) const DATAPATH_ID: Argument = Argument {
    name: "dpid",
    kind: Kind::Optional("dpid", "N"),
    help: "The datapath_id, decimal or 0x and hexadecimal digits (by default 1)",
};

const REPLAY: [Argument; 6] = [
    Argument {
        name: "FILE",
        kind: Kind::Positional,
        help: "The event file to run; - is standard input",
    },
    DATAPATH_ID,
    Argument {
        name: "explain",
        kind: Kind::Flag("explain"),
        help: "Print each row, and below it what it did, in words",
    },
    Argument {
        name: "json",
        kind: Kind::Flag("json"),
        help: "With --explain, print a JSON object for each row, in a line of its own (docs/JSON.md)",
    },
    Argument {
        name: "ask",
        kind: Kind::Flag("ask"),
        help: "Answer questions, such as a line `#? flows` (docs/EVENTS.md)",
    },
    Argument {
        name: "reads",
        kind: Kind::Optional("reads", "N"),
        help: "Read FILE at most N times, 65536 bytes each at most (by default 1000000)",
    },
];

const ASSEMBLE: [Argument; 3] = [
    Argument {
        name: "FILE",
        kind: Kind::Place,
        help: "The flow text to read; - is standard input",
    },
    Argument {
        name: "ovs",
        kind: Kind::Alternative("ovs", "FILE"),
        help: "The dump or file of ovs-ofctl to read instead; - is standard input",
    },
    Argument {
        name: "events",
        kind: Kind::Alternative("events", "FILE"),
        help: "The event file to run instead, for the groups and flows after its rows; - is standard input",
    },
];

const DISASSEMBLE: [Argument; 2] = [
    Argument {
        name: "FILE",
        kind: Kind::Positional,
        help: "The event file to run; - is standard input",
    },
    Argument {
        name: "as-ovs",
        kind: Kind::Flag("ovs"),
        help: "Print the groups and flows of FILE, which may be any file that `check` reads, as ovs-ofctl reads them",
    },
];

const IMPORT: [Argument; 2] = [
    Argument {
        name: "FILE",
        kind: Kind::Positional,
        help: "The dump or file of ovs-ofctl to read; - is standard input",
    },
    Argument {
        name: "json",
        kind: Kind::Flag("json"),
        help: "Print the flows, the flow text and the lines that are refused as JSON (docs/JSON.md)",
    },
];

const SAY: [Argument; 3] = [
    Argument {
        name: "FILE",
        kind: Kind::Words,
        help: "Messages in hexadecimal digits, or a file with such digits or with the bytes; - is standard input. With --hex, the words of a message",
    },
    Argument {
        name: "hex",
        kind: Kind::Flag("hex"),
        help: "Print the bytes of the message, or of the frame, that the words say, in hexadecimal digits",
    },
    Argument {
        name: "xid",
        kind: Kind::Optional("xid", "N"),
        help: "With --hex, the transaction id, decimal or 0x and hexadecimal digits (by default 1)",
    },
];

const TRACE: [Argument; 14] = [
    Argument {
        name: "FILE",
        kind: Kind::Free,
        help: "The file of the switch; or the frame, if an option names the file",
    },
    Argument {
        name: "flows",
        kind: Kind::Alternative("flows", "FILE"),
        help: "The flow text with the switch's flows; - is standard input",
    },
    Argument {
        name: "events",
        kind: Kind::Alternative("events", "FILE"),
        help: "The event file whose rows make the switch; - is standard input",
    },
    Argument {
        name: "ovs",
        kind: Kind::Alternative("ovs", "FILE"),
        help: "The dump or file of ovs-ofctl with the switch's flows; - is standard input",
    },
    Argument {
        name: "at",
        kind: Kind::Excluded("at", "ROW", "flows"),
        help: "Play the event file only up to this line, which is not played (by default all of it)",
    },
    Argument {
        name: "N",
        kind: Kind::Optional("port", "N"),
        help: "The port at which the frame is received; with --flows 1 to 64. Words of FRAME may say it instead",
    },
    Argument {
        name: "FRAME",
        kind: Kind::Place,
        help: "The frame: two hexadecimal digits per byte, or words such as in_port=1,tcp,nw_src=10.0.0.1,tp_dst=80",
    },
    Argument {
        name: "explain",
        kind: Kind::Flag("explain"),
        help: "Add notes: what tables see, and what actions change",
    },
    Argument {
        name: "why",
        kind: Kind::Optional("why", "ENTRIES"),
        help: "Add to the notes why entries won or lost: all, or those of \"TABLE PRIORITY\"",
    },
    Argument {
        name: "lines",
        kind: Kind::Flag("lines"),
        help: "Print a line per step, for programs",
    },
    Argument {
        name: "words",
        kind: Kind::Flag("words"),
        help: "Print the trace in words also with --flows, which prints lines",
    },
    Argument {
        name: "json",
        kind: Kind::Flag("json"),
        help: "Print the trace as JSON (docs/JSON.md), without notes",
    },
    Argument {
        name: "ports",
        kind: Kind::Optional("ports", "LIST"),
        help: "The ports of the switch of FILE, such as 1-8,100 (by default 1 to 4 and those that its flows and groups name)",
    },
    COLOR,
];

const DIFF: [Argument; 7] = [
    Argument {
        name: "A",
        kind: Kind::Positional,
        help: "The file of the first switch; - is standard input",
    },
    Argument {
        name: "B",
        kind: Kind::Positional,
        help: "The file of the second switch; - is standard input",
    },
    Argument {
        name: "frames",
        kind: Kind::Flag("frames"),
        help: "Compare the frames that leave by ports only, and not the packets to the controller",
    },
    Argument {
        name: "json",
        kind: Kind::Flag("json"),
        help: "Print the differences as JSON (docs/JSON.md)",
    },
    Argument {
        name: "steps",
        kind: Kind::Optional("steps", "N"),
        help: "Leave frames undecided after N steps (by default 100000)",
    },
    Argument {
        name: "ports",
        kind: Kind::Optional("ports", "LIST"),
        help: "The ports of the switches, such as 1-8,100 (by default 1 to 4 and those that flows and groups of both files name)",
    },
    COLOR,
];

const PATHS_ARGUMENTS: [Argument; 9] = [
    Argument {
        name: "FILE",
        kind: Kind::Positional,
        help: "The file of the switch; - is standard input",
    },
    Argument {
        name: "N",
        kind: Kind::Optional("port", "N"),
        help: "Only frames that come in by this port",
    },
    Argument {
        name: "match",
        kind: Kind::Optional("match", "WORDS"),
        help: "Only frames that these words match, such as ip,nw_dst=10.0.0.0/8 (ovs-fields(7))",
    },
    Argument {
        name: "each",
        kind: Kind::Flag("each"),
        help: "Print a path for each set of frames, with a frame of each",
    },
    Argument {
        name: "to",
        kind: Kind::Optional("to", "PLACE"),
        help: "Print only paths that leave by that port, that go to the `controller`, or that `drop` the frame",
    },
    Argument {
        name: "json",
        kind: Kind::Flag("json"),
        help: "Print the paths as JSON (docs/JSON.md)",
    },
    Argument {
        name: "steps",
        kind: Kind::Optional("steps", "N"),
        help: "Leave frames undecided after N steps (by default 100000)",
    },
    Argument {
        name: "ports",
        kind: Kind::Optional("ports", "LIST"),
        help: "The ports of the switch of FILE, such as 1-8,100 (by default 1 to 4 and those that its flows and groups name)",
    },
    COLOR,
];

// A subcommand: its name, its help before and after the arguments, and its arguments.
pub(crate) struct Subcommand {
    pub(crate) name: &'static str,
    pub(crate) about: &'static str,
    text: &'static str,
    pub(crate) arguments: &'static [Argument],
    // Those that say how what ovs-ofctl prints is read, if it reads that.
    pub(crate) of_tables: &'static [Argument],
}

pub(crate) const SUBCOMMANDS: [Subcommand; 12] = [
    Subcommand {
        name: "replay",
        about: "Runs an event file on a new switch and prints the effects",
        text: EVENT_FILES,
        arguments: &REPLAY,
        of_tables: &[],
    },
    Subcommand {
        name: "asm",
        about: "Prints an event file that builds the groups and flows of a file",
        text: FLOW_TEXT,
        arguments: &ASSEMBLE,
        of_tables: &OVS_READING,
    },
    Subcommand {
        name: "dis",
        about: "Prints groups and flows of a file as flow text, or for ovs-ofctl",
        text: DISASSEMBLY,
        arguments: &DISASSEMBLE,
        of_tables: &OVS_READING,
    },
    Subcommand {
        name: "import",
        about: "Converts flows and groups in the syntax of ovs-ofctl to flow text",
        text: IMPORTS,
        arguments: &IMPORT,
        of_tables: &OVS_READING,
    },
    Subcommand {
        name: "say",
        about: "Prints OpenFlow messages in words, or the bytes that words say",
        text: SAYING,
        arguments: &SAY,
        of_tables: &[],
    },
    Subcommand {
        name: "trace",
        about: "Prints each step of a frame through a switch",
        text: TRACES,
        arguments: &TRACE,
        of_tables: &OVS_READING,
    },
    Subcommand {
        name: "history",
        about: "Finds where in an event file the fate of a frame or of flows changes",
        text: HISTORIES,
        arguments: &HISTORY,
        of_tables: &[],
    },
    Subcommand {
        name: "check",
        about: "Finds flow entries that can never win, and other likely mistakes",
        text: CHECKS,
        arguments: &CHECK,
        of_tables: &OVS_READING,
    },
    Subcommand {
        name: "diff",
        about: "Finds frames that two switches treat differently",
        text: DIFFS,
        arguments: &DIFF,
        of_tables: &OVS_READING,
    },
    Subcommand {
        name: "paths",
        about: "Divides all frames that a switch receives by the steps that they take",
        text: PATHS,
        arguments: &PATHS_ARGUMENTS,
        of_tables: &OVS_READING,
    },
    Subcommand {
        name: "serve",
        about: "Serves OpenFlow 1.3 controllers over TCP",
        text: SERVING,
        arguments: &SERVE,
        of_tables: &OVS_READING,
    },
    Subcommand {
        name: "live",
        about: "Forwards the frames of a network, in VXLAN datagrams",
        text: LIVE,
        arguments: &LIVE_ARGUMENTS,
        of_tables: &OVS_READING,
    },
];

/// The command line of the program.
pub fn command<'a>(alloc: Global) -> Result<Command<'a>, AllocError> {
    let mut command = Command::new(alloc, "ofswitch")
        .version(VERSION)
        .about(ABOUT)
        .after_help(STATUSES)
        .subcommand_required(true)
        .arg_required_else_help(true);
    for it in &SUBCOMMANDS {
        command = command.subcommand(subcommand_of(alloc, it)?)?;
    }
    Ok(command)
}

fn subcommand_of<'a>(alloc: Global, row: &Subcommand) -> Result<Command<'a>, AllocError> {
    let mut command = Command::new(alloc, row.name)
        .about(row.about)
        .after_help(row.text);
    let needed = !row.arguments.iter().any(|it| is_free(&it.kind));
    let mut alternatives = ArgGroup::new(alloc, ALTERNATIVES).required(needed);
    let mut some = false;
    for it in row.arguments.iter().chain(row.of_tables.iter()) {
        if is_alternative(&it.kind) {
            alternatives = alternatives.arg(it.name)?;
            some = true;
        }
        command = command.arg(argument_of(alloc, it)?)?;
    }
    if some {
        command.group(alternatives)
    } else {
        Ok(command)
    }
}

// Whether an argument is one of those of which there has to be exactly one.
fn is_alternative(kind: &Kind) -> bool {
    match kind {
        Kind::Alternative(_, _) | Kind::Place => true,
        _ => false,
    }
}

fn is_free(kind: &Kind) -> bool {
    match kind {
        Kind::Free => true,
        _ => false,
    }
}

// A number below 0 is a value, too, which is refused as such.
fn valued<'a>(named: Arg<'a>, option: &'a str, value: &'a str) -> Arg<'a> {
    named
        .long(option)
        .value_name(value)
        .allow_negative_numbers(true)
}

fn argument_of<'a>(alloc: Global, argument: &Argument) -> Result<Arg<'a>, AllocError> {
    let named = Arg::new(alloc, argument.name).help(argument.help);
    match argument.kind {
        Kind::Positional => Ok(named.required(true)),
        Kind::Words => Ok(named.required(true).num_args(1..)),
        Kind::Place | Kind::Free => Ok(named),
        Kind::Required(option) => Ok(named.long(option).required(true)),
        Kind::Alternative(option, value) | Kind::Optional(option, value) => Ok(valued(
            named, option, value,
        )),
        Kind::Repeated(option, value) => Ok(valued(named, option, value).action(ArgAction::Append)),
        Kind::Excluded(option, value, other) => valued(named, option, value).conflicts_with(other),
        Kind::ExcludedByBoth(option, value, one, other) => valued(named, option, value)
            .conflicts_with(one)?
            .conflicts_with(other),
        Kind::Flag(option) => Ok(named.long(option).action(ArgAction::SetTrue)),
    }
}
