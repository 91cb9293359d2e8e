//! What `serve` and `live` are asked for.

use crate::command::{Argument, DATAPATH_ID, Kind};

/// What the help of `serve` says.
pub(crate) const SERVING: &str =
    "A controller connects over TCP (`--listen`), or the switch connects to it
(`--connect`), and reconnects whenever the connection is lost. It serves one
controller at a time: another one that connects meanwhile is closed at once,
unless nothing was heard of the first for 15 seconds. Without a HELLO a
connection is closed after 10 seconds. The switch keeps its flows between
connections, but its time advances only while there is one.

  ofswitch serve                          wait at 127.0.0.1:6653
  ofswitch serve --connect 10.0.0.1:6653  connect to a controller that listens
  ofswitch serve --events ports.events    with ports and frames
  ofswitch serve --tables br0.flows       with groups and flows

The event file has the rows of `replay`, except `connect`, `lost` and `c`,
which are bad rows here. It is read completely before a controller connects. A
row happens as soon as a controller is connected and each `t` row before it is
due, in nanoseconds since the start. Frames that leave are printed (`s PORT
HEX`); a line on standard error reports each connection and its end. The log is
an event file of all that happens (`ofswitch live --help`).

With --tables the switch begins with the groups and flows that `check` would
read from that file: as if, before all else, a controller had sent the messages
that `asm` prints, and had gone. The log has their rows in front.

A turn is an accept, or one read of at most 65,536 bytes that waits at most 2
seconds.";

/// What the help of `live` says.
pub(crate) const LIVE: &str =
    "The switch forwards the frames of a network. Port N is VXLAN network N (RFC
7348): what comes in a datagram of that network is received at port N, and what
leaves by port N is sent to the peer of that network. A peer is the address
that the network's last datagram came from, or the one that `--peer` sets.
Linux, Open vSwitch and containers have VXLAN interfaces, so the switch needs
no network interface of its own, and no privileges.

  # ports 1 and 2, at UDP port 4789; a controller connects to 127.0.0.1:6653
  ofswitch live --ports 2
  # the switch connects to a controller
  ofswitch live --ports 2 --connect 10.0.0.1:6653
  # port 1 is at 10.0.0.7; everything that happens is logged
  ofswitch live --ports 4 --peer 1=10.0.0.7 --log run.events
  # with groups and flows from the start
  ofswitch live --ports 2 --tables br0.flows
  # a host's interface at port 1 (then: ip link set vx1 up)
  ip link add vx1 type vxlan id 1 remote SWITCH dstport 4789

Without a controller the switch goes on forwarding, and flows expire by the
clock. One controller is served at a time: another one that connects meanwhile
is closed at once, unless nothing was heard of the first for 15 seconds.
Without a HELLO a connection is closed after 10 seconds, and so is one that
reads nothing for 10 seconds, or for which more than 256 MiB wait. If nothing
was heard for 60 seconds of a controller that the switch connected to, the
switch connects once more, and takes the new connection.

The event file has the rows of `replay`, except `connect`, `lost` and `c`; its
rows happen as soon as the time of each `t` row before them has come, in
nanoseconds since the start. With `--rows -`, rows `f` and `port` on standard
input happen as soon as they are read, such as `port link 1 down`. Standard
error reports bad rows and refused rows; the switch goes on. For --tables see
`ofswitch serve --help`.

The log is an event file of all that happens, and a row is written before
anything goes out for it. Its first line says how to replay it, such as `#
replay with --dpid 2`. So `replay LOG` prints the frames that the switch sent
(and those for ports whose peer was not known), `dis LOG` its flow tables, and
`trace --events LOG` and `check --events LOG` say why.

A turn is one thing that comes: the time, a datagram, a row, or bytes of the
controller.";

// Of `serve` and of `live`.
const LISTEN: Argument = Argument {
    name: "listen",
    kind: Kind::Optional("listen", "ADDR"),
    help: "The address at which to wait for a controller, such as 127.0.0.1:6653 (the default) or [::]:6653",
};

const CONNECT: Argument = Argument {
    name: "connect",
    kind: Kind::Excluded("connect", "ADDR", "listen"),
    help: "The controller to connect to, such as 10.0.0.1:6653",
};

const IDLE: Argument = Argument {
    name: "idle",
    kind: Kind::Optional("idle", "S"),
    help: "Close a connection of which nothing was heard for S seconds (by default never)",
};

const TABLES: Argument = Argument {
    name: "tables",
    kind: Kind::Optional("tables", "FILE"),
    help: "Begin with the groups and flows of a flow text, of what ovs-ofctl prints, or of an event file",
};

const EVENTS: Argument = Argument {
    name: "FILE",
    kind: Kind::Optional("events", "FILE"),
    help: "An event file with ports and frames",
};

const LOG: Argument = Argument {
    name: "log",
    kind: Kind::Optional("log", "FILE"),
    help: "Log all events to this event file",
};

const QUIET: Argument = Argument {
    name: "quiet",
    kind: Kind::Flag("quiet"),
    help: "Do not report connections on standard error",
};

/// The arguments of `serve`.
pub(crate) const SERVE: [Argument; 9] = [
    LISTEN,
    CONNECT,
    IDLE,
    TABLES,
    EVENTS,
    LOG,
    Argument {
        name: "turns",
        kind: Kind::Optional("turns", "N"),
        help: "End after N turns (by default 1000000)",
    },
    DATAPATH_ID,
    QUIET,
];

/// The arguments of `live`.
pub(crate) const LIVE_ARGUMENTS: [Argument; 13] = [
    Argument {
        name: "vxlan",
        kind: Kind::Optional("vxlan", "ADDR[:PORT]"),
        help: "The address and UDP port at which to receive datagrams (by default 0.0.0.0:4789)",
    },
    LISTEN,
    CONNECT,
    IDLE,
    Argument {
        name: "ports",
        kind: Kind::Optional("ports", "N"),
        help: "Add the ports 1 to N, whose links are up (by default 0)",
    },
    TABLES,
    EVENTS,
    Argument {
        name: "rows",
        kind: Kind::Optional("rows", "-"),
        help: "Take rows of frames and ports from standard input while the switch runs",
    },
    Argument {
        name: "peer",
        kind: Kind::Repeated("peer", "N=ADDR[:PORT]"),
        help: "The address of the peer of port N (by default the sender of its last datagram)",
    },
    LOG,
    Argument {
        name: "turns",
        kind: Kind::Optional("turns", "N"),
        help: "End after N turns (by default never)",
    },
    DATAPATH_ID,
    QUIET,
];
