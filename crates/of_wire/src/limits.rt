//! The limits of this switch, and the numbers by which the standard names all, any or none of something. Definitions and code cite them from here.

/// How many flow tables there are: they have the numbers 0 to 15.
pub const TABLES: u8 = 16;

/// How many entries a flow table has at most.
pub const MOST_ENTRIES: usize = 4096;

/// How many groups there are at most.
pub const MOST_GROUPS: usize = 256;

/// How many groups a chain of groups has at most.
pub const LONGEST_CHAIN: u8 = 3;

/// How many ports there are at most.
pub const MOST_PORTS: usize = 64;

/// How many frames are held at once for a controller: n_buffers (OpenFlow 1.3.5, 7.3.1).
pub const BUFFERS: u32 = 256;

/// All tables (OpenFlow 1.3.5, 7.3.4.3).
pub const OFPTT_ALL: u8 = 0xff;

/// The highest number of a port: those of a switch have the numbers 1 to this one (OpenFlow 1.3.5, 7.2.1).
pub const OFPP_MAX: u32 = 0xffff_ff00;

/// The ingress port of the packet (OpenFlow 1.3.5, 7.2.1).
pub const OFPP_IN_PORT: u32 = 0xffff_fff8;

/// The flow tables, from the first on; in a PACKET_OUT alone (OpenFlow 1.3.5, 7.2.1).
pub const OFPP_TABLE: u32 = 0xffff_fff9;

/// The switch's own forwarding, which this switch does not have (OpenFlow 1.3.5, 7.2.1).
pub const OFPP_NORMAL: u32 = 0xffff_fffa;

/// Each port but the ingress port of the packet and those that are not to be flooded, of which this switch has none (OpenFlow 1.3.5, 7.2.1).
pub const OFPP_FLOOD: u32 = 0xffff_fffb;

/// Each port but the ingress port of the packet (OpenFlow 1.3.5, 7.2.1).
pub const OFPP_ALL: u32 = 0xffff_fffc;

/// The controller (OpenFlow 1.3.5, 7.2.1).
pub const OFPP_CONTROLLER: u32 = 0xffff_fffd;

/// The switch's own network stack, which this switch does not have (OpenFlow 1.3.5, 7.2.1).
pub const OFPP_LOCAL: u32 = 0xffff_fffe;

/// No port is watched, or asked for; in a request for statistics, all ports (OpenFlow 1.3.5, 7.2.1).
pub const OFPP_ANY: u32 = 0xffff_ffff;

/// The highest number of a group (OpenFlow 1.3.5, 7.3.4.2).
pub const OFPG_MAX: u32 = 0xffff_ff00;

/// All groups (OpenFlow 1.3.5, 7.3.4.2).
pub const OFPG_ALL: u32 = 0xffff_fffc;

/// No group is watched, or asked for (OpenFlow 1.3.5, 7.3.4.2).
pub const OFPG_ANY: u32 = 0xffff_ffff;

/// No frame is held (OpenFlow 1.3.5, 7.4.1).
pub const OFP_NO_BUFFER: u32 = 0xffff_ffff;

/// The whole frame goes to the controller, and none is held (OpenFlow 1.3.5, 7.2.5).
pub const OFPCML_NO_BUFFER: u16 = 0xffff;

/// A FLOW_REMOVED is sent if the entry is removed (OpenFlow 1.3.5, 7.3.4.1).
pub const OFPFF_SEND_FLOW_REM: u16 = 1;

/// An ADD is refused if it overlaps an entry of its priority (OpenFlow 1.3.5, 7.3.4.1).
pub const OFPFF_CHECK_OVERLAP: u16 = 2;

/// An ADD or a MODIFY resets the counters of the entries that it replaces or modifies (OpenFlow 1.3.5, 7.3.4.1).
pub const OFPFF_RESET_COUNTS: u16 = 4;

/// The entry does not count packets (OpenFlow 1.3.5, 7.3.4.1).
pub const OFPFF_NO_PKT_COUNTS: u16 = 8;

/// The entry does not count bytes (OpenFlow 1.3.5, 7.3.4.1).
pub const OFPFF_NO_BYT_COUNTS: u16 = 16;

/// All flags of a FLOW_MOD (OpenFlow 1.3.5, 7.3.4.1).
pub const FLOW_MOD_FLAGS: u16 = OFPFF_SEND_FLOW_REM
    | OFPFF_CHECK_OVERLAP
    | OFPFF_RESET_COUNTS
    | OFPFF_NO_PKT_COUNTS
    | OFPFF_NO_BYT_COUNTS;

/// The flags that an entry keeps: the others are about the command (OpenFlow 1.3.5, 7.3.4.1).
pub const ENTRY_FLAGS: u16 = OFPFF_SEND_FLOW_REM | OFPFF_NO_PKT_COUNTS | OFPFF_NO_BYT_COUNTS;
