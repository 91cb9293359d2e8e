//! What files are read as: groups and flows of a flow text or of what ovs-ofctl prints, or the switch after the rows of an event file; and
//! the ports of a switch that has the groups and flows of a file, and the events that give it these.
#![tactic(auto)]

mod beginning;
mod contents;
mod flow_lines;
mod playing;
mod ports;
mod switches;
mod tables;

pub use beginning::first_events;
pub use contents::{Content, content_of};
pub use flow_lines::text_origins;
pub use playing::play_file;
pub use ports::{FIRST_PORTS, missing_ports, named_ports, ports_for, push_required_port};
pub use switches::{
    Contents, Described, FileSwitch, NoContents, PortList, WHOLE, both_ports, describe, file_ports,
    file_switch, port_list, push_named, read_contents, switch_of,
};
pub use tables::{FileTables, LeftOut, read_table, read_text};
