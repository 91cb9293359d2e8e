//! Lines of tables of Open vSwitch, as `ovs-ofctl` prints and reads them: the flow or the group that a line says, and ports by their names.
#![tactic(auto)]

mod finish;
mod line;
mod mode;
mod partial_flow;
mod partial_group;
mod port_names;
mod word_fault;

pub use line::{FlowMarks, LineContent, begins_group, read_line, trimmed};
pub use mode::Mode;
pub use partial_flow::begins_actions;
pub use port_names::with_port_numbers;
pub use word_fault::WordFault;
