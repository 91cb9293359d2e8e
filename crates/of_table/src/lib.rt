//! Flow tables: their entries, which of them a packet hits, and their counters (OpenFlow 1.3.5, 5.2, 5.3, 5.8 and 6.4).
#![tactic(auto)]

mod copied;
mod copies;
mod deadlines;
mod each_table;
mod entries;
mod entry;
mod flow;
mod flow_table;
mod flow_tables;
mod laws;
mod modifying;
mod places;
mod removing;
mod selection;
mod span;
mod table_fault;
mod walk;

pub use copied::Copied;
pub use entry::Entry;
pub use flow::{Flow, FlowFlags};
pub use flow_tables::FlowTables;
pub use laws::{copies_restore, swaps_undo};
pub use of_wire::FlowRemovedReason;
pub use selection::{Cause, NANOS, Removed, Selector, is_in, names_group, selects};
pub use table_fault::TableFault;
pub use walk::Entries;
