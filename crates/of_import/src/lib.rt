//! Tables of Open vSwitch, as `ovs-ofctl` prints and reads them, as configurations.
#![tactic(auto)]

mod copies;
mod counters;
mod import;
mod kept;
mod laws;
mod notes;
mod parsed_lines;
mod table_numbers;

pub use import::{
    Import, ImportConfig, ImportError, ImportText, import_config, import_tables, import_text,
};
pub use kept::{KeptLines, LineRefusal};
pub use laws::comments_change_nothing;
pub use of_ovs_words::{Why, name_of, value_of};
pub use parsed_lines::{FlowLine, GroupLine, LineFaults};
