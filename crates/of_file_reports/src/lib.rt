//! What the program prints about a file that was read: what is wrong with it, what is left out of it, and the reports of `import`, `trace`,
//! `paths` and `check` on the switch that it describes. All commands print on its `Screen`. It opens no file except the one of `--junit`,
//! which it writes.
#![tactic(auto)]

mod checking;
mod contents;
mod faults;
mod importing;
mod left_out;
mod lookups;
mod paths;
mod progress;
mod requiring;
mod screen;
mod tracing;
mod words;

pub use checking::{CheckVerdict, checked};
pub use contents::{
    FileRead, NoFile, SwitchRead, config_of, content_said, contents_of, is_table,
    is_without_options, mode_of, say_name, switch_read,
};
pub use faults::{Fault, print_fault};
pub use importing::{NotImported, imported, imported_as_json};
pub use left_out::{LeftCount, say_part};
pub use lookups::Lookups;
pub use paths::{NoPaths, divided};
pub use progress::Progress;
pub use requiring::required_in;
pub use screen::{Report, Screen};
pub use tracing::{TraceVerdict, traced_on_switch, traced_on_text};
pub use words::{say_fault, say_word};
