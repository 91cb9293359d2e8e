//! Event files: rows from a source, and what a switch gives for them to a sink.
#![tactic(auto)]

mod config_file;
mod disassembling;
mod event_file;
mod flow_text;
mod halt;
mod io;
mod laws;
mod lexing;
mod loading;
pub mod memory;
mod open_line;
mod output;
mod plain;
mod play;
mod replaying;
mod rows;
pub mod streams;
mod telling;
mod transfer;
mod whole_file;

pub use config_file::{config_of_text, read_config};
pub use disassembling::{dis, read_switch};
pub use event_file::{Ended, MOST_READS, READ_SIZE, ended_by, print_file, replay, status, zeros};
pub use flow_text::asm;
pub use halt::Halt;
pub use io::{Reading, Sink, Source, Writing};
pub use laws::{files_come_whole, mark_changes_nothing, written_rows_are_read};
pub use lexing::{cut_word, read_bytes, read_number};
pub use loading::{DPID, switch_of_config};
pub use output::push_effects;
pub use plain::Plain;
pub use play::play_row;
pub use rows::{Row, read_row};
pub use telling::RowPrinter;
pub use transfer::write_all;
pub use whole_file::read_file;
