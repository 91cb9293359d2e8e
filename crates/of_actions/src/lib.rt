//! Actions and instructions, and their encodings (OpenFlow 1.3.5, 5.9 to 5.12, 7.2.4 and 7.2.5).
#![tactic(auto)]

mod action;
mod action_list;
mod action_reading;
mod action_writing;
mod argument;
mod flow_check;
mod header_reading;
mod instruction;
mod instruction_list;
mod instruction_reading;
mod instruction_writing;
mod port_number;
mod rows;
mod run_order;
mod set_field;
mod unread;

pub use action::Action;
pub use action_list::ActionList;
pub use action_reading::{one_reading, read_actions};
pub use action_writing::write_actions;
pub use argument::Argument;
pub use flow_check::{are_needs_met, check_flow};
pub use instruction::Instruction;
pub use instruction_list::InstructionList;
pub use instruction_reading::{one_instruction_reading, read_instructions};
pub use instruction_writing::{put_instructions, write_instructions};
pub use port_number::{is_number, is_port};
pub use rows::{ACTIONS, ActionRow, Form, row_of};
