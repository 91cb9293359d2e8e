//! What `serve` and `live` run over: sockets, the machine's clock, standard input and the file of a log; and what they decide without a socket: what
//! a failed call means, how long to pause, which rows are refused.
#![tactic(auto)]

mod calls;
mod controller;
mod course;
mod event_log;
mod event_rows;
pub mod live;
mod machine;
mod opening;
mod pauses;
mod refusals;
mod seed;
pub mod serving;
mod silence;
mod standard_input;
mod teller;

pub use calls::{
    Attempt, Ending, attempt_of, ended_unopened, ending_of, is_nobody, read_some, reading_of,
    write_some,
};
pub use course::{Course, Output};
pub use event_rows::read_rows;
pub use machine::{Machine, MachineClock};
pub use opening::said;
pub use pauses::{FIRST_PAUSE, LONGEST_PAUSE, Pauses};
pub use refusals::{Refusals, RefusedRow, later_of, refusal_of, row_numbers};
pub use seed::draw_seed;
pub use silence::{DOUBT, GREETING_WAIT, Heard, PATIENCE, begins_whole};
pub use standard_input::StandardInput;
pub use teller::Teller;
