//! Tests of the public calls on flow tables, on a frame's way through them, on a session's stream and on the switch, and of event files that are
//! replayed: each once with ample memory, events that are done again where there was none, and reads and writes that fail in turn.
//!
//! They are in a separate crate, since a crate that has tests is proved twice.
#![tactic(auto)]

#[cfg(test)]
mod again;
#[cfg(test)]
mod calling;
#[cfg(test)]
mod checks;
#[cfg(test)]
mod events;
#[cfg(test)]
mod lists;
#[cfg(test)]
mod machine;
#[cfg(test)]
mod memory;
#[cfg(test)]
mod part;
#[cfg(test)]
mod replayed;
#[cfg(test)]
mod session;
#[cfg(test)]
mod streams;
#[cfg(test)]
mod table;
