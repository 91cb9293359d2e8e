//! Tests of what is read and written: actions, action sets, messages, and requests of a controller as bytes; flow text (docs/FLOWTEXT.md) and the
//! names of errors; the import of tables of Open vSwitch (docs/IMPORT.md); configurations as messages; frames in words. Each public call with ample
//! memory, and vectors from outside. Texts that the program prints are in tests/test_texts.py.
//!
//! They are in a separate crate, since a crate that has tests is proved twice.
#![tactic(auto)]

#[cfg(test)]
mod action_set;
#[cfg(test)]
mod actions;
#[cfg(test)]
mod channel;
#[cfg(test)]
mod checks;
#[cfg(test)]
mod config;
#[cfg(test)]
mod frames;
#[cfg(test)]
mod groups_and_ports;
#[cfg(test)]
mod import;
#[cfg(test)]
mod import_json;
#[cfg(test)]
mod messages;
#[cfg(test)]
mod numbers;
#[cfg(test)]
mod requests;
#[cfg(test)]
mod shown;
#[cfg(test)]
mod tables;
#[cfg(test)]
mod text;
