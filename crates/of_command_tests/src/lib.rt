//! Tests of what commands of the program do, in memory: of what files are read as, of the check (which entries of a flow text win, and which never do), of the
//! tracer, of messages in words, of a switch that serves controllers, and of one on a network. Each public call with ample memory. Texts that
//! the program prints are in tests/test_texts.py.
//!
//! They are in a separate crate, since a crate that has tests is proved twice.
#![tactic(auto)]

#[cfg(test)]
mod asked;
#[cfg(test)]
mod calls;
#[cfg(test)]
mod checks;
#[cfg(test)]
mod files;
#[cfg(test)]
mod findings;
#[cfg(test)]
mod live;
#[cfg(test)]
mod served;
#[cfg(test)]
mod traces;
