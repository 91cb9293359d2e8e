//! Tests of the public calls on frames and matches, and on the classifiers (which entry wins, how many masks were asked, which rows a cache
//! keeps): each once with ample memory, and vectors from outside.
//!
//! They are in a separate crate, since a crate that has tests is proved twice.
#![tactic(auto)]

#[cfg(test)]
mod cache;
#[cfg(test)]
mod checks;
#[cfg(test)]
mod counting;
#[cfg(test)]
mod headers;
#[cfg(test)]
mod keys;
#[cfg(test)]
mod mask_groups;
#[cfg(test)]
mod oxm;
#[cfg(test)]
mod rewrite;
#[cfg(test)]
mod steps;
#[cfg(test)]
mod two_entries;
