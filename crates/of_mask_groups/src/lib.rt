//! A classifier by groups of masks: one hashed map for each distinct mask.
#![tactic(auto)]

mod cells;
mod entry;
mod found;
mod group;
mod groups;
mod mask_groups;
mod probing;
mod rank;
mod renumbering;
mod same;

pub use mask_groups::MaskGroups;
