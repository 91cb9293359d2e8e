//! How the program's switch looks entries up.
use of_cache::Cached;
use of_mask_groups::MaskGroups;

/// Rows of answers over one map for each distinct mask.
pub type Lookups = Cached<MaskGroups>;
