//! Regions of field maps, and rows of a cache.
ghost use Rattle.std.specs.Hash as fed;
ghost use Rattle.std.specs.List.{flat_map};
ghost use Rattle.of_headers.specs.Digest.{key_words};
ghost use Rattle.of_cache.specs.SameRegion.{same_region_fed};

use of_headers::FieldKey;
use of_oxm::FieldMask;
use std::hash::{Hash, Hasher};

/// The field maps that look like a key under a mask.
#[derive(Clone, Copy, PartialEq, Eq)]
pub struct Region {
    pub key: FieldKey,
    pub mask: FieldMask,
}

// Numbers that depend on all fields of the key.
impl Hash for Region {
    ghost hash_input = { λ r. flat_map fed.u128 (key_words r.key.numbers) };

    ghost respects_eq = { same_region_fed };

    fn hash<H: Hasher>(&self, state: &mut H) {
        u128::hash_slice(&self.key.words(), state);
    }
}

/// The number of the entry that wins in a region, or `None` where no entry matches there.
#[derive(Clone, Copy, PartialEq, Eq)]
pub struct Row {
    pub region: Region,
    pub answer: Option<usize>,
}
