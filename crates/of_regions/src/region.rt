//! Regions.
ghost use Rattle.std.specs.Prelude.{◌≡◌};
ghost use Rattle.of_headers.specs.FieldMap.{value};
ghost use Rattle.of_oxm.specs.Masks.{mask_at};
ghost use Rattle.of_regions.specs.Known.{AllKnown};

use of_frames::{Shape, Tagging};
use of_headers::FieldKey;
use of_oxm::FieldMask;

/// Packets of one shape. Of each field that has a mask it is known whether they have it, and its bits under the mask.
///
/// If something is known about tags, the tagging is known.
#[derive(Clone, Copy)]
pub struct Region {
    pub shape: Shape,
    pub tagging: Option<Tagging>,
    pub masks: FieldMask,
    pub known: FieldKey,
    ghost each: { AllKnown shape tagging (mask_at masks) (value known) },
}
