//! Rows that an added entry would win over.
ghost use Rattle.std.specs.{Prelude.◌≡◌, Prelude.IsTrue, List.Contains};
ghost use Rattle.of_layers.specs.declared.field.Field.{Field};
ghost use Rattle.of_headers.specs.FieldMap.{seen};
ghost use Rattle.of_oxm.specs.{declared.masks.FieldMask.FieldMask as AMask, Masks.mask_at};
ghost use Rattle.of_cache.specs.{Regions.AnsweredRegion, Regions.IsRegion, Regions.IsWithin, Causes.staying, Listed.AreListed};

use crate::cause::Cause;
use crate::dropping::{Rows, drop_row, drop_rows};
use crate::region::Region;
use of_headers::FieldKey;
use of_oxm::FieldMask;

// Whether one mask looks at no bit that the other does not look at.
fn is_within(mask: &FieldMask, wider: &FieldMask) -> bool
    ensures { IsTrue result → IsWithin mask.now wider.now }
{
    wider.masked(&mask.masks) == mask.masks
}

// Whether that is so of each of the masks.
fn are_within(masks: &[FieldMask], wider: &FieldMask) -> bool
    ensures { IsTrue result → (mask : AMask) → Contains masks.now mask → IsWithin mask wider.now }
{
    masks.iter().all(|mask| is_within(mask, wider))
}

/// Drops the rows whose regions a match of that mask and these values meets, and whose answers an entry of that priority would
/// win over. The others keep their order.
///
/// Of a mask that looks at no bit that the match does not look at, the match meets one region at most.
pub(crate) fn drop_beaten(
    rows: &mut Rows,
    masks: &[FieldMask],
    mask: &FieldMask,
    key: &FieldKey,
    priority: u16,
)
    requires listed { AreListed masks.now rows.old.entries }
    requires regions { (row : AnsweredRegion) → Contains rows.old.entries row → IsRegion row.0 }
    ensures entries { rows.new.entries ≡ staying (Cause.Added mask.now key.now priority) rows.old.entries }
    ensures capacity { rows.new.cap ≡ rows.old.cap }
{
    let cause = Cause::Added(*mask, *key, priority);
    if !are_within(masks, mask) {
        drop_rows(rows, &cause);
        return;
    }
    for each in masks {
        let region = Region {
            key: each.masked(key),
            mask: *each,
        };
        drop_row(rows, &region, &cause);
    }
}
