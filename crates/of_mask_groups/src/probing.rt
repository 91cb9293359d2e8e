//! The groups that a search asks.
ghost use Rattle.std.specs.Prelude.{◌≡◌, take};
ghost use Rattle.slab.specs.Slab.{get};
ghost use Rattle.of_layers.specs.declared.field.Field.{Field};
ghost use Rattle.of_headers.specs.FieldMap.{value};
ghost use Rattle.of_oxm.specs.Masks.{mask_at};
ghost use Rattle.of_mask_groups.specs.{Covering.is_above_best, Grouping.AreGrouped, Probed.AreProbed, Probed.IsDone, Probed.groups_look};

use crate::entry::Entry;
use crate::found::{Found, best_among};
use crate::group::Group;
use of_headers::FieldKey;
use of_oxm::FieldMask;
use slab::Slab;

/// The best entry that matches the key, and how many groups were asked for it: the first ones, up to the first that has no
/// entry of at least its priority.
pub(crate) fn probe_groups(
    entries: &Slab<Entry>,
    groups: &[Group],
    key: &FieldKey,
) -> (Option<Found>, usize)
    requires { AreGrouped entries.now groups.now }
    ensures probed { AreProbed entries.now (value key.now) (take result.1 groups.now) result.0 result.1 }
    ensures done { IsDone groups.now (take result.1 groups.now) result.0 }
{
    let mut best: Option<Found> = None;
    let mut probes: usize = 0;
    for group in groups {
        if is_above(best, group.best) {
            return (best, probes);
        }
        let numbers = group.probe(&group.mask.masked(key), &mut probes);
        best = best_among(entries, numbers, key, best);
    }
    (best, probes)
}

fn is_above(best: Option<Found>, priority: u16) -> bool
    ensures { result ≡ is_above_best best priority }
{
    match best {
        Some(found) => priority < found.priority,
        None => false,
    }
}

/// The masks of the groups, in one.
pub(crate) fn mask_of_groups(groups: &[Group]) -> FieldMask
    ensures { (f : Field) → mask_at result f ≡ groups_look groups.now f }
{
    let mut mask = FieldMask::empty();
    for group in groups {
        mask = mask.or(&group.mask);
    }
    mask
}
