//! Rows that are found, and new ones.
ghost use Rattle.std.specs.Prelude.{◌≡◌, ◌⊎◌, ◌-◌, ◌∷◌, take, None, IfSome, IfNone, IsTrue, true, false};
ghost use Rattle.std.specs.{List.IsDistinct, Map.lookup};
ghost use Rattle.lru.specs.LruCache.{lru_cache, promoted};
ghost use Rattle.of_headers.specs.FieldMap.{value};
ghost use Rattle.of_oxm.specs.declared.masks.FieldMask.{FieldMask as AMask};
ghost use Rattle.of_cache.specs.Listed.{AreListed, AreMasks, has_row_with_mask, is_same_mask, is_same_region, with_mask};
ghost use Rattle.of_cache.specs.{Finding.IsHit, Finding.NoneHolds, Regions.Holds};

use crate::dropping::{Answer, Rows};
use crate::region::Region;
use of_headers::FieldKey;
use of_oxm::FieldMask;

// The answer of the row of a region, which comes first.
fn touch(rows: &mut Rows, region: &Region) -> Option<Answer>
    ensures answer { result ≡ lookup (is_same_region region.now) rows.old.entries }
    ensures rows { rows.new ≡ lru_cache (promoted (is_same_region region.now) rows.old.entries) rows.old.cap }
{
    rows.get(region).copied()
}

// Whether the region holds the key. It is not inlined, so that a key whose other fields are not looked at stays where it is.
#[inline(never)]
fn holds(region: &Region, key: &FieldKey) -> bool
    ensures { IsTrue result → Holds region.now (value key.now) }
{
    region.key.is_under(key, &region.mask.masks)
}

// The answer of the first row, if its region holds the key: a frame is often followed by others like it.
fn first_answer(rows: &Rows, key: &FieldKey) -> Option<Answer>
    ensures { IfSome result (IsHit rows.now.entries rows.now.entries (value key.now)) }
{
    match rows.peek_mru() {
        Some((region, answer)) => {
            if holds(region, key) {
                Some(*answer)
            } else {
                None
            }
        }
        None => None,
    }
}

// The answer of a row whose region holds the key, which comes first.
fn find_by_mask(rows: &mut Rows, masks: &[FieldMask], key: &FieldKey) -> Option<Answer>
    requires { AreListed masks.now rows.old.entries }
    ensures hit { IfSome result (IsHit rows.old.entries rows.new.entries (value key.now)) }
    ensures none { IfNone result (NoneHolds rows.old.entries (value key.now)) }
    ensures same { IfNone result (rows.new ≡ rows.old) }
    ensures capacity { rows.new.cap ≡ rows.old.cap }
{
    for mask in masks {
        let region = Region {
            key: mask.masked(key),
            mask: *mask,
        };
        if let Some(answer) = touch(rows, &region) {
            return Some(answer);
        }
    }
    None
}

/// The answer of a row whose region holds the key, which comes first.
pub(crate) fn find(rows: &mut Rows, masks: &[FieldMask], key: &FieldKey) -> Option<Answer>
    requires { AreListed masks.now rows.old.entries }
    ensures hit { IfSome result (IsHit rows.old.entries rows.new.entries (value key.now)) }
    ensures none { IfNone result (NoneHolds rows.old.entries (value key.now)) }
    ensures same { IfNone result (rows.new ≡ rows.old) }
    ensures capacity { rows.new.cap ≡ rows.old.cap }
{
    match first_answer(rows, key) {
        Some(answer) => Some(answer),
        None => find_by_mask(rows, masks, key),
    }
}

// Makes sure that the mask is listed, if there is memory for it.
fn list_mask(masks: &mut Vec<FieldMask>, mask: &FieldMask) -> bool
    ensures listed { IsTrue result → masks.new.items ≡ with_mask mask.now masks.old.items }
    ensures same { result ≡ false → masks.new.items ≡ masks.old.items }
{
    if masks.contains(mask) {
        return true;
    }
    masks.push(*mask).is_ok()
}

// Whether some row has the mask.
fn is_used(rows: &Rows, mask: &FieldMask) -> bool
    ensures { result ≡ has_row_with_mask rows.now.entries mask.now }
{
    rows.iter().any(|(region, _)| region.mask == *mask)
}

/// Drops the masks that no row has.
pub(crate) fn drop_masks(rows: &Rows, masks: &mut Vec<FieldMask>)
    requires listed { AreListed masks.old.items rows.now.entries }
    requires once { IsDistinct is_same_mask masks.old.items }
    ensures { AreMasks masks.new.items rows.now.entries }
{
    masks.retain(|mask| is_used(rows, mask));
}

// Puts a row first, if there is memory for it, and returns whether all masks that rows had, and that of the region, are still those of rows.
fn push_row(rows: &mut Rows, region: Region, answer: Answer) -> bool
    requires new { lookup (is_same_region region) rows.old.entries ≡ None }
    ensures rows { (rows.new.entries ≡ rows.old.entries) ⊎ (rows.new.entries ≡ (region, answer) ∷ take (rows.old.cap - 1) rows.old.entries) }
    ensures capacity { rows.new.cap ≡ rows.old.cap }
    ensures used { IsTrue result → (mask : AMask) → (has_row_with_mask rows.old.entries mask ≡ true) ⊎ (region.mask ≡ mask) →
        has_row_with_mask rows.new.entries mask ≡ true }
{
    // its contract says that there are no more rows than the capacity
    rows.len();
    match rows.push(region, answer) {
        Ok(None) => true,
        Ok(Some((gone, _))) => is_used(rows, &gone.mask),
        Err(_) => false,
    }
}

/// Puts a row first, if there is memory for it.
pub(crate) fn store(rows: &mut Rows, masks: &mut Vec<FieldMask>, region: Region, answer: Answer)
    requires masks { AreMasks masks.old.items rows.old.entries }
    requires new { lookup (is_same_region region) rows.old.entries ≡ None }
    ensures rows { (rows.new.entries ≡ rows.old.entries) ⊎ (rows.new.entries ≡ (region, answer) ∷ take (rows.old.cap - 1) rows.old.entries) }
    ensures capacity { rows.new.cap ≡ rows.old.cap }
    ensures masks { AreMasks masks.new.items rows.new.entries }
{
    if !list_mask(masks, &region.mask) {
        return;
    }
    if !push_row(rows, region, answer) {
        drop_masks(rows, masks);
    }
}
