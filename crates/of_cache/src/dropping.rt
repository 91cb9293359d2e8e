//! Rows that go, one after another.
ghost use Rattle.std.specs.Prelude.{◌≡◌, ◌++◌, ◌&&◌, ℕ, false, not, List, [], ◌∷◌, Option, IfNone, filter, if◌then◌else◌};
ghost use Rattle.std.specs.List.{list_any};
ghost use Rattle.of_cache.specs.{declared.region.Region.Region as ARegion, Causes.goes as does_go, Causes.staying, Listed.is_same_region, Regions.AnsweredRegion};

use crate::cause::{Cause, goes};
use crate::hashing::SecretHasher;
use crate::region::Region;
use lru::LruCache;

/// The number and the priority of the entry that wins in a region, or `None`.
pub(crate) type Answer = Option<(usize, u16)>;

pub(crate) type Rows = LruCache<Region, Answer, SecretHasher>;

/// How many rows are dropped one by one.
const FEW: usize = 8;

// The last row, and whether it goes.
fn last_of(rows: &Rows, cause: &Cause) -> Option<(Region, bool)>
    ensures { (before : List AnsweredRegion) (row : AnsweredRegion) → rows.now.entries ≡ before ++ row ∷ [] → result ≡ Some (row.0, does_go cause.now row) }
{
    match rows.peek_lru() {
        Some((region, answer)) => Some((*region, goes(cause, region, answer))),
        None => None,
    }
}

// The last row goes, or comes first.
fn turn(rows: &mut Rows, cause: &Cause)
    ensures entries { (before : List AnsweredRegion) (row : AnsweredRegion) → rows.old.entries ≡ before ++ row ∷ [] →
        rows.new.entries ≡ (if does_go cause.now row then before else row ∷ before) }
    ensures capacity { rows.new.cap ≡ rows.old.cap }
{
    let _len = rows.len();
    match last_of(rows, cause) {
        Some((region, ends)) => {
            if ends {
                drop(rows.pop_lru());
            } else {
                rows.promote(&region);
            }
        }
        None => {}
    }
}

// Drops the rows that go: each row in turn goes or comes first, from the last one on, so that the others keep their order.
fn turn_all(rows: &mut Rows, cause: &Cause)
    ensures entries { rows.new.entries ≡ staying cause.now rows.old.entries }
    ensures capacity { rows.new.cap ≡ rows.old.cap }
{
    for _turned in 0..rows.len() {
        turn(rows, cause);
    }
}

// The region of the first row that goes.
fn first_that_goes(rows: &Rows, cause: &Cause) -> Option<Region>
    ensures { IfNone result (list_any (does_go cause.now) rows.now.entries ≡ false) }
{
    for (region, answer) in rows.iter() {
        if goes(cause, region, answer) {
            return Some(*region);
        }
    }
    None
}

/// Drops the row of a region, if it goes.
pub(crate) fn drop_row(rows: &mut Rows, region: &Region, cause: &Cause)
    ensures entries { rows.new.entries ≡ filter (λ row. not (does_go cause.now (region.now, row.1) && is_same_region region.now row.0)) rows.old.entries }
    ensures capacity { rows.new.cap ≡ rows.old.cap }
{
    let _len = rows.len();
    let is_dropped = match rows.peek(region) {
        Some(answer) => goes(cause, region, answer),
        None => false,
    };
    if is_dropped {
        rows.pop(region);
    }
}

/// Drops the rows that go. The others keep their order.
///
/// A few are looked for one by one; where more go, all rows are turned, which is linear.
pub(crate) fn drop_rows(rows: &mut Rows, cause: &Cause)
    ensures entries { rows.new.entries ≡ staying cause.now rows.old.entries }
    ensures capacity { rows.new.cap ≡ rows.old.cap }
{
    for _dropped in 0..FEW {
        match first_that_goes(rows, cause) {
            Some(region) => drop_row(rows, &region, cause),
            None => return,
        }
    }
    turn_all(rows, cause);
}
