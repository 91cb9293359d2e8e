//! What a frame does, by the steps and the items of its run.
ghost use Rattle.std.specs.{Prelude.◌≡◌, Prelude.◌&&◌, Prelude.◌||◌, Prelude.not, List.list_all, List.list_any};
ghost use Rattle.of_require.specs.Requirements.{is_done as does_by, frame_has as frame_has_fields, goes_among, has_fields as has_fields_by, have as have_by, is_counted as is_counted_by, is_dropped as is_dropped_by, is_expiry, is_leaving as is_leaving_by, is_lookup_in, is_nothing};
ghost use Rattle.of_require.specs.Decisions.{decides as decides_by};

use crate::requirement::{Demand, Quantifier, Requirement};
use of_headers::read_inside;
use of_json::item_frame;
use of_machine::{Item, Step};
use of_oxm::{Match, matches};
use of_paths::Destination;

// Whether an item goes to one of these places.
fn goes(item: &Item, places: &[Destination]) -> bool
    ensures { result ≡ goes_among places.now item.now }
{
    places.iter().any(|to| to.takes(item))
}

fn is_no_place(to: Destination) -> bool
    ensures { result ≡ is_nothing to }
{
    matches!(to, Destination::Nothing)
}

/// Whether one of the places is that nothing leaves.
pub fn names_nothing(places: &[Destination]) -> bool
    ensures { result ≡ list_any is_nothing places.now }
{
    places.iter().any(|to| is_no_place(*to))
}

// Whether nothing leaves, and that is among the places.
fn is_dropped(items: &[Item], places: &[Destination]) -> bool
    ensures { result ≡ is_dropped_by places.now items.now }
{
    items.is_empty() && names_nothing(places)
}

// Whether something goes to one of these places.
fn leaves_some(items: &[Item], places: &[Destination]) -> bool
    ensures { result ≡ list_any (goes_among places.now) items.now }
{
    items.iter().any(|item| goes(item, places))
}

// Whether all goes to these places.
fn leaves_only(items: &[Item], places: &[Destination]) -> bool
    ensures { result ≡ list_all (goes_among places.now) items.now }
{
    items.iter().all(|item| goes(item, places))
}

fn is_lookup(step: &Step, table: u8) -> bool
    ensures { result ≡ is_lookup_in table step.now }
{
    match step {
        Step::Entry { table: other, .. } | Step::Miss(other) => *other == table,
        _ => false,
    }
}

// Whether a lookup is in a table.
fn passes(steps: &[Step], table: u8) -> bool
    ensures { result ≡ list_any (is_lookup_in table) steps.now }
{
    steps.iter().any(|step| is_lookup(step, table))
}

fn expires(step: &Step) -> bool
    ensures { result ≡ is_expiry step.now }
{
    matches!(step, Step::TtlExpired)
}

// Whether a TTL expires.
fn some_expires(steps: &[Step]) -> bool
    ensures { result ≡ list_any is_expiry steps.now }
{
    steps.iter().any(|step| expires(step))
}

// Whether a frame has these fields.
fn frame_has(fields: &Match, in_port: u32, frame: &[u8]) -> bool
    ensures { result ≡ frame_has_fields fields.now in_port frame.now }
{
    match read_inside(frame, in_port, 0) {
        Ok(headers) => matches(fields, &headers.key()),
        Err(_) => false,
    }
}

fn has_fields(fields: &Match, in_port: u32, item: &Item) -> bool
    ensures { result ≡ has_fields_by fields.now in_port item.now }
{
    frame_has(fields, in_port, item_frame(item))
}

// Whether an item goes to one of these places, and its frame has the fields.
fn leaves_with(item: &Item, places: &[Destination], fields: &Match, in_port: u32) -> bool
    ensures { result ≡ (goes_among places.now item.now && has_fields_by fields.now in_port item.now) }
{
    goes(item, places) && has_fields(fields, in_port, item)
}

// Whether its frame has the fields, if it goes to one of these places.
fn leaves_as_asked(item: &Item, places: &[Destination], fields: &Match, in_port: u32) -> bool
    ensures { result ≡ (not (goes_among places.now item.now) || has_fields_by fields.now in_port item.now) }
{
    !goes(item, places) || has_fields(fields, in_port, item)
}

fn all_have(items: &[Item], places: &[Destination], fields: &Match, in_port: u32) -> bool
    ensures { result ≡ list_all (λ item. not (goes_among places.now item) || has_fields_by fields.now in_port item) items.now }
{
    items
        .iter()
        .all(|item| leaves_as_asked(item, places, fields, in_port))
}

fn some_has(items: &[Item], places: &[Destination], fields: &Match, in_port: u32) -> bool
    ensures { result ≡ list_any (λ item. goes_among places.now item && has_fields_by fields.now in_port item) items.now }
{
    items
        .iter()
        .any(|item| leaves_with(item, places, fields, in_port))
}

// Whether what leaves by these places has the fields: all of it, or some.
fn have(
    quantifier: Quantifier,
    places: &[Destination],
    fields: &Match,
    in_port: u32,
    items: &[Item],
) -> bool
    ensures { result ≡ have_by quantifier places.now fields.now in_port items.now }
{
    match quantifier {
        Quantifier::Each => all_have(items, places, fields, in_port),
        Quantifier::No | Quantifier::AtLeastOne => some_has(items, places, fields, in_port),
    }
}

// Whether a frame that came in by this port, with these steps, for which these items are emitted, does it.
fn is_done(
    quantifier: Quantifier,
    demand: &Demand,
    in_port: u32,
    steps: &[Step],
    items: &[Item],
) -> bool
    ensures { result ≡ does_by quantifier demand.now in_port steps.now items.now }
{
    match demand {
        Demand::LeavesBy(places) => leaves_some(items, places) || is_dropped(items, places),
        Demand::LeavesOnlyBy(places) => leaves_only(items, places),
        Demand::PassesTable(table) => passes(steps, *table),
        Demand::Has { places, fields } => have(quantifier, places, fields, in_port, items),
    }
}

// Whether a frame with these steps is not left out.
fn is_counted(except_expired: bool, steps: &[Step]) -> bool
    ensures { result ≡ is_counted_by except_expired steps.now }
{
    !(except_expired && some_expires(steps))
}

/// Whether a requirement about what leaves by some places is about a frame for which these items are emitted.
pub fn is_leaving(demand: &Demand, items: &[Item]) -> bool
    ensures { result ≡ is_leaving_by demand.now items.now }
{
    match demand {
        Demand::Has { places, .. } => leaves_some(items, places),
        _ => true,
    }
}

/// Whether a frame that came in by this port, with these steps and items, decides a requirement whose conditions match it.
pub fn decides(requirement: &Requirement, in_port: u32, steps: &[Step], items: &[Item]) -> bool
    ensures { result ≡ decides_by requirement.now in_port steps.now items.now }
{
    let is_about = is_counted(requirement.except_expired, steps)
        && is_leaving(&requirement.demand, items);
    let is_done = is_done(
        requirement.quantifier,
        &requirement.demand,
        in_port,
        steps,
        items,
    );
    let wanted = requirement.quantifier != Quantifier::Each;
    is_about && is_done == wanted
}
