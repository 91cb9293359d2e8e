//! What leaves a switch and what changed in it, in words.
ghost use Rattle.std.specs.Prelude.{◌≡◌, ◌≤◌, ◌++◌, OnOk, None, length};
ghost use Rattle.std.specs.Option.{option_copied};
ghost use Rattle.of_json.specs.ChangesInWords.{value_change_words, changed_line, changed_side_words, changed_sides, changed_values_words, count_next, first_line, item_frame as frame_in, is_said_before, item_words, next_words, property_name, property_value, sends_frame, value_there};
ghost use Rattle.of_json.specs.Changes.{changes as changes_from};

use crate::altered::{Change, Property, changes};
use crate::{push_listed, push_side};
use of_machine::Item;
use of_text::is;
use of_values::{push_decimal, push_value_words};
use std::alloc::{AllocError, Global};

/// The name of a property.
pub(crate) fn name_of(property: Property) -> &'static [u8]
    ensures { result.now ≡ property_name property }
{
    match property {
        Property::InField(field) => field.name(),
        Property::TimeToLive => b"nw_ttl",
    }
}

/// Appends a value of a property.
pub(crate) fn push_property(
    out: &mut Vec<u8>,
    property: Property,
    number: u128,
) -> Result<(), AllocError>
    ensures { OnOk result (out.new.items ≡ out.old.items ++ property_value property number) }
{
    match property {
        Property::InField(field) => push_value_words(out, field, number, None),
        Property::TimeToLive => push_decimal(out, number),
    }
}

fn push_there(out: &mut Vec<u8>, property: Property, number: Option<u128>) -> Result<(), AllocError>
    ensures { OnOk result (out.new.items ≡ out.old.items ++ value_there property number) }
{
    match number {
        None => out.extend_from_slice(b"absent"),
        Some(number) => push_property(out, property, number),
    }
}

#[tactic(auto, unfolding(crate::specs::ChangesInWords::value_change_words))]
fn push_change(out: &mut Vec<u8>, change: &Change) -> Result<(), AllocError>
    ensures { OnOk result (out.new.items ≡ out.old.items ++ value_change_words change.now) }
{
    out.push(b' ')?;
    out.extend_from_slice(name_of(change.property))?;
    out.push(b' ')?;
    push_there(out, change.property, change.before)?;
    out.extend_from_slice(b" -> ")?;
    push_there(out, change.property, change.after)
}

#[tactic(auto, unfolding(crate::specs::ChangesInWords::changed_values_words))]
fn push_changed(out: &mut Vec<u8>, who: &[u8], changed: &[Change]) -> Result<(), AllocError>
    ensures { OnOk result (out.new.items ≡ out.old.items ++ changed_values_words who.now changed.now) }
{
    out.extend_from_slice(who)?;
    out.extend_from_slice(b"changed:")?;
    push_listed(out, changed, push_change)?;
    out.push(b'\n')?;
    Ok(())
}

// Appends a line about what changed, if something did.
fn push_changed_line(out: &mut Vec<u8>, who: &[u8], changed: &[Change]) -> Result<(), AllocError>
    ensures { OnOk result (out.new.items ≡ out.old.items ++ changed_line who.now changed.now) }
{
    match changed {
        [] => Ok(()),
        _ => push_changed(out, who, changed),
    }
}

/// The frame of an item.
pub fn item_frame(item: &Item) -> &[u8]
    ensures { result.now ≡ frame_in item.now }
{
    match item {
        Item::Sent { frame, .. } => frame.as_slice(),
        Item::PacketIn(packet) => packet.frame.as_slice(),
    }
}

fn sends(frame: &[u8], item: &Item) -> bool
    ensures { result ≡ sends_frame frame.now item.now }
{
    match item {
        Item::Sent { frame: other, .. } => is(other.as_slice(), frame),
        Item::PacketIn(_) => false,
    }
}

// How many of the first items send the frame.
fn count_sending(frame: &[u8], items: &[Item]) -> usize
    ensures is { result ≡ count_next frame.now items.now }
    ensures most { result ≤ length items.now }
{
    let mut count = 0;
    for item in items {
        if !sends(frame, item) {
            return count;
        }
        count += 1;
    }
    count
}

// Whether the item before sent the frame of this one.
fn said_before(before: Option<&Item>, item: &Item) -> bool
    ensures { result ≡ is_said_before (option_copied before.entry) item.now }
{
    match (before, item) {
        (Some(before), Item::Sent { frame, .. }) => sends(frame.as_slice(), before),
        _ => false,
    }
}

// The first item, and those behind it that send the same frame.
fn first_of<'a>(items: &'a [Item]) -> &'a [Item]
    ensures { result.now ≡ first_line items.now }
{
    match items {
        [Item::Sent { frame, .. }, ..] => &items[..count_sending(frame.as_slice(), items)],
        [_, ..] => &items[..1],
        [] => items,
    }
}

// Appends the line of an item, and what changed in its frame.
#[tactic(auto, unfolding(crate::specs::ChangesInWords::item_words))]
fn push_item(
    alloc: Global,
    out: &mut Vec<u8>,
    who: &[u8],
    came: &[u8],
    item: &Item,
    items: &[Item],
) -> Result<(), AllocError>
    ensures { OnOk result (out.new.items ≡ out.old.items ++ item_words who.now came.now item.now items.now) }
{
    push_side(alloc, out, who, first_of(items))?;
    let changed = changes(alloc, came, item_frame(item))?;
    push_changed_line(out, who, &changed)
}

// Appends what is said about the first of these items, unless the item before said it.
fn push_next(
    alloc: Global,
    out: &mut Vec<u8>,
    who: &[u8],
    came: &[u8],
    before: Option<&Item>,
    item: &Item,
    items: &[Item],
) -> Result<(), AllocError>
    ensures { OnOk result (out.new.items ≡ out.old.items ++ next_words who.now came.now (option_copied before.entry) item.now items.now) }
{
    if said_before(before, item) {
        return Ok(());
    }
    push_item(alloc, out, who, came, item, items)
}

fn push_items(
    alloc: Global,
    out: &mut Vec<u8>,
    who: &[u8],
    came: &[u8],
    items: &[Item],
) -> Result<(), AllocError>
    ensures { OnOk result (out.new.items ≡ out.old.items ++ changed_sides who.now came.now None items.now) }
{
    let mut before = None;
    let mut rest = items;
    while let [item, behind @ ..] = rest {
        push_next(alloc, out, who, came, before, item, rest)?;
        before = Some(item);
        rest = behind;
    }
    Ok(())
}

/// Appends what leaves a switch for a frame that came in, behind the name of the switch: a line for each packet to the controller, and one for each frame
/// with the ports by which it leaves one after the other; and below it a line about what changed in the frame, if something did.
pub fn push_changed_side(
    alloc: Global,
    out: &mut Vec<u8>,
    who: &[u8],
    came: &[u8],
    items: &[Item],
) -> Result<(), AllocError>
    ensures { OnOk result (out.new.items ≡ out.old.items ++ changed_side_words who.now came.now items.now) }
{
    match items {
        [] => push_side(alloc, out, who, items),
        _ => push_items(alloc, out, who, came, items),
    }
}
