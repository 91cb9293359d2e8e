//! What changed in what leaves a switch, as JSON.
ghost use Rattle.std.specs.Prelude.{◌≡◌, ◌++◌, OnOk};
ghost use Rattle.of_json.specs.ChangesInJson.{changes_array, changes_member, value_change_object, value_in_json, value_member};

use crate::altered::{Change, Property, changes};
use crate::changes_words::{item_frame, name_of, push_property};
use crate::{push_array_member, push_key, push_listed, push_quoted};
use of_machine::Item;
use std::alloc::{AllocError, Global};

fn push_there(out: &mut Vec<u8>, property: Property, number: Option<u128>) -> Result<(), AllocError>
    ensures { OnOk result (out.new.items ≡ out.old.items ++ value_in_json property number) }
{
    match number {
        None => out.extend_from_slice(b"null"),
        Some(number) => {
            out.push(b'"')?;
            push_property(out, property, number)?;
            out.push(b'"')?;
            Ok(())
        }
    }
}

#[tactic(auto, unfolding(crate::specs::ChangesInJson::value_member))]
fn push_value_member(
    out: &mut Vec<u8>,
    name: &[u8],
    property: Property,
    number: Option<u128>,
) -> Result<(), AllocError>
    ensures { OnOk result (out.new.items ≡ out.old.items ++ value_member name.now property number) }
{
    out.push(b',')?;
    push_key(out, name)?;
    push_there(out, property, number)
}

#[tactic(auto, unfolding(crate::specs::ChangesInJson::value_change_object))]
fn push_change_object(out: &mut Vec<u8>, change: &Change) -> Result<(), AllocError>
    ensures { OnOk result (out.new.items ≡ out.old.items ++ value_change_object change.now) }
{
    out.push(b'{')?;
    push_key(out, b"field")?;
    push_quoted(out, name_of(change.property))?;
    push_value_member(out, b"before", change.property, change.before)?;
    push_value_member(out, b"after", change.property, change.after)?;
    out.push(b'}')?;
    Ok(())
}

#[tactic(auto, unfolding(crate::specs::ChangesInJson::changes_array))]
fn push_changes_array(
    alloc: Global,
    out: &mut Vec<u8>,
    came: &[u8],
    item: &Item,
) -> Result<(), AllocError>
    ensures { OnOk result (out.new.items ≡ out.old.items ++ changes_array came.now item.now) }
{
    let changed = changes(alloc, came, item_frame(item))?;
    out.push(b'[')?;
    push_listed(out, &changed, push_change_object)?;
    out.push(b']')?;
    Ok(())
}

/// Appends a further member: for each item that leaves a switch for a frame that came in, an array of what changed in its frame.
#[tactic(auto, unfolding(crate::specs::ChangesInJson::changes_member))]
pub fn push_changes_member(
    alloc: Global,
    out: &mut Vec<u8>,
    name: &[u8],
    came: &[u8],
    items: &[Item],
) -> Result<(), AllocError>
    ensures { OnOk result (out.new.items ≡ out.old.items ++ changes_member name.now came.now items.now) }
{
    push_array_member(out, name, items, |out, item| {
        push_changes_array(alloc, out, came, item)
    })
}
