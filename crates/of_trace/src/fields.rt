//! Fields of packets in notes.
ghost use Rattle.std.specs.{Prelude.◌≡◌, Prelude.◌++◌, Prelude.◌<◌, Prelude.OnOk, List.flat_map};
ghost use Rattle.of_headers.specs.FieldMap.{value};
ghost use Rattle.of_table.specs.{Entries.flows_of, Tables.table_at};
ghost use Rattle.of_trace.specs.Notes.{change_note, change_notes, spaced_digits, has_field, looks_at as is_looked_at, mask_digits, same_value, seen_note, seen_notes, ttl_note, ttl_words, value_or_absent, value_text, wanted_text};

use crate::form::Style;
use of_classifier::Lookup;
use of_headers::{Field, FieldKey};
use of_oxm::MatchField;
use of_switch::Switch;
use of_table::Entries;
use of_text::{begin_note, end_note, push_number, push_value};
use of_values::{push_each, push_value_words};
use std::alloc::AllocError;

// Whether the match has the field.
fn has(fields: &[MatchField], field: Field) -> bool
    ensures { result ≡ has_field field fields.now }
{
    fields.iter().any(|e| e.field.number() == field.number())
}

// Whether the match of some entry has the field.
fn looks_at(entries: Entries<'_>, field: Field) -> bool
    ensures { result ≡ is_looked_at (flows_of entries.entry) field }
{
    for entry in entries {
        if has(entry.flow.fields.fields(), field) {
            return true;
        }
    }
    false
}

// Appends a space and the digits of a value of a field.
fn push_digits(out: &mut Vec<u8>, field: Field, number: u128) -> Result<(), AllocError>
    ensures { OnOk result (out.new.items ≡ out.old.items ++ spaced_digits field number) }
{
    push_value(out, field, number & field.row().ones)
}

// Appends a space and a value of a field.
fn push_text(out: &mut Vec<u8>, style: Style, field: Field, number: u128) -> Result<(), AllocError>
    ensures { OnOk result (out.new.items ≡ out.old.items ++ value_text style field number) }
{
    match style {
        Style::Lines => push_digits(out, field, number),
        Style::Words => {
            out.push(b' ')?;
            push_value_words(out, field, number, None)
        }
    }
}

/// Appends the value of a field, or that it is absent.
pub fn push_found(
    out: &mut Vec<u8>,
    style: Style,
    field: Field,
    found: Option<u128>,
) -> Result<(), AllocError>
    ensures { OnOk result (out.new.items ≡ out.old.items ++ value_or_absent style field found) }
{
    match found {
        None => out.extend_from_slice(b" absent"),
        Some(number) => push_text(out, style, field, number),
    }
}

// Appends a mask, if there is one.
fn push_mask(out: &mut Vec<u8>, field: Field, mask: Option<u128>) -> Result<(), AllocError>
    ensures { OnOk result (out.new.items ≡ out.old.items ++ mask_digits field mask) }
{
    match mask {
        None => Ok(()),
        Some(mask) => push_digits(out, field, mask),
    }
}

/// Appends a space and what a field of a match wants.
pub fn push_wanted(out: &mut Vec<u8>, style: Style, e: MatchField) -> Result<(), AllocError>
    ensures { OnOk result (out.new.items ≡ out.old.items ++ wanted_text style e) }
{
    match style {
        Style::Lines => {
            push_digits(out, e.field, e.value)?;
            push_mask(out, e.field, e.mask)
        }
        Style::Words => {
            out.push(b' ')?;
            push_value_words(out, e.field, e.value, e.mask)
        }
    }
}

// Appends the note of a field that a table sees.
fn push_seen_field<L: Lookup>(
    out: &mut Vec<u8>,
    style: Style,
    switch: &Switch<L>,
    table: u8,
    key: &FieldKey,
    field: Field,
) -> Result<(), AllocError>
    requires { table < 16 }
    ensures { OnOk result (out.new.items ≡ out.old.items ++ seen_note style (table_at table switch.now.core.forwarding.tables).flows (value key.now) field) }
{
    if looks_at(switch.datapath().entries(table), field) {
        begin_note(out)?;
        out.extend_from_slice(b"sees ")?;
        out.extend_from_slice(field.name())?;
        push_found(out, style, field, key.get(field))?;
        end_note(out)?;
    }
    Ok(())
}

// Appends those of these fields that a table sees.
fn push_seen_of<L: Lookup>(
    out: &mut Vec<u8>,
    style: Style,
    switch: &Switch<L>,
    table: u8,
    key: &FieldKey,
    fields: &[Field],
) -> Result<(), AllocError>
    requires { table < 16 }
    ensures { OnOk result (out.new.items ≡ out.old.items ++ flat_map (seen_note style (table_at table switch.now.core.forwarding.tables).flows (value key.now))
        fields.now) }
{
    for field in fields {
        push_seen_field(out, style, switch, table, key, *field)?;
    }
    Ok(())
}

/// Appends the fields that a table sees: those that the match of some entry has.
pub fn push_seen<L: Lookup>(
    out: &mut Vec<u8>,
    style: Style,
    switch: &Switch<L>,
    table: u8,
    key: &FieldKey,
) -> Result<(), AllocError>
    requires { table < 16 }
    ensures { OnOk result (out.new.items ≡ out.old.items ++ seen_notes style (table_at table switch.now.core.forwarding.tables).flows (value key.now)) }
{
    push_seen_of(out, style, switch, table, key, &Field::ALL)
}

fn is_same(old: Option<u128>, new: Option<u128>) -> bool
    ensures { result ≡ same_value old new }
{
    match (old, new) {
        (None, None) => true,
        (Some(old), Some(new)) => old == new,
        _ => false,
    }
}

// Appends the note of a field, if its value changed.
fn push_change(
    out: &mut Vec<u8>,
    style: Style,
    old: &FieldKey,
    new: &FieldKey,
    field: Field,
) -> Result<(), AllocError>
    ensures { OnOk result (out.new.items ≡ out.old.items ++ change_note style (value old.now) (value new.now) field) }
{
    if is_same(old.get(field), new.get(field)) {
        return Ok(());
    }
    begin_note(out)?;
    out.extend_from_slice(field.name())?;
    push_found(out, style, field, old.get(field))?;
    out.extend_from_slice(b" ->")?;
    push_found(out, style, field, new.get(field))?;
    end_note(out)
}

// Appends those of these fields whose values differ in the second key.
fn push_changes_of(
    out: &mut Vec<u8>,
    style: Style,
    old: &FieldKey,
    new: &FieldKey,
    fields: &[Field],
) -> Result<(), AllocError>
    ensures { OnOk result (out.new.items ≡ out.old.items ++ flat_map (change_note style (value old.now) (value new.now)) fields.now) }
{
    push_each(out, fields, |out, field| {
        push_change(out, style, old, new, *field)
    })
}

/// Appends each field whose value differs in the second key.
pub fn push_changes(
    out: &mut Vec<u8>,
    style: Style,
    old: &FieldKey,
    new: &FieldKey,
) -> Result<(), AllocError>
    ensures { OnOk result (out.new.items ≡ out.old.items ++ change_notes style (value old.now) (value new.now)) }
{
    push_changes_of(out, style, old, new, &Field::ALL)
}

// A TTL as a wider number.
fn widened(ttl: Option<u8>) -> Option<u128>
    ensures { result ≡ ttl }
{
    match ttl {
        None => None,
        Some(ttl) => Some(u128::from(ttl)),
    }
}

// Appends a TTL, or that there is none.
fn push_ttl(out: &mut Vec<u8>, ttl: Option<u8>) -> Result<(), AllocError>
    ensures { OnOk result (out.new.items ≡ out.old.items ++ ttl_words ttl) }
{
    match ttl {
        None => out.extend_from_slice(b" absent"),
        Some(ttl) => push_number(out, u64::from(ttl)),
    }
}

/// Appends the TTL, if it changed.
pub fn push_ttl_change(
    out: &mut Vec<u8>,
    old: Option<u8>,
    new: Option<u8>,
) -> Result<(), AllocError>
    ensures { OnOk result (out.new.items ≡ out.old.items ++ ttl_note old new) }
{
    if is_same(widened(old), widened(new)) {
        return Ok(());
    }
    begin_note(out)?;
    out.extend_from_slice(b"nw_ttl")?;
    push_ttl(out, old)?;
    out.extend_from_slice(b" ->")?;
    push_ttl(out, new)?;
    end_note(out)
}
