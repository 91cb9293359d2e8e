//! Notes on why entries won or did not.
ghost use Rattle.std.specs.Prelude.{◌≡◌, ◌++◌, ◌∷◌, ◌<◌, OnOk, codes, decimal};
ghost use Rattle.of_headers.specs.FieldMap.{value};
ghost use Rattle.of_table.specs.{Entries.entry_of, Tables.table_at};
ghost use Rattle.of_trace.specs.Notes.{is_asked, reason_note, reason_words, reasons_from};

use crate::fields::{push_found, push_wanted};
use crate::form::{Asked, Style};
use of_classifier::Lookup;
use of_headers::FieldKey;
use of_switch::Switch;
use of_table::Entry;
use of_text::{begin_note, end_note, push_number};
use of_tracing::{Reason, why_where, winner_in};
use std::alloc::AllocError;

// Appends that another entry wins, and why.
fn push_beaten(out: &mut Vec<u8>, winner: usize, by: &[u8]) -> Result<(), AllocError>
    ensures { OnOk result (out.new.items ≡ out.old.items ++ codes "matches, but entry" ++ 32 ∷ decimal winner ++ by.now) }
{
    out.extend_from_slice(b"matches, but entry")?;
    push_number(out, winner as u64)?;
    out.extend_from_slice(by)
}

// Appends a reason in words.
fn push_reason(out: &mut Vec<u8>, style: Style, reason: Reason) -> Result<(), AllocError>
    ensures { OnOk result (out.new.items ≡ out.old.items ++ reason_words style reason) }
{
    match reason {
        Reason::Won => out.extend_from_slice(b"wins"),
        Reason::Differs { field: e, found } => {
            out.extend_from_slice(e.field.name())?;
            out.extend_from_slice(b" is")?;
            push_found(out, style, e.field, found)?;
            out.extend_from_slice(b", not")?;
            push_wanted(out, style, e)
        }
        Reason::LowerPriority(winner) => push_beaten(out, winner, b" has a higher priority"),
        Reason::Younger(winner) => push_beaten(out, winner, b" is older"),
    }
}

fn asks(asked: Asked, table: u8, entry: &Entry) -> bool
    ensures { result ≡ is_asked asked table (entry_of entry.now) }
{
    match asked {
        Asked::Nothing => false,
        Asked::All => true,
        Asked::Priority {
            table: asked,
            priority,
        } => asked == table && priority == entry.flow.priority,
    }
}

// Appends the note of an entry.
fn push_reason_note(
    out: &mut Vec<u8>,
    style: Style,
    entry: &Entry,
    place: usize,
    reason: Option<Reason>,
) -> Result<(), AllocError>
    ensures { OnOk result (out.new.items ≡ out.old.items ++ reason_note style (entry_of entry.now) place reason) }
{
    let Some(reason) = reason else {
        return Ok(());
    };
    begin_note(out)?;
    out.extend_from_slice(b"entry")?;
    push_number(out, place as u64)?;
    out.extend_from_slice(b" (priority")?;
    push_number(out, u64::from(entry.flow.priority))?;
    out.extend_from_slice(b"): ")?;
    push_reason(out, style, reason)?;
    end_note(out)
}

/// Appends why each entry that is asked for won or did not.
pub fn push_reasons<L: Lookup>(
    out: &mut Vec<u8>,
    style: Style,
    switch: &Switch<L>,
    table: u8,
    key: &FieldKey,
    asked: Asked,
) -> Result<(), AllocError>
    requires { table < 16 }
    ensures { OnOk result (out.new.items ≡ out.old.items
        ++ reasons_from style asked table (value key.now) (table_at table switch.now.core.forwarding.tables).flows 0
        (table_at table switch.now.core.forwarding.tables).flows) }
{
    let winner = winner_in(switch, table, key);
    let mut place = 0;
    for entry in switch.datapath().entries(table) {
        if asks(asked, table, entry) {
            let reason = why_where(switch, table, key, place, winner);
            push_reason_note(out, style, entry, place, reason)?;
        }
        place += 1;
    }
    Ok(())
}
