//! Rows explained as JSON.
ghost use Rattle.std.specs.Prelude.{◌≡◌, ◌++◌, codes, OnOk};
ghost use Rattle.of_text.specs.Lines.{lines_of};
ghost use Rattle.of_json.specs.{Parts.listed, Strings.array_member, Strings.line_string};
ghost use Rattle.of_explain.specs.RowObjects.{explained_json, object_unless_empty, row_object};

use crate::rows::tell_notes;
use of_classifier::Lookup;
use of_json::{begin_array, push_key, push_line_strings, push_string_member};
use of_replay::{Row, RowPrinter};
use of_switch::{Switch, SwitchError};
use of_values::push_decimal;
use std::alloc::{AllocError, Global};

/// How many spaces there are before a note.
const INDENT: usize = 4;

// Appends notes, as an array.
#[tactic(auto, unfolding(of_json::specs::Strings::array_member))]
fn push_notes(out: &mut Vec<u8>, notes: &[u8]) -> Result<(), AllocError>
    ensures { OnOk result (out.new.items ≡ out.old.items ++ array_member (codes "notes") (listed (line_string 4) (lines_of notes.now))) }
{
    begin_array(out, b"notes")?;
    push_line_strings(out, INDENT, notes)?;
    out.push(b']')?;
    Ok(())
}

// Appends the object of a line.
#[tactic(auto, unfolding(crate::specs::RowObjects::row_object))]
fn push_object(out: &mut Vec<u8>, number: u64, line: &[u8], notes: &[u8]) -> Result<(), AllocError>
    ensures { OnOk result (out.new.items ≡ out.old.items ++ row_object number line.now notes.now) }
{
    out.push(b'{')?;
    push_key(out, b"line")?;
    push_decimal(out, u128::from(number))?;
    push_string_member(out, b"row", line)?;
    push_notes(out, notes)?;
    out.extend_from_slice(b"}\n")
}

// The same for a line that may be empty.
fn push_line_object(
    out: &mut Vec<u8>,
    number: u64,
    line: &[u8],
    notes: &[u8],
) -> Result<(), AllocError>
    ensures { OnOk result (out.new.items ≡ out.old.items ++ object_unless_empty number line.now notes.now) }
{
    if line.is_empty() {
        return Ok(());
    }
    push_object(out, number, line, notes)
}

/// Prints for each row an object of JSON in one line: the number of its line, the line, and what it did.
#[derive(Drop)]
pub struct ExplainingJson;

impl<L: Lookup> RowPrinter<L> for ExplainingJson {
    ghost tale = { explained_json };

    fn tell(
        &self,
        alloc: Global,
        switch: &mut Switch<L>,
        number: u64,
        line: &[u8],
        row: Row,
        bytes: &[u8],
        out: &mut Vec<u8>,
    ) -> Result<(), SwitchError> {
        let mut notes = Vec::new(alloc);
        tell_notes(alloc, switch, row, bytes, &mut notes)?;
        push_line_object(out, number, line, &notes)?;
        Ok(())
    }
}
