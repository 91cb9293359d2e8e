//! The documents.
ghost use Rattle.std.specs.Prelude.{◌≡◌, ◌++◌, codes, IfOk, OnOk};
ghost use Rattle.of_text.specs.Lines.{lines_of};
ghost use Rattle.of_json.specs.{Parts.listed, Strings.array_member, Strings.string};
ghost use Rattle.of_import_report.specs.Json.{count_member, import_head_members, import_json, lines_left_out as left_out_of, move_object, refused_json};

use crate::items::{push_item_members, push_move_object};
use crate::refusals::push_refused_members;
use of_import::{Import, LineFaults, LineRefusal};
use of_json::{
    begin_array, push_array_member, push_document_head, push_line_strings, push_number_member,
    push_truth_member,
};
use std::alloc::{AllocError, Global};

#[tactic(auto, unfolding(crate::specs::Json::import_head_members))]
fn push_head_members(out: &mut Vec<u8>, imported: bool) -> Result<(), AllocError>
    ensures { OnOk result (out.new.items ≡ out.old.items ++ import_head_members imported) }
{
    push_document_head(out, b"import")?;
    push_truth_member(out, b"imported", imported)
}

/// How many lines are left out or lose an action.
pub fn left_out(faults: &[LineFaults], refused: &[LineRefusal], changed: usize) -> u128
    ensures { result ≡ left_out_of faults.now refused.now changed }
{
    faults.len() as u128 + refused.len() as u128 + changed as u128
}

fn push_tables_array(out: &mut Vec<u8>, moves: &[(u8, u8)]) -> Result<(), AllocError>
    ensures { OnOk result (out.new.items ≡ out.old.items ++ array_member (codes "tables") (listed move_object moves.now)) }
{
    push_array_member(
        out,
        b"tables",
        moves,
        |out, it| push_move_object(out, it.0, it.1),
    )
}

#[tactic(auto, unfolding(of_json::specs::Strings::array_member))]
fn push_text_array(out: &mut Vec<u8>, text: &[u8]) -> Result<(), AllocError>
    ensures { OnOk result (out.new.items ≡ out.old.items ++ array_member (codes "text") (listed string (lines_of text.now))) }
{
    begin_array(out, b"text")?;
    push_line_strings(out, 0, text)?;
    out.push(b']')?;
    Ok(())
}

/// The document on an import.
#[tactic(auto, unfolding(crate::specs::Json::import_json))]
pub fn import_document(alloc: Global, done: &Import) -> Result<Vec<u8>, AllocError>
    ensures { IfOk result (λ json. json.items ≡
        import_json done.now.text.items done.now.faults.items done.now.kept done.now.moves.items done.now.changed) }
{
    let mut out = Vec::new(alloc);
    out.push(b'{')?;
    push_head_members(&mut out, true)?;
    let count = left_out(&done.faults, &done.kept.refused, done.changed);
    push_number_member(&mut out, b"left_out", count)?;
    push_refused_members(alloc, &mut out, &done.faults, &done.kept.refused)?;
    push_tables_array(&mut out, &done.moves)?;
    push_item_members(&mut out, &done.kept)?;
    push_text_array(&mut out, &done.text)?;
    out.extend_from_slice(b"}\n")?;
    Ok(out)
}

fn push_count_member(out: &mut Vec<u8>, count: Option<u8>) -> Result<(), AllocError>
    ensures { OnOk result (out.new.items ≡ out.old.items ++ count_member count) }
{
    match count {
        None => Ok(()),
        Some(count) => push_number_member(out, b"table_count", u128::from(count)),
    }
}

/// The document if there is no import: the lines that are refused, or how many tables there are, if these are too many.
#[tactic(auto, unfolding(crate::specs::Json::refused_json))]
pub fn refused_document(
    alloc: Global,
    faults: &[LineFaults],
    refused: &[LineRefusal],
    count: Option<u8>,
) -> Result<Vec<u8>, AllocError>
    ensures { IfOk result (λ json. json.items ≡ refused_json faults.now refused.now count) }
{
    let mut out = Vec::new(alloc);
    out.push(b'{')?;
    push_head_members(&mut out, false)?;
    push_refused_members(alloc, &mut out, faults, refused)?;
    push_count_member(&mut out, count)?;
    out.extend_from_slice(b"}\n")?;
    Ok(out)
}
