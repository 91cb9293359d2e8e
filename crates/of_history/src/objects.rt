//! Changes as JSON.
ghost use Rattle.std.specs.Prelude.{◌≡◌, ◌++◌, OnOk};
ghost use Rattle.of_history.specs.ChangeObjects.{cause_members, change_object, expired_member, lines_member, reason_member};

use crate::cause::{By, Cause};
use crate::reason::Reason;
use crate::telling::ChangeTeller;
use of_explain::push_request;
use of_json::{begin_array, push_key, push_line_strings, push_number_member, push_string_member};
use of_values::push_decimal;
use std::alloc::{AllocError, Global};

/// How many spaces there are before a note.
const INDENT: usize = 4;

/// How many bytes there are before an entry that expires: four spaces and `expired: `.
const EXPIRED: usize = 13;

// Appends the lines of a text as an array.
#[tactic(auto, unfolding(of_json::specs::Strings::array_member, crate::specs::ChangeObjects::lines_member))]
fn push_lines_member(
    out: &mut Vec<u8>,
    name: &[u8],
    indent: usize,
    text: &[u8],
) -> Result<(), AllocError>
    ensures { OnOk result (out.new.items ≡ out.old.items ++ lines_member name.now indent text.now) }
{
    begin_array(out, name)?;
    push_line_strings(out, indent, text)?;
    out.push(b']')?;
    Ok(())
}

// Appends what expires, if something does.
fn push_expired_member(out: &mut Vec<u8>, expired: &[u8]) -> Result<(), AllocError>
    ensures { OnOk result (out.new.items ≡ out.old.items ++ expired_member expired.now) }
{
    if expired.is_empty() {
        Ok(())
    } else {
        push_lines_member(out, b"expired", EXPIRED, expired)
    }
}

// Appends who it was.
#[tactic(auto, unfolding(crate::specs::ChangeObjects::cause_members))]
fn push_cause_members(alloc: Global, out: &mut Vec<u8>, cause: &Cause<'_>) -> Result<(), AllocError>
    ensures { OnOk result (out.new.items ≡ out.old.items ++ cause_members cause.now) }
{
    match cause.by {
        By::Message(number) => {
            let mut notes = Vec::new(alloc);
            push_request(alloc, &mut notes, cause.text)?;
            push_number_member(out, b"message", u128::from(number))?;
            push_lines_member(out, b"by", INDENT, &notes)
        }
        By::Moment => {
            push_string_member(out, b"row", cause.line)?;
            push_expired_member(out, cause.text)
        }
        By::Port | By::Row => push_string_member(out, b"row", cause.line),
    }
}

// Appends why, if it is known.
fn push_reason_member(out: &mut Vec<u8>, reason: Option<Reason>) -> Result<(), AllocError>
    ensures { OnOk result (out.new.items ≡ out.old.items ++ reason_member reason) }
{
    match reason {
        None => Ok(()),
        Some(reason) => push_string_member(out, b"reason", reason.words()),
    }
}

/// As JSON Lines: an object for each change, with the number of its line, the row, or the number of the message in it and its notes,
/// the reason, and the lines of the view before and after it.
#[derive(Drop)]
pub struct InJson;

impl ChangeTeller for InJson {
    ghost text = { change_object };

    #[tactic(auto, unfolding(crate::specs::ChangeObjects::change_object))]
    fn tell(
        &self,
        alloc: Global,
        out: &mut Vec<u8>,
        cause: &Cause<'_>,
        reason: Option<Reason>,
        old: &[u8],
        new: &[u8],
    ) -> Result<(), AllocError> {
        out.push(b'{')?;
        push_key(out, b"line")?;
        push_decimal(out, u128::from(cause.number))?;
        push_cause_members(alloc, out, cause)?;
        push_reason_member(out, reason)?;
        push_lines_member(out, b"before", 0, old)?;
        push_lines_member(out, b"after", 0, new)?;
        out.extend_from_slice(b"}\n")
    }
}
