//! What is said of a change.
ghost use Rattle.std.specs.Prelude.{◌≡◌, ◌++◌, OnOk};
ghost use Rattle.of_history.specs.Changes.{ChangeText, cause_words, changed_words};

use crate::cause::{By, Cause};
use crate::marks::push_both;
use crate::reason::{Reason, push_reason};
use of_explain::push_request;
use of_values::Part::{Number, Text};
use of_values::put;
use std::alloc::{AllocError, Global};

pub const LINE: [u8; 10] = *b"line %: %\n";

pub const MESSAGE: [u8; 18] = *b"line %, message %\n";

/// Says who changed a view of a switch, why, and both texts.
pub trait ChangeTeller {
    /// What is said.
    ghost text: { ChangeText };

    /// Appends it: by the cause, the reason, and the view before and after.
    fn tell(
        &self,
        alloc: Global,
        out: &mut Vec<u8>,
        cause: &Cause<'_>,
        reason: Option<Reason>,
        old: &[u8],
        new: &[u8],
    ) -> Result<(), AllocError>
        ensures { OnOk result (out.new.items ≡ out.old.items ++ text cause.now reason old.now new.now) };
}

// Appends who it was, and what a message does or what expires.
fn push_cause(alloc: Global, out: &mut Vec<u8>, cause: &Cause<'_>) -> Result<(), AllocError>
    ensures { OnOk result (out.new.items ≡ out.old.items ++ cause_words cause.now.number cause.now.line cause.now.by) }
{
    let number = u128::from(cause.number);
    match cause.by {
        By::Message(which) => {
            put(out, &MESSAGE, &[Number(number), Number(u128::from(which))])?;
            push_request(alloc, out, cause.text)
        }
        By::Moment => {
            put(out, &LINE, &[Number(number), Text(cause.line)])?;
            out.extend_from_slice(cause.text)
        }
        By::Port | By::Row => put(out, &LINE, &[Number(number), Text(cause.line)]),
    }
}

/// In words: the row, or the message and what it says; the reason; then the lines of the view, of which those that went are marked by `-`,
/// and those that came by `+`.
#[derive(Drop)]
pub struct InWords;

impl ChangeTeller for InWords {
    ghost text = { changed_words };

    #[tactic(auto, unfolding(crate::specs::Changes::changed_words))]
    fn tell(
        &self,
        alloc: Global,
        out: &mut Vec<u8>,
        cause: &Cause<'_>,
        reason: Option<Reason>,
        old: &[u8],
        new: &[u8],
    ) -> Result<(), AllocError> {
        push_cause(alloc, out, cause)?;
        push_reason(out, reason)?;
        push_both(out, old, new)
    }
}
