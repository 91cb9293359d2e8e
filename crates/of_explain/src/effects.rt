//! What a switch gives, in words.
ghost use Rattle.std.specs.Prelude.{◌≡◌, ◌++◌, OnOk};
ghost use Rattle.of_text.specs.Lines.{note};
ghost use Rattle.of_explain.specs.Explained.{effect_lines, effect_notes, explained_effect_words, switch_error_words as words_of_refusal};

use crate::messages::push_message;
use crate::notes::push_port_and_size;
use crate::replies::push_answer_lines;
use of_switch::{Effect, SwitchError};
use of_text::{begin_note, end_note, push_note};
use std::alloc::{AllocError, Global};

// Appends an effect in words.
fn push_effect(alloc: Global, out: &mut Vec<u8>, effect: &Effect) -> Result<(), AllocError>
    ensures { OnOk result (out.new.items ≡ out.old.items ++ explained_effect_words effect.now) }
{
    match effect {
        Effect::Answer(bytes) => {
            out.extend_from_slice(b"to the controller: ")?;
            push_message(alloc, out, bytes.as_slice())?;
        }
        Effect::Sent { port, frame } => {
            push_port_and_size(out, b"sent out of port", *port, frame.as_slice())?;
        }
        Effect::Closed => out.extend_from_slice(b"the switch ends the connection")?,
    }
    Ok(())
}

// Appends the note of an effect.
fn push_effect_note(alloc: Global, out: &mut Vec<u8>, effect: &Effect) -> Result<(), AllocError>
    ensures { OnOk result (out.new.items ≡ out.old.items ++ note (explained_effect_words effect.now)) }
{
    begin_note(out)?;
    push_effect(alloc, out, effect)?;
    end_note(out)
}

// Appends what stands below the note of an effect.
fn push_below(alloc: Global, out: &mut Vec<u8>, effect: &Effect) -> Result<(), AllocError>
    ensures { OnOk result (out.new.items ≡ out.old.items ++ effect_lines effect.now) }
{
    match effect {
        Effect::Answer(bytes) => push_answer_lines(alloc, out, bytes.as_slice()),
        Effect::Sent { .. } | Effect::Closed => Ok(()),
    }
}

/// Appends a note for each effect, and below an answer its rows or its match.
pub fn push_effects(alloc: Global, out: &mut Vec<u8>, effects: &[Effect]) -> Result<(), AllocError>
    ensures { OnOk result (out.new.items ≡ out.old.items ++ effect_notes effects.now) }
{
    for effect in effects {
        push_effect_note(alloc, out, effect)?;
        push_below(alloc, out, effect)?;
    }
    Ok(())
}

/// Appends why an event is refused.
pub fn push_refusal(out: &mut Vec<u8>, refusal: SwitchError) -> Result<(), AllocError>
    ensures { OnOk result (out.new.items ≡ out.old.items ++ note (words_of_refusal refusal)) }
{
    match refusal {
        SwitchError::NoMemory => push_note(out, b"refused: no memory"),
        SwitchError::NotConnected => push_note(out, b"refused: there is no connection"),
        SwitchError::Connected => push_note(out, b"refused: there is a connection already"),
        SwitchError::PortExists => {
            push_note(out, b"refused: there is a port of that number already")
        }
        SwitchError::NoSuchPort => push_note(out, b"refused: there is no port of that number"),
        SwitchError::TooManyPorts => push_note(out, b"refused: there are 64 ports already"),
        SwitchError::BadPortNumber => {
            push_note(out, b"refused: a port's number is 1 to 4294967040")
        }
    }
}
