//! Notes: lines after four spaces.
ghost use Rattle.std.specs.Prelude.{◌≡◌, ◌++◌, OnOk};
ghost use Rattle.of_text.specs.Lines.{note};
ghost use Rattle.of_explain.specs.Notes.{number_note, port_and_size, size_words, with_number};

use of_text::{begin_note, end_note, push_number};
use std::alloc::AllocError;

/// Appends words and a number.
pub fn push_with_number(out: &mut Vec<u8>, words: &[u8], number: u64) -> Result<(), AllocError>
    ensures { OnOk result (out.new.items ≡ out.old.items ++ with_number words.now number) }
{
    out.extend_from_slice(words)?;
    push_number(out, number)
}

/// Appends a note of words, a number and more words.
pub fn push_number_note(
    out: &mut Vec<u8>,
    words: &[u8],
    number: u64,
    more: &[u8],
) -> Result<(), AllocError>
    ensures { OnOk result (out.new.items ≡ out.old.items ++ number_note words.now number more.now) }
{
    begin_note(out)?;
    push_with_number(out, words, number)?;
    out.extend_from_slice(more)?;
    end_note(out)
}

/// Appends how many bytes there are.
#[tactic(auto, unfolding(crate::specs::Notes::size_words))]
pub fn push_size(out: &mut Vec<u8>, size: usize) -> Result<(), AllocError>
    ensures { OnOk result (out.new.items ≡ out.old.items ++ size_words size) }
{
    push_with_number(out, b",", size as u64)?;
    out.extend_from_slice(b" bytes")
}

/// Appends words, a port, and how many bytes a frame has.
#[tactic(auto, unfolding(crate::specs::Notes::port_and_size))]
pub fn push_port_and_size(
    out: &mut Vec<u8>,
    words: &[u8],
    port: u32,
    frame: &[u8],
) -> Result<(), AllocError>
    ensures { OnOk result (out.new.items ≡ out.old.items ++ port_and_size words.now port frame.now) }
{
    push_with_number(out, words, u64::from(port))?;
    push_size(out, frame.len())
}
