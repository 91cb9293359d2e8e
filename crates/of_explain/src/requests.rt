//! What a controller says, in words.
ghost use Rattle.std.specs.{Prelude.◌≡◌, Prelude.◌++◌, Prelude.OnOk, List.AllByRecursion, List.flat_map};
ghost use Rattle.of_text.specs.{Rows.Fits, Lines.note};
ghost use Rattle.of_explain.specs.Requests.{messages_in_bytes, chunk_notes, request_notes, row_line, row_lines, said_words};

use crate::messages::push_message;
use crate::said::lines_said;
use of_session::{Beginning, Stream};
use of_text::{Row, begin_note, end_note, push_row};
use std::alloc::{AllocError, Global};

/// Appends a line of flow text after eight spaces.
pub fn push_line(out: &mut Vec<u8>, row: Row) -> Result<(), AllocError>
    requires { Fits row }
    ensures { OnOk result (out.new.items ≡ out.old.items ++ row_line row) }
{
    out.extend_from_slice(b"        ")?;
    push_row(out, row)?;
    end_note(out)
}

/// Appends lines of flow text after eight spaces.
pub fn push_lines(out: &mut Vec<u8>, rows: &[Row]) -> Result<(), AllocError>
    requires { AllByRecursion Fits rows.now }
    ensures { OnOk result (out.new.items ≡ out.old.items ++ row_lines rows.now) }
{
    for row in rows {
        push_line(out, *row)?;
    }
    Ok(())
}

// Appends that the controller says a message.
fn push_words(alloc: Global, out: &mut Vec<u8>, message: &[u8]) -> Result<(), AllocError>
    ensures { OnOk result (out.new.items ≡ out.old.items ++ said_words message.now) }
{
    out.extend_from_slice(b"from the controller: ")?;
    push_message(alloc, out, message)
}

// Appends the note of a message.
fn push_said(alloc: Global, out: &mut Vec<u8>, message: &[u8]) -> Result<(), AllocError>
    ensures { OnOk result (out.new.items ≡ out.old.items ++ note (said_words message.now)) }
{
    begin_note(out)?;
    push_words(alloc, out, message)?;
    end_note(out)
}

/// Appends a message of the controller in words, and below them its lines of flow text.
#[tactic(auto, unfolding(crate::specs::Requests::request_notes))]
pub fn push_request(alloc: Global, out: &mut Vec<u8>, message: &[u8]) -> Result<(), AllocError>
    ensures { OnOk result (out.new.items ≡ out.old.items ++ request_notes message.now) }
{
    push_said(alloc, out, message)?;
    let rows = lines_said(alloc, message)?;
    push_lines(out, &rows)
}

// Appends each message of a stream.
fn push_requests(alloc: Global, out: &mut Vec<u8>, stream: &mut Stream) -> Result<(), AllocError>
    ensures { OnOk result (out.new.items ≡ out.old.items ++ flat_map request_notes (messages_in_bytes stream.old)) }
{
    loop {
        match stream.front() {
            Beginning::Message(size) => {
                push_request(alloc, out, stream.first(size))?;
                stream.take(size);
            }
            Beginning::Malformed | Beginning::Waiting => return Ok(()),
        }
    }
}

/// Appends each message that a chunk of the controller's bytes completes, after those that wait.
pub fn push_chunk(
    alloc: Global,
    out: &mut Vec<u8>,
    waiting: &[u8],
    chunk: &[u8],
) -> Result<(), AllocError>
    ensures { OnOk result (out.new.items ≡ out.old.items ++ chunk_notes waiting.now chunk.now) }
{
    let mut stream = Stream::new(alloc);
    stream.feed(waiting)?;
    stream.feed(chunk)?;
    push_requests(alloc, out, &mut stream)
}
