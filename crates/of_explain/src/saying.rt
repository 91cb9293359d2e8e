//! Messages of either side, in words.
ghost use Rattle.std.specs.Prelude.{◌≡◌, ◌++◌, IfOk, OnOk, length};
ghost use Rattle.of_explain.specs.Saying.{Says, message_lines};

use crate::messages::push_message;
use crate::replies::push_answer_lines;
use crate::requests::push_lines;
use crate::said::lines_said;
use of_session::{Beginning, Stream};
use std::alloc::{AllocError, Global};

// Appends a message in words, and below it its flow text, or the rows of a reply.
#[tactic(auto, unfolding(crate::specs::Saying::message_lines))]
fn push_message_lines(alloc: Global, out: &mut Vec<u8>, message: &[u8]) -> Result<(), AllocError>
    ensures { OnOk result (out.new.items ≡ out.old.items ++ message_lines message.now) }
{
    push_message(alloc, out, message)?;
    out.push(b'\n')?;
    let rows = lines_said(alloc, message)?;
    push_lines(out, &rows)?;
    push_answer_lines(alloc, out, message)
}

// Appends each message of a stream.
fn push_messages(alloc: Global, out: &mut Vec<u8>, stream: &mut Stream) -> Result<(), AllocError>
    ensures { OnOk result (Says stream.old (length stream.new) out.old.items out.new.items) }
{
    loop {
        match stream.front() {
            Beginning::Message(size) => {
                push_message_lines(alloc, out, stream.first(size))?;
                stream.take(size);
            }
            Beginning::Malformed | Beginning::Waiting => return Ok(()),
        }
    }
}

/// Appends each message of these bytes in words, with its fields, and below it its flow text or the rows of its reply, whichever side
/// sends it (OpenFlow 1.3.5, 7.1). Returns how many bytes are left that are no whole message.
pub fn say_messages(alloc: Global, out: &mut Vec<u8>, bytes: &[u8]) -> Result<usize, AllocError>
    ensures { IfOk result (λ left. Says bytes.now left out.old.items out.new.items) }
{
    let mut stream = Stream::new(alloc);
    stream.feed(bytes)?;
    push_messages(alloc, out, &mut stream)?;
    Ok(stream.left().len())
}
