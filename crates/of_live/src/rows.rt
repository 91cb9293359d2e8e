//! The rows of events, as an event file has them.
ghost use Rattle.std.specs.Prelude.{◌≡◌, ◌++◌, ◌∷◌, [], OnOk, Some, decimal};
ghost use Rattle.of_replay.specs.WrittenRows.{bytes_word, change_words, name_word, row_text, state_word};
ghost use Rattle.of_lines.specs.Lines.{joined};
ghost use Rattle.of_switch.specs.declared.event.Event.TheVariants.{Chunk, Frame};
ghost use Rattle.hex.specs.Hex.{encode_lower};

use itoa::Buffer;
use of_switch::{Event, PortChange};
use of_text::cut;
use std::alloc::AllocError;

// Appends a number in decimal.
fn push_decimal(out: &mut Vec<u8>, number: u64) -> Result<(), AllocError>
    ensures { OnOk result (out.new.items ≡ out.old.items ++ decimal number) }
{
    out.extend_from_slice(Buffer::new().format(number).as_bytes())
}

// Appends bytes as hex digits in lower case.
fn push_hex(out: &mut Vec<u8>, bytes: &[u8]) -> Result<(), AllocError>
    ensures { OnOk result (out.new.items ≡ out.old.items ++ encode_lower bytes.now) }
{
    let start = out.len();
    let end = start.checked_add(2 * bytes.len()).ok_or(AllocError)?;
    out.resize(end, 0)?;
    let (_, digits) = out.split_at_mut(start);
    let _written = hex::encode_to_slice(bytes, digits);
    Ok(())
}

// Appends bytes in hex, or `-` if there are none.
fn push_bytes(out: &mut Vec<u8>, bytes: &[u8]) -> Result<(), AllocError>
    ensures { OnOk result (out.new.items ≡ out.old.items ++ bytes_word bytes.now) }
{
    if bytes.is_empty() {
        return Ok(out.push(b'-')?);
    }
    push_hex(out, bytes)
}

fn push_state(out: &mut Vec<u8>, up: bool) -> Result<(), AllocError>
    ensures { OnOk result (out.new.items ≡ out.old.items ++ state_word up) }
{
    out.extend_from_slice(if up { b"up" } else { b"down" })
}

// Appends a port's name, without the zeros behind it.
fn push_name(out: &mut Vec<u8>, name: &[u8]) -> Result<(), AllocError>
    ensures { OnOk result (out.new.items ≡ out.old.items ++ name_word name.now) }
{
    let (word, _) = cut(name, 0);
    out.extend_from_slice(word)
}

// Appends what a port that is added is: its hardware address, its name and its link.
fn push_port(out: &mut Vec<u8>, hw: &[u8], name: &[u8], up: bool) -> Result<(), AllocError>
    ensures { OnOk result (out.new.items ≡ out.old.items ++ encode_lower hw.now ++ 32 ∷ name_word name.now ++ 32 ∷ state_word up) }
{
    push_hex(out, hw)?;
    out.push(b' ')?;
    push_name(out, name)?;
    out.push(b' ')?;
    push_state(out, up)
}

// Appends the words behind `port`.
fn push_change(out: &mut Vec<u8>, change: &PortChange) -> Result<(), AllocError>
    ensures { OnOk result (out.new.items ≡ out.old.items ++ joined (change_words change.now)) }
{
    match change {
        PortChange::Add {
            number,
            hw,
            name,
            up,
        } => {
            out.extend_from_slice(b"add ")?;
            push_decimal(out, u64::from(*number))?;
            out.push(b' ')?;
            push_port(out, hw, name, *up)
        }
        PortChange::Remove { number } => {
            out.extend_from_slice(b"remove ")?;
            push_decimal(out, u64::from(*number))
        }
        PortChange::Link { number, up } => {
            out.extend_from_slice(b"link ")?;
            push_decimal(out, u64::from(*number))?;
            out.push(b' ')?;
            push_state(out, *up)
        }
    }
}

/// Appends the row of a frame that is received at a port, and LF.
pub fn push_frame_row(out: &mut Vec<u8>, port: u32, frame: &[u8]) -> Result<(), AllocError>
    ensures { OnOk result (out.new.items ≡ out.old.items ++ row_text (Some (Frame port frame.now)) ++ 10 ∷ []) }
{
    out.extend_from_slice(b"f ")?;
    push_decimal(out, u64::from(port))?;
    out.push(b' ')?;
    push_bytes(out, frame)?;
    Ok(out.push(b'\n')?)
}

/// Appends the row of bytes of the controller, and LF.
pub fn push_chunk_row(out: &mut Vec<u8>, bytes: &[u8]) -> Result<(), AllocError>
    ensures { OnOk result (out.new.items ≡ out.old.items ++ row_text (Some (Chunk bytes.now)) ++ 10 ∷ []) }
{
    out.extend_from_slice(b"c ")?;
    push_bytes(out, bytes)?;
    Ok(out.push(b'\n')?)
}

/// Appends the row of an event, and LF.
pub fn push_row(out: &mut Vec<u8>, event: &Event) -> Result<(), AllocError>
    ensures { OnOk result (out.new.items ≡ out.old.items ++ row_text (Some event.now) ++ 10 ∷ []) }
{
    match event {
        Event::Connect => out.extend_from_slice(b"connect\n"),
        Event::Lost => out.extend_from_slice(b"lost\n"),
        Event::Chunk(bytes) => push_chunk_row(out, bytes.as_slice()),
        Event::Frame { port, frame } => push_frame_row(out, *port, frame.as_slice()),
        Event::Moment(nanos) => {
            out.extend_from_slice(b"t ")?;
            push_decimal(out, *nanos)?;
            Ok(out.push(b'\n')?)
        }
        Event::Ports(change) => {
            out.extend_from_slice(b"port ")?;
            push_change(out, change)?;
            Ok(out.push(b'\n')?)
        }
    }
}
