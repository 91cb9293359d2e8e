//! The rows of event files.
ghost use Rattle.std.specs.{Prelude.◌≡◌, Prelude.Some, Prelude.IfOk, Option.option_map};
ghost use Rattle.of_replay.specs.Rows.{row_of_line, with_bytes, chunk_row, frame_row, port_of, change_of, added_port, removed_port, linked_port, named_row};

use crate::lexing::{
    cut_word, is_readable, read_bytes, read_hw, read_moment, read_name, read_number, read_state,
};
use of_switch::PortChange;
use of_text::{is, is_passed_over};
use std::alloc::AllocError;

/// A row of an event file. The bytes of a chunk or a frame are in the buffer that it was read with.
#[derive(Clone, Copy, PartialEq, Eq)]
pub enum Row {
    /// An empty line or a comment.
    Passed,
    /// A controller connects.
    Connect,
    /// The connection is lost.
    Lost,
    /// Bytes of the controller.
    Chunk,
    /// A frame is received at a port.
    Frame { port: u32 },
    /// The time is this many nanoseconds.
    Moment { nanos: u64 },
    /// The ports change.
    Ports(PortChange),
}

// `c HEX`, from its second word on.
fn read_chunk(word: &[u8], bytes: &mut Vec<u8>) -> Result<Option<Row>, AllocError>
    ensures { IfOk result (λ row. option_map Some (chunk_row word.now) ≡ option_map (with_bytes bytes.new.items) row) }
{
    if read_bytes(word, bytes)? {
        Ok(Some(Row::Chunk))
    } else {
        Ok(None)
    }
}

// `f PORT HEX`, from its second word on.
fn read_frame(words: &[u8], bytes: &mut Vec<u8>) -> Result<Option<Row>, AllocError>
    ensures { IfOk result (λ row. option_map Some (frame_row words.now) ≡ option_map (with_bytes bytes.new.items) row) }
{
    let (first, rest) = cut_word(words);
    let Some(port) = read_number(first) else {
        return Ok(None);
    };
    let Some(word) = rest else {
        return Ok(None);
    };
    if read_bytes(word, bytes)? {
        Ok(Some(Row::Frame { port }))
    } else {
        Ok(None)
    }
}

// `port add N HW NAME up|down`, from its third word on.
fn read_port_add(words: &[u8]) -> Option<PortChange>
    ensures { result ≡ added_port words.now }
{
    let (number, rest) = cut_word(words);
    let number = read_number(number)?;
    let (hw, rest) = cut_word(rest?);
    let hw = read_hw(hw)?;
    let (name, rest) = cut_word(rest?);
    let name = read_name(name)?;
    let up = read_state(rest?)?;
    Some(PortChange::Add {
        number,
        hw,
        name,
        up,
    })
}

// `port remove N`, from its third word on.
fn read_port_remove(word: &[u8]) -> Option<PortChange>
    ensures { result ≡ removed_port word.now }
{
    let number = read_number(word)?;
    Some(PortChange::Remove { number })
}

// `port link N up|down`, from its third word on.
fn read_port_link(words: &[u8]) -> Option<PortChange>
    ensures { result ≡ linked_port words.now }
{
    let (number, rest) = cut_word(words);
    let number = read_number(number)?;
    let up = read_state(rest?)?;
    Some(PortChange::Link { number, up })
}

// `port ..`, from its third word on.
fn read_change(change: &[u8], words: &[u8]) -> Option<PortChange>
    ensures { result ≡ change_of change.now words.now }
{
    if is(change, b"add") {
        return read_port_add(words);
    }
    if is(change, b"remove") {
        return read_port_remove(words);
    }
    if is(change, b"link") {
        return read_port_link(words);
    }
    None
}

// `port ..`, from its second word on.
fn read_port(words: &[u8]) -> Option<PortChange>
    ensures { result ≡ port_of words.now }
{
    let (change, rest) = cut_word(words);
    read_change(change, rest?)
}

// A row of more than one word.
fn read_named(name: &[u8], words: &[u8], bytes: &mut Vec<u8>) -> Result<Option<Row>, AllocError>
    ensures { IfOk result (λ row. option_map Some (named_row name.now words.now) ≡ option_map (with_bytes bytes.new.items) row) }
{
    if is(name, b"c") {
        return read_chunk(words, bytes);
    }
    if is(name, b"f") {
        return read_frame(words, bytes);
    }
    if is(name, b"t") {
        return Ok(read_moment(words).map(|nanos| Row::Moment { nanos }));
    }
    if is(name, b"port") {
        return Ok(read_port(words).map(Row::Ports));
    }
    Ok(None)
}

/// The row of a line, whose bytes it decodes into the buffer; None for a bad row.
pub fn read_row(line: &[u8], bytes: &mut Vec<u8>) -> Result<Option<Row>, AllocError>
    ensures { IfOk result (λ row. row_of_line line.now ≡ option_map (with_bytes bytes.new.items) row) }
{
    if !is_readable(line) {
        return Ok(None);
    }
    if is_passed_over(line) {
        return Ok(Some(Row::Passed));
    }
    let (name, rest) = cut_word(line);
    match rest {
        None if is(name, b"connect") => Ok(Some(Row::Connect)),
        None if is(name, b"lost") => Ok(Some(Row::Lost)),
        None => Ok(None),
        Some(words) => read_named(name, words, bytes),
    }
}
