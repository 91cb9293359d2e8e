//! Messages of OpenFlow in words.
use crate::files::bytes_of;
use of_explain::say_messages;
use of_file_reports::{NoFile, Screen};
use of_replay::streams::WriterSink;
use of_replay::{Ended, write_all};
use std::alloc::AllocError;

/// Why messages are not said, or not all bytes are messages.
#[derive(Drop)]
pub enum Unsaid {
    /// The file is not read.
    Unread(NoFile),
    /// The file has neither bytes of OpenFlow nor hexadecimal digits, two for each byte.
    BadHex,
    /// So many bytes after the last message are no whole message.
    Left(usize),
    /// As other runs over a file end.
    Ended(Ended),
}

// The digits of a word that has hexadecimal digits and is not the name of a file: with 0x, of a header at least, or those of version 4.
fn digits_of(word: &[u8]) -> Option<&[u8]> {
    let (digits, is_marked) = match word.strip_prefix(b"0x") {
        Some(rest) => (rest, true),
        None => (word, false),
    };
    let is_long = is_marked || digits.len() >= 16 || digits.starts_with(b"04");
    if is_long && digits.iter().all(|b| b.is_ascii_hexdigit() || *b == b' ') {
        Some(digits)
    } else {
        None
    }
}

// Bytes from hexadecimal digits, with white space between them or not.
fn bytes_from(rt: &HostRuntime, text: &[u8]) -> Result<Vec<u8>, Unsaid> {
    let mut digits = Vec::new(rt.alloc());
    for byte in text {
        if byte.is_ascii_whitespace() {
            continue;
        }
        if digits.push(*byte).map_err(AllocError::from).is_err() {
            return Err(Unsaid::Ended(Ended::NoMemory));
        }
    }
    match hex::decode(rt.alloc(), &digits) {
        Ok(bytes) => Ok(bytes),
        Err(_) => Err(Unsaid::BadHex),
    }
}

// Bytes of messages begin with a version, which is below every printable character.
fn is_text(bytes: &[u8]) -> bool {
    match bytes.first() {
        Some(first) => *first >= b'\t',
        None => true,
    }
}

// A file has the bytes themselves, or hexadecimal digits.
fn messages_of(rt: &HostRuntime, word: &str) -> Result<Vec<u8>, Unsaid> {
    if let Some(digits) = digits_of(word.as_bytes()) {
        return bytes_from(rt, digits);
    }
    match bytes_of(rt, word) {
        Ok(bytes) if is_text(&bytes) => bytes_from(rt, &bytes),
        Ok(bytes) => Ok(bytes),
        Err(why) => Err(Unsaid::Unread(why)),
    }
}

/// Prints the messages of a word or a file in words.
pub fn said(screen: &Screen<'_>, word: &str) -> Result<(), Unsaid> {
    let rt = screen.rt;
    let bytes = messages_of(rt, word)?;
    let mut text = Vec::new(rt.alloc());
    let Ok(left) = say_messages(rt.alloc(), &mut text, &bytes) else {
        return Err(Unsaid::Ended(Ended::NoMemory));
    };
    if !write_all(&mut WriterSink::new(screen.report()), &text) {
        return Err(Unsaid::Ended(Ended::WriteFault));
    }
    if left > 0 {
        return Err(Unsaid::Left(left));
    }
    Ok(())
}
