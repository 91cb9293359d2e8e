//! Packets with which entries win, in words.
ghost use Rattle.std.specs.Prelude.{◌≡◌, ◌++◌, option_map, IfOk, OnOk};
ghost use Rattle.of_report.specs.Report.{packet_as_words, packet_said, reported_packet_words, words_asked, words_or};

use of_build::push_hex;
use of_frame_words::frame_words;
use of_values::{push_hexadecimal, push_port};
use std::alloc::{AllocError, Global};

/// A packet as words that `trace` takes, if there are such: no words say metadata.
pub fn packet_words(
    alloc: Global,
    frame: &[u8],
    in_port: u32,
    metadata: u64,
) -> Result<Option<Vec<u8>>, AllocError>
    ensures { IfOk result (λ words. option_map (λ w. w.items) words ≡ packet_as_words frame.now in_port metadata) }
{
    if metadata == 0 {
        frame_words(alloc, in_port, frame)
    } else {
        Ok(None)
    }
}

// The same, if words are asked for.
fn words_if(
    alloc: Global,
    words: bool,
    frame: &[u8],
    in_port: u32,
    metadata: u64,
) -> Result<Option<Vec<u8>>, AllocError>
    ensures { IfOk result (λ found. option_map (λ w. w.items) found ≡ words_asked words (packet_as_words frame.now in_port metadata)) }
{
    if words {
        packet_words(alloc, frame, in_port, metadata)
    } else {
        Ok(None)
    }
}

// Appends a packet: its port, its metadata and its bytes.
#[tactic(auto, unfolding(crate::specs::Report::reported_packet_words))]
fn push_bytes(
    alloc: Global,
    out: &mut Vec<u8>,
    frame: &[u8],
    in_port: u32,
    metadata: u64,
) -> Result<(), AllocError>
    ensures { OnOk result (out.new.items ≡ out.old.items ++ reported_packet_words frame.now in_port metadata) }
{
    out.extend_from_slice(b"in_port ")?;
    push_port(out, u128::from(in_port))?;
    out.extend_from_slice(b", metadata ")?;
    push_hexadecimal(out, 1, u128::from(metadata))?;
    out.extend_from_slice(b", frame ")?;
    push_hex(alloc, out, frame)
}

// Appends these words of a packet, or else the packet.
fn push_words_or(
    alloc: Global,
    out: &mut Vec<u8>,
    words: Option<Vec<u8>>,
    frame: &[u8],
    in_port: u32,
    metadata: u64,
) -> Result<(), AllocError>
    ensures { OnOk result (out.new.items ≡ out.old.items ++
        words_or (option_map (λ w. w.items) words) (reported_packet_words frame.now in_port metadata)) }
{
    match words {
        Some(words) => out.extend_from_slice(&words),
        None => push_bytes(alloc, out, frame, in_port, metadata),
    }
}

/// Appends a packet with which an entry wins, in words if these are asked for and there are such.
#[tactic(auto, unfolding(crate::specs::Report::packet_said))]
pub fn push_packet(
    alloc: Global,
    out: &mut Vec<u8>,
    words: bool,
    frame: &[u8],
    in_port: u32,
    metadata: u64,
) -> Result<(), AllocError>
    ensures { OnOk result (out.new.items ≡ out.old.items ++ packet_said words frame.now in_port metadata) }
{
    let found = words_if(alloc, words, frame, in_port, metadata)?;
    push_words_or(alloc, out, found, frame, in_port, metadata)
}
