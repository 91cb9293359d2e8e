//! What leaves a switch, in words.
ghost use Rattle.std.specs.Prelude.{◌≡◌, ◌+◌, ◌==◌, ◌++◌, option_map, IfOk, OnOk, None, []};
ghost use Rattle.std.specs.Option.{option_copied};
ghost use Rattle.of_json.specs.LeavingWords.{bytes_line, first_bytes, first_bytes_part, frame_lines, frame_words_line, has_sent, in_words, side_line, side_lines, packet_in_parts, packet_in_reason, packet_in_words, packet_line, part_unless_zero, out_words, ports_of_frame, range_words, ranges_words, reason_said, sent_line, side_words};

use of_build::push_hex;
use of_frame_words::frame_words;
use of_machine::{Item, ToController};
use of_text::is;
use of_values::{push_decimal, push_hexadecimal};
use of_wire::PacketInReason;
use std::alloc::{AllocError, Global};

/// max_len of an OUTPUT to the controller that sends the packet as a whole: OFPCML_NO_BUFFER (OpenFlow 1.3.5, 7.2.5).
const NO_BUFFER: u16 = 0xffff;

/// A reason in words (OpenFlow 1.3.5, 7.4.1).
pub fn reason_name(reason: PacketInReason) -> &'static [u8]
    ensures { result.now ≡ reason_said reason }
{
    match reason {
        PacketInReason::NoMatch => b"no match",
        PacketInReason::Action => b"action",
        PacketInReason::InvalidTtl => b"invalid TTL",
    }
}

// Appends words and a number, unless it is 0.
fn push_unless_zero(out: &mut Vec<u8>, words: &[u8], number: u64) -> Result<(), AllocError>
    ensures { OnOk result (out.new.items ≡ out.old.items ++ part_unless_zero words.now number) }
{
    if number == 0 {
        return Ok(());
    }
    out.extend_from_slice(words)?;
    push_hexadecimal(out, 1, u128::from(number))
}

// Appends how many bytes the controller gets, unless it gets all.
fn push_first_bytes(out: &mut Vec<u8>, max_len: u16) -> Result<(), AllocError>
    ensures { OnOk result (out.new.items ≡ out.old.items ++ first_bytes max_len) }
{
    if max_len == NO_BUFFER {
        return Ok(());
    }
    out.extend_from_slice(b", the first ")?;
    push_decimal(out, u128::from(max_len))?;
    out.extend_from_slice(b" bytes")
}

// Appends the same, if an OUTPUT action sent the packet.
#[tactic(auto, unfolding(crate::specs::LeavingWords::first_bytes_part))]
fn push_max_len(out: &mut Vec<u8>, max_len: Option<u16>) -> Result<(), AllocError>
    ensures { OnOk result (out.new.items ≡ out.old.items ++ first_bytes_part max_len) }
{
    match max_len {
        None => Ok(()),
        Some(max_len) => push_first_bytes(out, max_len),
    }
}

// Appends why a packet is sent to the controller, and the table.
#[tactic(auto, unfolding(crate::specs::LeavingWords::packet_in_reason))]
fn push_reason(out: &mut Vec<u8>, reason: PacketInReason, table: u8) -> Result<(), AllocError>
    ensures { OnOk result (out.new.items ≡ out.old.items ++ packet_in_reason reason table) }
{
    out.extend_from_slice(b"to the controller: ")?;
    out.extend_from_slice(reason_name(reason))?;
    out.extend_from_slice(b", table ")?;
    push_decimal(out, u128::from(table))
}

// Appends the cookie and the metadata of a packet to the controller, if they are not 0, and how many bytes the controller gets.
#[tactic(auto, unfolding(crate::specs::LeavingWords::packet_in_parts))]
fn push_parts(out: &mut Vec<u8>, packet: &ToController) -> Result<(), AllocError>
    ensures { OnOk result (out.new.items ≡ out.old.items ++ packet_in_parts packet.now) }
{
    push_unless_zero(out, b", cookie ", packet.cookie)?;
    push_unless_zero(out, b", metadata ", packet.metadata)?;
    push_max_len(out, packet.max_len)
}

// Appends a packet to the controller, without its bytes.
#[tactic(auto, unfolding(crate::specs::LeavingWords::packet_in_words))]
fn push_packet_in(out: &mut Vec<u8>, packet: &ToController) -> Result<(), AllocError>
    ensures { OnOk result (out.new.items ≡ out.old.items ++ packet_in_words packet.now) }
{
    push_reason(out, packet.reason, packet.table)?;
    push_parts(out, packet)
}

// Appends the line of a packet to the controller, behind the name of the switch.
#[tactic(auto, unfolding(crate::specs::LeavingWords::packet_line))]
fn push_packet_line(
    alloc: Global,
    out: &mut Vec<u8>,
    who: &[u8],
    packet: &ToController,
) -> Result<(), AllocError>
    ensures { OnOk result (out.new.items ≡ out.old.items ++ packet_line who.now packet.now) }
{
    out.extend_from_slice(who)?;
    push_packet_in(out, packet)?;
    out.extend_from_slice(b": ")?;
    push_hex(alloc, out, packet.frame.as_slice())?;
    out.push(b'\n')?;
    Ok(())
}

// Appends numbers from one to another.
fn push_range(out: &mut Vec<u8>, low: u32, high: u32) -> Result<(), AllocError>
    ensures { OnOk result (out.new.items ≡ out.old.items ++ range_words low high) }
{
    push_decimal(out, u128::from(low))?;
    if high == low {
        return Ok(());
    }
    out.extend_from_slice(b" to ")?;
    push_decimal(out, u128::from(high))
}

fn follows(port: u32, high: u32) -> bool
    ensures { result ≡ (port == high + 1) }
{
    u64::from(port) == u64::from(high) + 1
}

// Appends numbers, those that follow each other as ranges.
fn push_ranges(out: &mut Vec<u8>, first: u32, others: &[u32]) -> Result<(), AllocError>
    ensures { OnOk result (out.new.items ≡ out.old.items ++ ranges_words first first others.now) }
{
    let (mut low, mut high) = (first, first);
    for port in others {
        if !follows(*port, high) {
            push_range(out, low, high)?;
            out.extend_from_slice(b", ")?;
            low = *port;
        }
        high = *port;
    }
    push_range(out, low, high)
}

// The ports by which the next items send this frame.
fn same_frame_ports(alloc: Global, frame: &[u8], items: &[Item]) -> Result<Vec<u32>, AllocError>
    ensures { IfOk result (λ ports. ports.items ≡ ports_of_frame frame.now items.now) }
{
    let mut ports = Vec::new(alloc);
    for item in items {
        match item {
            Item::Sent { port, frame: other } if is(other.as_slice(), frame) => ports.push(*port)?,
            _ => return Ok(ports),
        }
    }
    Ok(ports)
}

fn name_of_ports(others: &[u32]) -> &'static [u8]
    ensures { result.now ≡ out_words others.now }
{
    match others {
        [] => b"out by port ",
        _ => b"out by ports ",
    }
}

// Appends the line of a frame that leaves by a port, and then by others.
#[tactic(auto, unfolding(crate::specs::LeavingWords::sent_line))]
fn push_sent_line(
    alloc: Global,
    out: &mut Vec<u8>,
    who: &[u8],
    port: u32,
    frame: &[u8],
    others: &[u32],
) -> Result<(), AllocError>
    ensures { OnOk result (out.new.items ≡ out.old.items ++ sent_line who.now port frame.now others.now) }
{
    out.extend_from_slice(who)?;
    out.extend_from_slice(name_of_ports(others))?;
    push_ranges(out, port, others)?;
    out.extend_from_slice(b": ")?;
    push_hex(alloc, out, frame)?;
    out.push(b'\n')?;
    Ok(())
}

// Whether an item sent this frame.
fn sent_before(before: Option<&Item>, frame: &[u8]) -> bool
    ensures { result ≡ has_sent (option_copied before.entry) frame.now }
{
    match before {
        Some(Item::Sent { frame: other, .. }) => is(other.as_slice(), frame),
        _ => false,
    }
}

// Appends the line of an item after another one, unless that one has its line.
fn push_item_line(
    alloc: Global,
    out: &mut Vec<u8>,
    who: &[u8],
    before: Option<&Item>,
    item: &Item,
    behind: &[Item],
) -> Result<(), AllocError>
    ensures { OnOk result (out.new.items ≡ out.old.items ++ side_line who.now (option_copied before.entry) item.now behind.now) }
{
    match item {
        Item::Sent { frame, .. } if sent_before(before, frame.as_slice()) => Ok(()),
        Item::Sent { port, frame } => {
            let others = same_frame_ports(alloc, frame.as_slice(), behind)?;
            push_sent_line(alloc, out, who, *port, frame.as_slice(), &others)
        }
        Item::PacketIn(packet) => push_packet_line(alloc, out, who, packet),
    }
}

fn push_item_lines(
    alloc: Global,
    out: &mut Vec<u8>,
    who: &[u8],
    items: &[Item],
) -> Result<(), AllocError>
    ensures { OnOk result (out.new.items ≡ out.old.items ++ side_lines who.now None items.now) }
{
    let mut before = None;
    let mut rest = items;
    while let [item, behind @ ..] = rest {
        push_item_line(alloc, out, who, before, item, behind)?;
        before = Some(item);
        rest = behind;
    }
    Ok(())
}

// Appends that nothing leaves.
fn push_nothing(out: &mut Vec<u8>, who: &[u8]) -> Result<(), AllocError>
    ensures { OnOk result (out.new.items ≡ out.old.items ++ side_words who.now []) }
{
    out.extend_from_slice(who)?;
    out.extend_from_slice(b"nothing leaves")?;
    out.push(b'\n')?;
    Ok(())
}

/// Appends what leaves a switch, behind the name of the switch: a line for each packet to the controller, and one for each frame with the ports by
/// which it leaves one after the other.
pub fn push_side(
    alloc: Global,
    out: &mut Vec<u8>,
    who: &[u8],
    items: &[Item],
) -> Result<(), AllocError>
    ensures { OnOk result (out.new.items ≡ out.old.items ++ side_words who.now items.now) }
{
    match items {
        [] => push_nothing(out, who),
        _ => push_item_lines(alloc, out, who, items),
    }
}

#[tactic(auto, unfolding(crate::specs::LeavingWords::bytes_line))]
fn push_bytes_line(
    alloc: Global,
    out: &mut Vec<u8>,
    port: u32,
    frame: &[u8],
) -> Result<(), AllocError>
    ensures { OnOk result (out.new.items ≡ out.old.items ++ bytes_line port frame.now) }
{
    out.extend_from_slice(b"    frame: --port ")?;
    push_decimal(out, u128::from(port))?;
    out.push(b' ')?;
    push_hex(alloc, out, frame)?;
    out.push(b'\n')?;
    Ok(())
}

#[tactic(auto, unfolding(crate::specs::LeavingWords::frame_words_line))]
fn push_words(out: &mut Vec<u8>, words: &[u8]) -> Result<(), AllocError>
    ensures { OnOk result (out.new.items ≡ out.old.items ++ frame_words_line words.now) }
{
    out.extend_from_slice(b"    in words: ")?;
    out.extend_from_slice(words)?;
    out.push(b'\n')?;
    Ok(())
}

fn push_in_words(out: &mut Vec<u8>, words: Option<Vec<u8>>) -> Result<(), AllocError>
    ensures { OnOk result (out.new.items ≡ out.old.items ++ in_words (option_map (λ w. w.items) words)) }
{
    match words {
        None => Ok(()),
        Some(words) => push_words(out, &words),
    }
}

/// Appends the lines of a frame: its port and its bytes, as `trace` takes them, and the words for it, if there are such.
#[tactic(auto, unfolding(crate::specs::LeavingWords::frame_lines))]
pub fn push_frame_lines(
    alloc: Global,
    out: &mut Vec<u8>,
    port: u32,
    frame: &[u8],
) -> Result<(), AllocError>
    ensures { OnOk result (out.new.items ≡ out.old.items ++ frame_lines port frame.now) }
{
    push_bytes_line(alloc, out, port, frame)?;
    let words = frame_words(alloc, port, frame)?;
    push_in_words(out, words)
}
