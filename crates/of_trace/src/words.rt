//! Traces in words.
ghost use Rattle.std.specs.Prelude.{◌≡◌, ◌++◌, OnOk, IsTrue, Some, option_to_list};
ghost use Rattle.std.specs.List.{flat_map};
ghost use Rattle.std.specs.Option.{option_copied};
ghost use Rattle.of_headers.specs.FieldMap.{value};
ghost use Rattle.of_machine.specs.declared.data.Step.TheVariants.{Act};
ghost use Rattle.of_text.specs.Lines.{ended};
ghost use Rattle.of_tracing.specs.Encoded.{are_encoded, is_encoded};
ghost use Rattle.of_trace.specs.Words.{action_line, arp_words, effect_words, ethernet_words, flow_there, found_words, header_words, heading, ip_words, leaving_line, leaving_text, length_words, metadata_words, numbered_words, packet_words, pair, plain_line, sight_words, single, step_words, transport_words, ttl_part, unreceived, words_line, words_text};

use crate::packets::arrived;
use crate::sight::Sight;
use crate::unsent::{push_behind, why_unsent};
use of_actions::Action;
use of_build::push_hex;
use of_classifier::Lookup;
use of_headers::{Field, FieldKey};
use of_machine::Step;
use of_ports::{Port, find_port};
use of_switch::{Effect, Switch};
use of_table::Flow;
use of_text::{Row, push_number, push_row};
use of_values::{push_each, push_entry_words, push_port, push_value_words};
use of_wire::limits::{OFPP_CONTROLLER, TABLES};
use std::alloc::{AllocError, Global};

/// max_len of an OUTPUT to the controller that sends the packet as a whole: OFPCML_NO_BUFFER (OpenFlow 1.3.5, 7.2.5).
const WHOLE: u16 = 0xffff;

// Appends a word and two fields, if the packet has both.
#[tactic(auto, unfolding(crate::specs::Words::pair))]
fn push_pair(
    out: &mut Vec<u8>,
    key: &FieldKey,
    word: &[u8],
    first: Field,
    between: &[u8],
    second: Field,
) -> Result<(), AllocError>
    ensures { OnOk result (out.new.items ≡ out.old.items ++ pair (value key.now) word.now first between.now second) }
{
    if let (Some(from), Some(to)) = (key.get(first), key.get(second)) {
        out.extend_from_slice(b", ")?;
        out.extend_from_slice(word)?;
        out.push(b' ')?;
        push_value_words(out, first, from, None)?;
        out.extend_from_slice(between)?;
        push_value_words(out, second, to, None)?;
    }
    Ok(())
}

// Appends a word and a field, if the packet has it.
#[tactic(auto, unfolding(crate::specs::Words::single))]
fn push_single(
    out: &mut Vec<u8>,
    key: &FieldKey,
    word: &[u8],
    field: Field,
) -> Result<(), AllocError>
    ensures { OnOk result (out.new.items ≡ out.old.items ++ single (value key.now) word.now field) }
{
    if let Some(found) = key.get(field) {
        out.extend_from_slice(b", ")?;
        out.extend_from_slice(word)?;
        out.push(b' ')?;
        push_value_words(out, field, found, None)?;
    }
    Ok(())
}

#[tactic(auto, unfolding(crate::specs::Words::ethernet_words))]
fn push_ethernet(out: &mut Vec<u8>, key: &FieldKey) -> Result<(), AllocError>
    ensures { OnOk result (out.new.items ≡ out.old.items ++ ethernet_words (value key.now)) }
{
    push_pair(out, key, b"eth", Field::EthSrc, b" > ", Field::EthDst)?;
    push_single(out, key, b"eth_type", Field::EthType)?;
    push_pair(
        out,
        key,
        b"vlan",
        Field::VlanVid,
        b" priority ",
        Field::VlanPcp,
    )
}

#[tactic(auto, unfolding(crate::specs::Words::arp_words))]
fn push_arp(out: &mut Vec<u8>, key: &FieldKey) -> Result<(), AllocError>
    ensures { OnOk result (out.new.items ≡ out.old.items ++ arp_words (value key.now)) }
{
    push_pair(out, key, b"arp", Field::ArpSpa, b" > ", Field::ArpTpa)?;
    push_single(out, key, b"arp_op", Field::ArpOp)
}

#[tactic(auto, unfolding(crate::specs::Words::ip_words))]
fn push_ip(out: &mut Vec<u8>, key: &FieldKey) -> Result<(), AllocError>
    ensures { OnOk result (out.new.items ≡ out.old.items ++ ip_words (value key.now)) }
{
    push_pair(out, key, b"ipv4", Field::Ipv4Src, b" > ", Field::Ipv4Dst)?;
    push_pair(out, key, b"ipv6", Field::Ipv6Src, b" > ", Field::Ipv6Dst)?;
    push_single(out, key, b"ip_proto", Field::IpProto)
}

#[tactic(auto, unfolding(crate::specs::Words::transport_words))]
fn push_transport(out: &mut Vec<u8>, key: &FieldKey) -> Result<(), AllocError>
    ensures { OnOk result (out.new.items ≡ out.old.items ++ transport_words (value key.now)) }
{
    push_pair(out, key, b"tcp", Field::TcpSrc, b" > ", Field::TcpDst)?;
    push_pair(out, key, b"udp", Field::UdpSrc, b" > ", Field::UdpDst)?;
    push_pair(
        out,
        key,
        b"icmp type",
        Field::Icmpv4Type,
        b" code ",
        Field::Icmpv4Code,
    )?;
    push_pair(
        out,
        key,
        b"icmpv6 type",
        Field::Icmpv6Type,
        b" code ",
        Field::Icmpv6Code,
    )
}

// Appends the fields of a packet that say from where and to where, header by header.
#[tactic(auto, unfolding(crate::specs::Words::header_words))]
fn push_headers(out: &mut Vec<u8>, key: &FieldKey) -> Result<(), AllocError>
    ensures { OnOk result (out.new.items ≡ out.old.items ++ header_words (value key.now)) }
{
    push_ethernet(out, key)?;
    push_arp(out, key)?;
    push_ip(out, key)?;
    push_transport(out, key)
}

// Appends a TTL, if there is one.
#[tactic(auto, unfolding(crate::specs::Words::ttl_part))]
fn push_ttl_part(out: &mut Vec<u8>, ttl: Option<u8>) -> Result<(), AllocError>
    ensures { OnOk result (out.new.items ≡ out.old.items ++ ttl_part ttl) }
{
    match ttl {
        None => Ok(()),
        Some(ttl) => push_numbered(out, b", ttl", u64::from(ttl)),
    }
}

// Appends what tables see of a packet, and its TTL or hop limit.
#[tactic(auto, unfolding(crate::specs::Words::sight_words))]
fn push_sight(out: &mut Vec<u8>, sight: &Sight) -> Result<(), AllocError>
    ensures { OnOk result (out.new.items ≡ out.old.items ++ sight_words sight.now) }
{
    push_headers(out, &sight.key())?;
    push_ttl_part(out, sight.ttl())
}

// Appends a packet, or that the frame is too short or too long to be received.
#[tactic(auto, unfolding(crate::specs::Words::packet_words))]
fn push_packet(out: &mut Vec<u8>, frame: &[u8], packet: &Option<Sight>) -> Result<(), AllocError>
    ensures { OnOk result (out.new.items ≡ out.old.items ++ packet_words frame.now (option_to_list packet.now)) }
{
    match packet {
        Some(sight) => push_sight(out, sight),
        None => {
            push_numbered(out, b",", frame.len() as u64)?;
            out.extend_from_slice(b" bytes: a frame has 14 to 9216 bytes, so it is dropped")
        }
    }
}

// Appends why a frame is not received at a port, if it is not.
#[tactic(auto, unfolding(crate::specs::Words::unreceived))]
fn push_unreceived(out: &mut Vec<u8>, port: Option<&Port>) -> Result<(), AllocError>
    ensures { OnOk result (out.new.items ≡ out.old.items ++ unreceived (option_copied port.entry)) }
{
    match port {
        None => out.extend_from_slice(b": there is no such port, so the frame is dropped"),
        Some(port) if port.may_receive() => Ok(()),
        Some(port) if port.is_live() => {
            out.extend_from_slice(b": the port receives nothing, so the frame is dropped")
        }
        Some(_) => out.extend_from_slice(b": the port is down, so the frame is dropped"),
    }
}

/// Appends the first line: the ingress port, and the frame in words or why it is dropped.
#[tactic(auto, unfolding(crate::specs::Words::heading))]
pub fn push_heading<L: Lookup>(
    alloc: Global,
    out: &mut Vec<u8>,
    switch: &Switch<L>,
    port: u32,
    frame: &[u8],
) -> Result<(), AllocError>
    ensures { OnOk result (out.new.items ≡ out.old.items ++ ended (heading switch.now.core.forwarding port frame.now)) }
{
    let packet = arrived(alloc, port, frame)?;
    out.extend_from_slice(b"in_port ")?;
    push_port(out, u128::from(port))?;
    push_packet(out, frame, &packet)?;
    push_unreceived(out, find_port(switch.datapath().ports.as_slice(), port))?;
    out.push(b'\n')?;
    Ok(())
}

// Appends the priority and the match of a flow.
#[tactic(auto, unfolding(crate::specs::Words::found_words))]
fn push_entry<L: Lookup>(
    out: &mut Vec<u8>,
    switch: &Switch<L>,
    table: u8,
    place: usize,
) -> Result<(), AllocError>
    ensures { OnOk result (out.new.items ≡ out.old.items ++ found_words (flow_there switch.now.core.forwarding table place)) }
{
    if table >= TABLES {
        return Ok(());
    }
    match switch.datapath().entry(table, place) {
        Some(entry) => push_flow_words(out, &entry.flow),
        None => Ok(()),
    }
}

// Appends the same of this flow.
#[tactic(auto, unfolding(crate::specs::Words::found_words))]
fn push_flow_words(out: &mut Vec<u8>, flow: &Flow) -> Result<(), AllocError>
    ensures { OnOk result (out.new.items ≡ out.old.items ++ found_words (Some flow.now)) }
{
    out.extend_from_slice(b", ")?;
    push_entry_words(out, flow.priority, flow.fields.fields())
}

// Appends how many bytes of a packet the controller gets.
#[tactic(auto, unfolding(crate::specs::Words::length_words))]
fn push_length(out: &mut Vec<u8>, port: u32, max_len: u16) -> Result<(), AllocError>
    ensures { OnOk result (out.new.items ≡ out.old.items ++ length_words port max_len) }
{
    if port != OFPP_CONTROLLER || max_len == WHOLE {
        return Ok(());
    }
    push_numbered(out, b", the first", u64::from(max_len))?;
    out.extend_from_slice(b" bytes")
}

// Appends an action.
#[tactic(auto, unfolding(crate::specs::Words::action_line))]
fn push_action(out: &mut Vec<u8>, action: Action) -> Result<(), AllocError>
    requires { IsTrue (is_encoded (Act action)) }
    ensures { OnOk result (out.new.items ≡ out.old.items ++ action_line action) }
{
    match action {
        Action::Output { port, max_len } => {
            out.extend_from_slice(b"output ")?;
            push_port(out, u128::from(port))?;
            push_length(out, port, max_len)
        }
        Action::Group(group) => push_numbered(out, b"group", u64::from(group)),
        Action::SetField { field, value } => {
            out.extend_from_slice(b"set ")?;
            out.extend_from_slice(field.name())?;
            out.push(b' ')?;
            push_value_words(out, field, value, None)
        }
        _ => push_row(out, Row::Do(action)),
    }
}

// Appends words and a number.
#[tactic(auto, unfolding(crate::specs::Words::numbered_words))]
fn push_numbered(out: &mut Vec<u8>, words: &[u8], number: u64) -> Result<(), AllocError>
    ensures { OnOk result (out.new.items ≡ out.old.items ++ numbered_words words.now number) }
{
    out.extend_from_slice(words)?;
    push_number(out, number)
}

fn push_phrase(out: &mut Vec<u8>, text: &[u8]) -> Result<(), AllocError>
    ensures { OnOk result (out.new.items ≡ out.old.items ++ text.now) }
{
    out.extend_from_slice(text)
}

fn push_metadata(out: &mut Vec<u8>, value: u64, mask: u64) -> Result<(), AllocError>
    ensures { OnOk result (out.new.items ≡ out.old.items ++ metadata_words value mask) }
{
    out.extend_from_slice(b"write metadata ")?;
    push_value_words(
        out,
        Field::Metadata,
        u128::from(value),
        Some(u128::from(mask)),
    )
}

#[tactic(auto, unfolding(crate::specs::Words::plain_line))]
fn push_plain(out: &mut Vec<u8>, step: Step) -> Result<(), AllocError>
    ensures { OnOk result (out.new.items ≡ out.old.items ++ plain_line step) }
{
    match step {
        Step::Apply => push_phrase(out, b"apply actions"),
        Step::Clear => push_phrase(out, b"clear the action set"),
        Step::Write => push_phrase(out, b"write into the action set"),
        Step::Metadata { value, mask } => push_metadata(out, value, mask),
        Step::Goto(table) => push_numbered(out, b"go to table", u64::from(table)),
        Step::Set => push_phrase(out, b"run the action set"),
        Step::TtlExpired => push_phrase(
            out,
            b"dec_nw_ttl: the TTL has expired, so the packet goes to the controller",
        ),
        Step::End => push_phrase(out, b"end"),
        Step::Miss(_) | Step::Entry { .. } | Step::Act(_) => Ok(()),
    }
}

/// Appends a step in words, without the end of its line.
#[tactic(auto, unfolding(crate::specs::Words::words_line))]
pub fn push_words_line<L: Lookup>(
    out: &mut Vec<u8>,
    switch: &Switch<L>,
    step: Step,
) -> Result<(), AllocError>
    requires { IsTrue (is_encoded step) }
    ensures { OnOk result (out.new.items ≡ out.old.items ++ words_line switch.now.core.forwarding step) }
{
    match step {
        Step::Miss(table) => {
            push_numbered(out, b"table", u64::from(table))?;
            out.extend_from_slice(b": no entry matches")
        }
        Step::Entry { table, number } => {
            push_numbered(out, b"table", u64::from(table))?;
            push_numbered(out, b": entry", number as u64)?;
            push_entry(out, switch, table, number)
        }
        Step::Act(action) => push_action(out, action),
        Step::Apply
        | Step::Clear
        | Step::Write
        | Step::Metadata { .. }
        | Step::Goto(_)
        | Step::Set
        | Step::TtlExpired
        | Step::End => push_plain(out, step),
    }
}

/// Appends a step in words, of a frame that came in by a port, and why it sends nothing if that is so, without the end of its line.
#[tactic(auto, unfolding(crate::specs::Words::step_words))]
pub fn push_step_words<L: Lookup>(
    out: &mut Vec<u8>,
    switch: &Switch<L>,
    port: u32,
    step: Step,
) -> Result<(), AllocError>
    requires { IsTrue (is_encoded step) }
    ensures { OnOk result (out.new.items ≡ out.old.items ++ step_words switch.now.core.forwarding port step) }
{
    push_words_line(out, switch, step)?;
    match step {
        Step::Act(action) => push_behind(out, why_unsent(switch, port, action)),
        _ => Ok(()),
    }
}

/// Appends the lines of steps in words, of a frame that came in by a port.
pub fn push_words<L: Lookup>(
    out: &mut Vec<u8>,
    switch: &Switch<L>,
    port: u32,
    steps: &[Step],
) -> Result<(), AllocError>
    requires { IsTrue (are_encoded steps.now) }
    ensures { OnOk result (out.new.items ≡ out.old.items ++ words_text switch.now.core.forwarding port steps.now) }
{
    for step in steps {
        push_step_words(out, switch, port, *step)?;
        out.push(b'\n')?;
    }
    Ok(())
}

// Appends an effect in words, without the end of its line.
#[tactic(auto, unfolding(crate::specs::Words::effect_words))]
fn push_effect(alloc: Global, out: &mut Vec<u8>, effect: &Effect) -> Result<(), AllocError>
    ensures { OnOk result (out.new.items ≡ out.old.items ++ effect_words effect.now) }
{
    match effect {
        Effect::Answer(bytes) => {
            out.extend_from_slice(b"to the controller: ")?;
            push_hex(alloc, out, bytes.as_slice())
        }
        Effect::Sent { port, frame } => {
            push_numbered(out, b"out by port", u64::from(*port))?;
            out.extend_from_slice(b": ")?;
            push_hex(alloc, out, frame.as_slice())
        }
        Effect::Closed => out.extend_from_slice(b"the connection is closed"),
    }
}

fn push_leaving_line(alloc: Global, out: &mut Vec<u8>, effect: &Effect) -> Result<(), AllocError>
    ensures { OnOk result (out.new.items ≡ out.old.items ++ leaving_line effect.now) }
{
    push_effect(alloc, out, effect)?;
    out.push(b'\n')?;
    Ok(())
}

// Appends effects in words.
fn push_leaving_lines(
    alloc: Global,
    out: &mut Vec<u8>,
    effects: &[Effect],
) -> Result<(), AllocError>
    ensures { OnOk result (out.new.items ≡ out.old.items ++ flat_map leaving_line effects.now) }
{
    push_each(out, effects, |out, effect| {
        push_leaving_line(alloc, out, effect)
    })
}

/// Appends what leaves, in words.
pub fn push_leaving(alloc: Global, out: &mut Vec<u8>, effects: &[Effect]) -> Result<(), AllocError>
    ensures { OnOk result (out.new.items ≡ out.old.items ++ leaving_text effects.now) }
{
    if effects.is_empty() {
        out.extend_from_slice(b"nothing leaves\n")?;
    }
    push_leaving_lines(alloc, out, effects)
}
