//! Traces as JSON.
ghost use Rattle.std.specs.Prelude.{◌≡◌, ◌++◌, ◌∷◌, IfOk, OnOk, None, Some, codes};
ghost use Rattle.of_json.specs.{Parts.listed, Parts.number_member, Parts.text_member, Strings.array_member};
ghost use Rattle.of_values.specs.Values.{value_words};
ghost use Rattle.of_trace.specs.Json.{action_members, effect_members, effect_named, effect_object, flow_members, head_members, hexadecimal_member, port_member, step_member, step_members, step_object, trace_json};
ghost use Rattle.of_trace.specs.Words.{flow_there};

use of_actions::{Action, is_number};
use of_classifier::Lookup;
use of_headers::Field;
use of_json::{
    push_array_member, push_bytes_member, push_document_head, push_key, push_match_object,
    push_number_member, push_quoted, push_text_member,
};
use of_machine::Step;
use of_switch::{Effect, Switch};
use of_table::Flow;
use of_tracing::Trace;
use of_values::{push_hexadecimal, push_port, push_value_words};
use of_wire::limits::TABLES;
use std::alloc::{AllocError, Global};

// Appends the first member of a step.
#[tactic(auto, unfolding(crate::specs::Json::step_member))]
fn push_named(out: &mut Vec<u8>, step: &[u8]) -> Result<(), AllocError>
    ensures { OnOk result (out.new.items ≡ out.old.items ++ step_member step.now) }
{
    push_key(out, b"step")?;
    push_quoted(out, step)
}

// Appends a step with one number.
fn push_numbered(
    out: &mut Vec<u8>,
    step: &[u8],
    name: &[u8],
    number: u128,
) -> Result<(), AllocError>
    ensures { OnOk result (out.new.items ≡ out.old.items ++ (step_member step.now ++ number_member name.now number)) }
{
    push_named(out, step)?;
    push_number_member(out, name, number)
}

// Appends a number in hexadecimal, as a string.
#[tactic(auto, unfolding(of_json::specs::Parts::text_member, crate::specs::Json::hexadecimal_member))]
fn push_hexadecimal_member(
    out: &mut Vec<u8>,
    name: &[u8],
    least: u32,
    number: u128,
) -> Result<(), AllocError>
    ensures { OnOk result (out.new.items ≡ out.old.items ++ hexadecimal_member name.now least number) }
{
    out.push(b',')?;
    push_key(out, name)?;
    out.push(b'"')?;
    push_hexadecimal(out, least, number)?;
    out.push(b'"')?;
    Ok(())
}

// Appends the number of a port, or the name of a reserved one.
#[tactic(auto, unfolding(crate::specs::Json::port_member, of_json::specs::Parts::text_member))]
fn push_port_member(out: &mut Vec<u8>, port: u32) -> Result<(), AllocError>
    ensures { OnOk result (out.new.items ≡ out.old.items ++ port_member port) }
{
    if is_number(port) {
        return push_number_member(out, b"port", u128::from(port));
    }
    out.push(b',')?;
    push_key(out, b"port")?;
    out.push(b'"')?;
    push_port(out, u128::from(port))?;
    out.push(b'"')?;
    Ok(())
}

// Appends a value of a field, as a string.
#[tactic(auto, unfolding(of_json::specs::Parts::text_member))]
fn push_value_member(out: &mut Vec<u8>, field: Field, value: u128) -> Result<(), AllocError>
    ensures { OnOk result (out.new.items ≡ out.old.items ++ text_member (codes "value") (value_words field value None)) }
{
    out.push(b',')?;
    push_key(out, b"value")?;
    out.push(b'"')?;
    push_value_words(out, field, value, None)?;
    out.push(b'"')?;
    Ok(())
}

// Appends the priority and the match of a flow.
#[tactic(auto, unfolding(crate::specs::Json::flow_members))]
fn push_flow(out: &mut Vec<u8>, flow: &Flow) -> Result<(), AllocError>
    ensures { OnOk result (out.new.items ≡ out.old.items ++ flow_members (Some flow.now)) }
{
    push_number_member(out, b"priority", u128::from(flow.priority))?;
    out.push(b',')?;
    push_key(out, b"match")?;
    push_match_object(out, flow.fields.fields())
}

// Appends the same of an entry, if there is one.
#[tactic(auto, unfolding(crate::specs::Json::flow_members))]
fn push_entry<L: Lookup>(
    out: &mut Vec<u8>,
    switch: &Switch<L>,
    table: u8,
    place: usize,
) -> Result<(), AllocError>
    ensures { OnOk result (out.new.items ≡ out.old.items ++ flow_members (flow_there switch.now.core.forwarding table place)) }
{
    if table >= TABLES {
        return Ok(());
    }
    match switch.datapath().entry(table, place) {
        Some(entry) => push_flow(out, &entry.flow),
        None => Ok(()),
    }
}

#[tactic(auto, unfolding(crate::specs::Json::action_members))]
fn push_action(out: &mut Vec<u8>, action: Action) -> Result<(), AllocError>
    ensures { OnOk result (out.new.items ≡ out.old.items ++ action_members action) }
{
    match action {
        Action::Output { port, max_len } => {
            push_named(out, b"output")?;
            push_port_member(out, port)?;
            push_number_member(out, b"max_len", u128::from(max_len))
        }
        Action::PushVlan(ethertype) => {
            push_named(out, b"push_vlan")?;
            push_hexadecimal_member(out, b"type", 4, u128::from(ethertype))
        }
        Action::PopVlan => push_named(out, b"pop_vlan"),
        Action::Group(group) => push_numbered(out, b"group", b"group", u128::from(group)),
        Action::SetNwTtl(ttl) => push_numbered(out, b"set_nw_ttl", b"ttl", u128::from(ttl)),
        Action::DecNwTtl => push_named(out, b"dec_nw_ttl"),
        Action::SetField { field, value } => {
            push_named(out, b"set")?;
            push_text_member(out, b"field", field.name())?;
            push_value_member(out, field, value)
        }
    }
}

#[tactic(auto, unfolding(crate::specs::Json::step_members))]
fn push_step<L: Lookup>(out: &mut Vec<u8>, switch: &Switch<L>, step: Step) -> Result<(), AllocError>
    ensures { OnOk result (out.new.items ≡ out.old.items ++ step_members switch.now.core.forwarding step) }
{
    match step {
        Step::Miss(table) => push_numbered(out, b"miss", b"table", u128::from(table)),
        Step::Entry { table, number } => {
            push_numbered(out, b"entry", b"table", u128::from(table))?;
            push_number_member(out, b"entry", number as u128)?;
            push_entry(out, switch, table, number)
        }
        Step::Apply => push_named(out, b"apply"),
        Step::Clear => push_named(out, b"clear"),
        Step::Write => push_named(out, b"write"),
        Step::Metadata { value, mask } => {
            push_named(out, b"metadata")?;
            push_hexadecimal_member(out, b"value", 1, u128::from(value))?;
            push_hexadecimal_member(out, b"mask", 1, u128::from(mask))
        }
        Step::Goto(table) => push_numbered(out, b"goto", b"table", u128::from(table)),
        Step::Set => push_named(out, b"action set"),
        Step::Act(action) => push_action(out, action),
        Step::TtlExpired => push_named(out, b"TTL expired"),
        Step::End => push_named(out, b"end"),
    }
}

#[tactic(auto, unfolding(crate::specs::Json::step_object))]
fn push_step_object<L: Lookup>(
    out: &mut Vec<u8>,
    switch: &Switch<L>,
    step: Step,
) -> Result<(), AllocError>
    ensures { OnOk result (out.new.items ≡ out.old.items ++ step_object switch.now.core.forwarding step) }
{
    out.push(b'{')?;
    push_step(out, switch, step)?;
    out.push(b'}')?;
    Ok(())
}

// Appends a further member: an array with an object for each step.
fn push_steps<L: Lookup>(
    out: &mut Vec<u8>,
    switch: &Switch<L>,
    steps: &[Step],
) -> Result<(), AllocError>
    ensures { OnOk result (out.new.items ≡ out.old.items ++ array_member (codes "steps") (listed (step_object switch.now.core.forwarding) steps.now)) }
{
    push_array_member(
        out,
        b"steps",
        steps,
        |out, step| push_step_object(out, switch, *step),
    )
}

// Appends the first member of an effect.
#[tactic(auto, unfolding(crate::specs::Json::effect_named))]
fn push_effect_named(out: &mut Vec<u8>, effect: &[u8]) -> Result<(), AllocError>
    ensures { OnOk result (out.new.items ≡ out.old.items ++ effect_named effect.now) }
{
    push_key(out, b"effect")?;
    push_quoted(out, effect)
}

#[tactic(auto, unfolding(crate::specs::Json::effect_members))]
fn push_effect(alloc: Global, out: &mut Vec<u8>, effect: &Effect) -> Result<(), AllocError>
    ensures { OnOk result (out.new.items ≡ out.old.items ++ effect_members effect.now) }
{
    match effect {
        Effect::Answer(bytes) => {
            push_effect_named(out, b"message")?;
            push_bytes_member(alloc, out, b"message", bytes.as_slice())
        }
        Effect::Sent { port, frame } => {
            push_effect_named(out, b"frame")?;
            push_number_member(out, b"port", u128::from(*port))?;
            push_bytes_member(alloc, out, b"frame", frame.as_slice())
        }
        Effect::Closed => push_effect_named(out, b"closed"),
    }
}

#[tactic(auto, unfolding(crate::specs::Json::effect_object))]
fn push_effect_object(alloc: Global, out: &mut Vec<u8>, effect: &Effect) -> Result<(), AllocError>
    ensures { OnOk result (out.new.items ≡ out.old.items ++ effect_object effect.now) }
{
    out.push(b'{')?;
    push_effect(alloc, out, effect)?;
    out.push(b'}')?;
    Ok(())
}

// Appends a further member: an array with an object for each effect.
fn push_effects(alloc: Global, out: &mut Vec<u8>, effects: &[Effect]) -> Result<(), AllocError>
    ensures { OnOk result (out.new.items ≡ out.old.items ++ array_member (codes "effects") (listed effect_object effects.now)) }
{
    push_array_member(
        out,
        b"effects",
        effects,
        |out, effect| push_effect_object(alloc, out, effect),
    )
}

// Appends the port and the frame.
#[tactic(auto, unfolding(crate::specs::Json::head_members))]
fn push_head(alloc: Global, out: &mut Vec<u8>, port: u32, frame: &[u8]) -> Result<(), AllocError>
    ensures { OnOk result (out.new.items ≡ out.old.items ++ head_members port frame.now) }
{
    push_document_head(out, b"trace")?;
    push_number_member(out, b"in_port", u128::from(port))?;
    push_bytes_member(alloc, out, b"frame", frame)
}

/// The text of a trace as one JSON document in a line: the port and the frame, an object for each step, and one for each effect.
/// `port` and `frame` are those of the trace.
#[tactic(auto, unfolding(crate::specs::Json::trace_json))]
pub fn print_json<L: Lookup>(
    alloc: Global,
    switch: &Switch<L>,
    port: u32,
    frame: &[u8],
    trace: &Trace,
) -> Result<Vec<u8>, AllocError>
    ensures { IfOk result (λ text. text.items ≡ trace_json switch.now.core.forwarding port frame.now trace.now.steps.items trace.now.effects.items) }
{
    let mut out = Vec::new(alloc);
    out.push(b'{')?;
    push_head(alloc, &mut out, port, frame)?;
    push_steps(&mut out, switch, &trace.steps)?;
    push_effects(alloc, &mut out, &trace.effects)?;
    out.extend_from_slice(b"}\n")?;
    Ok(out)
}
