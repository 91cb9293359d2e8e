//! Traces for people.
ghost use Rattle.std.specs.Prelude.{◌≡◌, ◌<◌, ◌++◌, IfOk, OnOk, Some, IsTrue};
ghost use Rattle.std.specs.List.{AllByRecursion};
ghost use Rattle.of_oxm.specs.NormalForm.{IsKept};
ghost use Rattle.of_text.specs.{Rows.Fits, Rows.row_encoding, Lines.note};
ghost use Rattle.of_headers.specs.FieldMap.{value};
ghost use Rattle.of_datapath.specs.Datapath.{world_of};
ghost use Rattle.of_table.specs.Tables.{table_at};
ghost use Rattle.of_tracing.specs.Encoded.{are_encoded, is_encoded};
ghost use Rattle.of_trace.specs.Notes.{step_changes, text_of_effects, entry_notes, explained_trace, explained_from, first_notes, found_notes, head_in, heading_in, is_unsent as is_unsent_by, step_line_in, look_notes, match_notes, miss_notes, notes as notes_of, bucket_notes, sending_notes, sends_packet as is_sending, set_notes, table_notes, unsent_note};
ghost use Rattle.of_trace.specs.{Sights.key_seen, Sights.sight_after, Sights.stepped, Words.flow_there};

use crate::fields::{push_changes, push_seen, push_ttl_change};
use crate::form::{Asked, Style};
use crate::notes::push_number_note;
use crate::packets::{Packets, enter, put_back};
use crate::printing::push_step;
use crate::reasons::push_reasons;
use crate::sight::Sight;
use crate::unsent::{Unsent, push_unsent, why_unsent};
use crate::words::{push_heading, push_leaving, push_step_words};
use of_actions::Action;
use of_classifier::Lookup;
use of_headers::FieldKey;
use of_machine::Step;
use of_oxm::MatchField;
use of_replay::push_effects;
use of_switch::{Effect, Switch};
use of_table::Flow;
use of_text::{FlowHead, Row, begin_note, end_note, push_note, push_row};
use of_tracing::Trace;
use of_values::push_each;
use of_wire::limits::TABLES;
use std::alloc::{AllocError, Global};

// Appends a line of flow text as a note.
fn push_row_note(out: &mut Vec<u8>, row: Row) -> Result<(), AllocError>
    requires { Fits row }
    ensures { OnOk result (out.new.items ≡ out.old.items ++ note (row_encoding row)) }
{
    begin_note(out)?;
    push_row(out, row)?;
    end_note(out)
}

fn head_of(table: u8, flow: &Flow) -> FlowHead
    ensures { result ≡ head_in table flow.now }
{
    FlowHead {
        table,
        priority: flow.priority,
        cookie: flow.cookie,
        idle: flow.idle_timeout,
        hard: flow.hard_timeout,
        flags: flow.flags.number(),
    }
}

// Appends the lines of a match.
fn push_match_notes(out: &mut Vec<u8>, fields: &[MatchField]) -> Result<(), AllocError>
    requires { AllByRecursion IsKept fields.now }
    ensures { OnOk result (out.new.items ≡ out.old.items ++ match_notes fields.now) }
{
    for field in fields {
        push_row_note(out, Row::Match(*field))?;
    }
    Ok(())
}

// Appends the lines of an entry's flow, without its instructions.
fn push_flow_notes(out: &mut Vec<u8>, table: u8, flow: &Flow) -> Result<(), AllocError>
    ensures { OnOk result (out.new.items ≡ out.old.items ++ entry_notes table (Some flow.now)) }
{
    flow.fields.known();
    push_row_note(out, Row::Flow(head_of(table, flow)))?;
    push_match_notes(out, flow.fields.fields())
}

// Appends what the entry at that place is.
fn push_found_notes<L: Lookup>(
    out: &mut Vec<u8>,
    switch: &Switch<L>,
    table: u8,
    place: usize,
) -> Result<(), AllocError>
    ensures { OnOk result (out.new.items ≡ out.old.items ++ entry_notes table (flow_there switch.now.core.forwarding table place)) }
{
    if table >= TABLES {
        return Ok(());
    }
    match switch.datapath().entry(table, place) {
        Some(entry) => push_flow_notes(out, table, &entry.flow),
        None => Ok(()),
    }
}

// The same, if its line does not say it.
fn push_entry_notes<L: Lookup>(
    out: &mut Vec<u8>,
    style: Style,
    switch: &Switch<L>,
    table: u8,
    place: usize,
) -> Result<(), AllocError>
    ensures { OnOk result (out.new.items ≡ out.old.items ++ found_notes style table (flow_there switch.now.core.forwarding table place)) }
{
    match style {
        Style::Lines => push_found_notes(out, switch, table, place),
        Style::Words => Ok(()),
    }
}

// Appends what a table sees of a packet, and why its entries won or did not.
fn push_table_notes<L: Lookup>(
    out: &mut Vec<u8>,
    style: Style,
    switch: &Switch<L>,
    asked: Asked,
    table: u8,
    key: &FieldKey,
) -> Result<(), AllocError>
    requires { table < 16 }
    ensures { OnOk result (out.new.items ≡ out.old.items
        ++ table_notes style asked table (value key.now) (table_at table switch.now.core.forwarding.tables).flows) }
{
    push_seen(out, style, switch, table, key)?;
    push_reasons(out, style, switch, table, key, asked)
}

// The same for one of the sixteen tables.
fn push_look_notes<L: Lookup>(
    out: &mut Vec<u8>,
    style: Style,
    switch: &Switch<L>,
    asked: Asked,
    table: u8,
    sight: &Sight,
) -> Result<(), AllocError>
    ensures { OnOk result (out.new.items ≡ out.old.items ++ look_notes style switch.now.core.forwarding asked table (key_seen sight.now)) }
{
    if table >= TABLES {
        return Ok(());
    }
    push_table_notes(out, style, switch, asked, table, &sight.key())
}

// Appends the fields that a step changed.
fn push_changed(
    out: &mut Vec<u8>,
    style: Style,
    step: Step,
    sight: &Sight,
    after: &Sight,
) -> Result<(), AllocError>
    requires { after.now ≡ sight_after step sight.now }
    ensures { OnOk result (out.new.items ≡ out.old.items ++ step_changes style step sight.now) }
{
    push_changes(out, style, &sight.key(), &after.key())?;
    push_ttl_change(out, sight.ttl(), after.ttl())
}

// Appends why nothing is sent, if its line does not say it.
fn push_unsent_note(out: &mut Vec<u8>, style: Style, why: Option<Unsent>) -> Result<(), AllocError>
    ensures { OnOk result (out.new.items ≡ out.old.items ++ unsent_note style why) }
{
    match (style, why) {
        (Style::Lines, Some(why)) => {
            begin_note(out)?;
            push_unsent(out, why)?;
            end_note(out)
        }
        (Style::Words, _) | (_, None) => Ok(()),
    }
}

fn push_buckets(out: &mut Vec<u8>, places: &[u8]) -> Result<(), AllocError>
    ensures { OnOk result (out.new.items ≡ out.old.items ++ bucket_notes places.now) }
{
    push_each(out, places, |out, place| {
        push_number_note(out, b"bucket", u32::from(*place))
    })
}

// Appends where an output or a group sends a packet.
fn push_sending_notes<L: Lookup>(
    out: &mut Vec<u8>,
    style: Style,
    switch: &Switch<L>,
    action: Action,
    sight: &Sight,
) -> Result<(), AllocError>
    ensures { OnOk result (out.new.items ≡ out.old.items ++ sending_notes style switch.now.core.forwarding sight.now action) }
{
    push_unsent_note(out, style, why_unsent(switch, sight.ingress, action))?;
    let Action::Group(group) = action else {
        return Ok(());
    };
    match switch.datapath().buckets_for(group) {
        Some(places) => push_buckets(out, places.as_slice()),
        None => Ok(()),
    }
}

// Appends that no entry matches, if its line does not say it.
fn push_miss_note(out: &mut Vec<u8>, style: Style, table: u8) -> Result<(), AllocError>
    ensures { OnOk result (out.new.items ≡ out.old.items ++ miss_notes style table) }
{
    match style {
        Style::Lines => push_number_note(out, b"no entry matches in table", u32::from(table)),
        Style::Words => Ok(()),
    }
}

// Appends the notes of a step of a packet; `after` is the packet after it.
fn push_notes<L: Lookup>(
    out: &mut Vec<u8>,
    style: Style,
    switch: &Switch<L>,
    asked: Asked,
    sight: &Sight,
    step: Step,
    after: &Sight,
) -> Result<(), AllocError>
    requires { after.now ≡ sight_after step sight.now }
    ensures { OnOk result (out.new.items ≡ out.old.items ++ notes_of style switch.now.core.forwarding asked sight.now step) }
{
    match step {
        Step::Miss(table) => {
            push_miss_note(out, style, table)?;
            push_look_notes(out, style, switch, asked, table, sight)
        }
        Step::Entry { table, number } => {
            push_entry_notes(out, style, switch, table, number)?;
            push_look_notes(out, style, switch, asked, table, sight)
        }
        Step::Metadata { .. } => push_changed(out, style, step, sight, after),
        Step::Act(action) => {
            push_sending_notes(out, style, switch, action, sight)?;
            push_changed(out, style, step, sight, after)
        }
        Step::TtlExpired => push_note(out, b"its work ends here"),
        Step::Apply | Step::Clear | Step::Write | Step::Goto(_) | Step::Set | Step::End => Ok(()),
    }
}

// Appends the notes of a step, which the first packet takes.
fn push_step_notes<L: Lookup>(
    alloc: Global,
    out: &mut Vec<u8>,
    style: Style,
    switch: &Switch<L>,
    asked: Asked,
    packets: &mut Packets,
    step: Step,
) -> Result<(), AllocError>
    requires { IsTrue (is_encoded step) }
    ensures text { OnOk result (out.new.items ≡ out.old.items ++ first_notes style switch.now.core.forwarding asked packets.old.items step) }
    ensures packets { OnOk result (packets.new.items ≡ stepped (world_of switch.now.core.forwarding) step packets.old.items) }
{
    let Some(sight) = packets.pop_front() else {
        return Ok(());
    };
    let after = sight.after(alloc, step)?;
    push_notes(out, style, switch, asked, &sight, step, &after)?;
    put_back(alloc, packets, switch, &sight, step, after)
}

// Whether an action sends the packet, or copies of it.
fn sends(action: Action) -> bool
    ensures { result ≡ is_sending action }
{
    matches!(action, Action::Output { .. } | Action::Group(_))
}

// Whether these steps end a packet before any of its actions sends it.
fn is_unsent(steps: &[Step]) -> bool
    ensures { result ≡ is_unsent_by steps.now }
{
    let mut rest = steps;
    while let [step, behind @ ..] = rest {
        match step {
            Step::Act(action) if !sends(*action) => rest = behind,
            Step::End => return true,
            _ => return false,
        }
    }
    false
}

// Appends that the action set which runs now has no output.
fn push_set_note(out: &mut Vec<u8>, step: Step, behind: &[Step]) -> Result<(), AllocError>
    ensures { OnOk result (out.new.items ≡ out.old.items ++ set_notes step behind.now) }
{
    if matches!(step, Step::Set) && is_unsent(behind) {
        return push_note(out, b"the action set has no output");
    }
    Ok(())
}

// Appends a step, without the end of its line.
fn push_line<L: Lookup>(
    out: &mut Vec<u8>,
    style: Style,
    switch: &Switch<L>,
    port: u32,
    step: Step,
) -> Result<(), AllocError>
    requires { IsTrue (is_encoded step) }
    ensures { OnOk result (out.new.items ≡ out.old.items ++ step_line_in style switch.now.core.forwarding port step) }
{
    match style {
        Style::Lines => push_step(out, step),
        Style::Words => push_step_words(out, switch, port, step),
    }
}

// Appends the lines of steps, with notes.
fn push_explained<L: Lookup>(
    alloc: Global,
    out: &mut Vec<u8>,
    style: Style,
    switch: &Switch<L>,
    asked: Asked,
    port: u32,
    packets: Packets,
    steps: &[Step],
) -> Result<(), AllocError>
    requires { IsTrue (are_encoded steps.now) }
    ensures { OnOk result (out.new.items ≡ out.old.items ++ explained_from style switch.now.core.forwarding asked port packets.items steps.now) }
{
    let mut packets = packets;
    let mut rest = steps;
    while let [step, behind @ ..] = rest {
        push_line(out, style, switch, port, *step)?;
        out.push(b'\n')?;
        push_step_notes(alloc, out, style, switch, asked, &mut packets, *step)?;
        push_set_note(out, *step, behind)?;
        rest = behind;
    }
    Ok(())
}

// Appends the frame, if the trace begins with it.
fn push_beginning<L: Lookup>(
    alloc: Global,
    out: &mut Vec<u8>,
    style: Style,
    switch: &Switch<L>,
    port: u32,
    frame: &[u8],
) -> Result<(), AllocError>
    ensures { OnOk result (out.new.items ≡ out.old.items ++ heading_in style switch.now.core.forwarding port frame.now) }
{
    match style {
        Style::Lines => Ok(()),
        Style::Words => push_heading(alloc, out, switch, port, frame),
    }
}

// Appends what leaves.
fn push_end(
    alloc: Global,
    out: &mut Vec<u8>,
    style: Style,
    effects: &[Effect],
) -> Result<(), AllocError>
    ensures { OnOk result (out.new.items ≡ out.old.items ++ text_of_effects style effects.now) }
{
    match style {
        Style::Lines => push_effects(alloc, out, effects),
        Style::Words => push_leaving(alloc, out, effects),
    }
}

/// The text of a trace with notes, each on a line of its own after four spaces. Without them it is the text that `print` or
/// `print_words` gives.
///
/// Below a lookup come, in the style of lines, the winning entry's `flow` line and `match` lines, as flow text writes them, or that no entry matches;
/// each field that the match of some entry of the table has, as the packet has it; and why entries won or did not, as far as it
/// is asked. Below an action come the fields that it changed and the TTL, why an output sends nothing, or which buckets
/// of a group run; below the action set, that it has no output.
/// `port` and `frame` are those of the trace.
pub fn explain<L: Lookup>(
    alloc: Global,
    switch: &Switch<L>,
    style: Style,
    asked: Asked,
    port: u32,
    frame: &[u8],
    trace: &Trace,
) -> Result<Vec<u8>, AllocError>
    ensures { IfOk result (λ text. text.items ≡
        explained_trace style switch.now.core.forwarding asked port frame.now trace.now.steps.items trace.now.effects.items) }
{
    let mut out = Vec::new(alloc);
    push_beginning(alloc, &mut out, style, switch, port, frame)?;
    let packets = enter(alloc, port, frame)?;
    push_explained(
        alloc,
        &mut out,
        style,
        switch,
        asked,
        port,
        packets,
        &trace.steps,
    )?;
    push_end(alloc, &mut out, style, &trace.effects)?;
    Ok(out)
}
