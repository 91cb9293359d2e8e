//! The flow of its words.
ghost use Rattle.std.specs.Prelude.{◌≡◌, ◌++◌, ◌&&◌, None, IfOk, OnOk, map, IfSome, [], ◌<◌, ◌^◌};
ghost use Rattle.std.specs.{List.list_all, Option.option_map};
ghost use Rattle.of_ovs_lines.specs.Finished.{action_fits as action_fits_so, field_fits as field_fits_so, first_unmet as first_unmet_of, finished_flow, goto_instruction, metadata_instruction, refusal_of as refusal_in, instructions_of, when, why_missing as why_missing_so};
ghost use Rattle.of_ovs_lines.specs.{PartialFlowViews.view_partial_flow, PartialFlowViews.view_word_fault, Sound.IsSoundFlow};
ghost use Rattle.of_ovs_words.specs.Matches.{fields_of_settings as fields_in};
ghost use Rattle.of_text.specs.{Rows.HeadFits, Views.view, Views.view_instruction};

use crate::partial_flow::PartialFlow;
use crate::word_fault::WordFault;
use of_actions::{Action, Argument};
use of_layers::Prerequisite;
use of_ovs_words::{Why, text_for};
use of_oxm::{MatchField, is_met};
use of_text::{FlowHead, FlowText, InstructionText};
use std::alloc::{AllocError, Global};

fn push_when(
    instructions: &mut Vec<InstructionText>,
    wanted: bool,
    instruction: InstructionText,
) -> Result<(), AllocError>
    ensures { OnOk result (map view_instruction instructions.new.items ≡
        map view_instruction instructions.old.items ++ when wanted (view_instruction instruction)) }
{
    if wanted {
        instructions.push(instruction)?;
    }
    Ok(())
}

fn push_metadata(
    instructions: &mut Vec<InstructionText>,
    metadata: Option<(u64, u64)>,
) -> Result<(), AllocError>
    ensures { OnOk result (map view_instruction instructions.new.items ≡ map view_instruction instructions.old.items ++ metadata_instruction metadata) }
{
    if let Some((value, mask)) = metadata {
        instructions.push(InstructionText::Metadata { value, mask })?;
    }
    Ok(())
}

fn push_goto(instructions: &mut Vec<InstructionText>, goto: Option<u8>) -> Result<(), AllocError>
    ensures { OnOk result (map view_instruction instructions.new.items ≡ map view_instruction instructions.old.items ++ goto_instruction goto) }
{
    if let Some(table) = goto {
        instructions.push(InstructionText::Goto(table))?;
    }
    Ok(())
}

/// Takes the actions out.
pub fn take_actions(actions: &mut Vec<Action>) -> Vec<Action>
    ensures taken { result.items ≡ actions.old.items }
    ensures none { actions.new.items ≡ [] }
{
    let none = Vec::new(*actions.allocator());
    std::mem::replace(actions, none)
}

// Appends the instructions, in execution order, and takes their actions out of the flow.
fn push_instructions(
    instructions: &mut Vec<InstructionText>,
    partial: &mut PartialFlow,
) -> Result<(), AllocError>
    ensures instructions { OnOk result (map view_instruction instructions.new.items ≡
        map view_instruction instructions.old.items ++ instructions_of (view_partial_flow partial.old)) }
    ensures left { partial.new.left ≡ partial.old.left }
    ensures resubmits { partial.new.resubmits ≡ partial.old.resubmits }
    ensures counters { partial.new.counters ≡ partial.old.counters }
{
    let applies = !partial.apply.is_empty();
    push_when(
        instructions,
        applies,
        InstructionText::Apply(take_actions(&mut partial.apply)),
    )?;
    push_when(instructions, partial.clears, InstructionText::Clear)?;
    push_when(
        instructions,
        partial.writes,
        InstructionText::Write(take_actions(&mut partial.write)),
    )?;
    push_metadata(instructions, partial.metadata)?;
    push_goto(instructions, partial.goto)
}

fn instructions_from(
    alloc: Global,
    partial: &mut PartialFlow,
) -> Result<Vec<InstructionText>, AllocError>
    ensures instructions { IfOk result (λ instructions. map view_instruction instructions.items ≡ instructions_of (view_partial_flow partial.old)) }
    ensures left { partial.new.left ≡ partial.old.left }
    ensures resubmits { partial.new.resubmits ≡ partial.old.resubmits }
    ensures counters { partial.new.counters ≡ partial.old.counters }
{
    let mut instructions = Vec::new(alloc);
    push_instructions(&mut instructions, partial)?;
    Ok(instructions)
}

fn field_fits(e: MatchField) -> bool
    ensures { result ≡ field_fits_so e }
{
    let ones = e.field.row().ones;
    e.value <= ones
        && match e.mask {
            Some(mask) => 0 < mask && mask < ones,
            None => true,
        }
}

fn fields_fit(fields: &[MatchField]) -> bool
    ensures { result ≡ list_all field_fits_so fields.now }
{
    fields.iter().all(|e| field_fits(*e))
}

fn action_fits(action: Action) -> bool
    ensures { result ≡ action_fits_so action }
{
    let (_, argument) = action.said();
    match argument {
        Argument::Nothing => true,
        Argument::Byte(number) => number <= u8::MAX,
        Argument::Tag(ethertype) => ethertype <= u16::MAX,
        Argument::Word(number) => number <= u32::MAX,
        Argument::Port { port, max_len } => port <= u32::MAX && max_len <= u16::MAX,
        Argument::Field { field, value } => value <= field.row().ones,
    }
}

pub fn actions_fit(actions: &[Action]) -> bool
    ensures { result ≡ list_all action_fits_so actions.now }
{
    actions.iter().all(|action| action_fits(*action))
}

fn numbers_fit(fields: &[MatchField], partial: &PartialFlow) -> bool
    ensures { result ≡ (list_all field_fits_so fields.now && list_all action_fits_so partial.now.apply.items &&
        list_all action_fits_so partial.now.write.items) }
{
    fields_fit(fields) && actions_fit(&partial.apply) && actions_fit(&partial.write)
}

// What the type of the head says of its numbers.
fn known_head(head: FlowHead)
    ensures { HeadFits head }
{
    let _table = head.table;
}

fn known_metadata(metadata: Option<(u64, u64)>)
    ensures { IfSome metadata (λ m. (m.0 < 2 ^ 64) × (m.1 < 2 ^ 64)) }
{
    if let Some((_value, _mask)) = metadata {}
}

fn known_goto(goto: Option<u8>)
    ensures { IfSome goto (λ table. table < 2 ^ 8) }
{
    if let Some(_table) = goto {}
}

fn why_missing(need: Prerequisite) -> Why
    ensures { result ≡ why_missing_so need }
{
    match need {
        Prerequisite::Tag => Why::NeedsTag,
        Prerequisite::Ip => Why::NeedsIp,
        Prerequisite::Ipv4 => Why::NeedsIpv4,
        Prerequisite::Ipv6 => Why::NeedsIpv6,
        Prerequisite::Arp => Why::NeedsArp,
        Prerequisite::Tcp => Why::NeedsTcp,
        Prerequisite::Udp => Why::NeedsUdp,
        Prerequisite::Icmpv4 => Why::NeedsIcmp,
        Prerequisite::Icmpv6 => Why::NeedsIcmp6,
        Prerequisite::Nothing => Why::Unknown,
    }
}

// The first field whose prerequisite is not in the match.
fn first_unmet(fields: &[MatchField]) -> Option<MatchField>
    ensures { result ≡ first_unmet_of fields.now }
{
    fields
        .iter()
        .copied()
        .find(|e| !is_met(fields, e.field.row().need))
}

/// Why the words are no flow, if none of them is refused.
#[tactic(auto, unfolding(crate::specs::Finished::refusal_of))]
pub fn refusal_of(
    alloc: Global,
    fields: &[MatchField],
    partial: &PartialFlow,
) -> Result<Option<WordFault>, AllocError>
    requires { fields.now ≡ fields_in partial.now.settings.items }
    ensures { IfOk result (λ r. option_map view_word_fault r ≡ refusal_in (view_partial_flow partial.now)) }
{
    if !partial.in_actions {
        return Ok(Some(WordFault {
            word: b"actions".to_vec(alloc)?,
            why: Why::Missing,
        }));
    }
    if !numbers_fit(fields, partial) {
        return Ok(Some(WordFault {
            word: b"actions".to_vec(alloc)?,
            why: Why::Value,
        }));
    }
    match first_unmet(fields) {
        Some(e) => Ok(Some(WordFault {
            word: text_for(e.field).to_vec(alloc)?,
            why: why_missing(e.field.row().need),
        })),
        None => Ok(None),
    }
}

/// The flow that the words say, of which none is refused.
pub fn flow_from(
    alloc: Global,
    fields: Vec<MatchField>,
    partial: &mut PartialFlow,
) -> Result<FlowText, AllocError>
    requires fields { fields.items ≡ fields_in partial.old.settings.items }
    requires whole { refusal_in (view_partial_flow partial.old) ≡ None }
    ensures flow { IfOk result (λ flow. view flow ≡ finished_flow (view_partial_flow partial.old)) }
    ensures sound { IfOk result (λ flow. IsSoundFlow (view flow)) }
    ensures left { partial.new.left ≡ partial.old.left }
    ensures resubmits { partial.new.resubmits ≡ partial.old.resubmits }
    ensures counters { partial.new.counters ≡ partial.old.counters }
{
    known_head(partial.head);
    known_metadata(partial.metadata);
    known_goto(partial.goto);
    Ok(FlowText {
        head: partial.head,
        fields,
        instructions: instructions_from(alloc, partial)?,
    })
}
