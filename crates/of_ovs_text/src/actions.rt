//! Actions and instructions in the words of `ovs-ofctl` (ovs-actions(7)).
ghost use Rattle.std.specs.{Prelude.◌≡◌, Prelude.◌++◌, Prelude.OnOk, Prelude.map, List.flat_map};
ghost use Rattle.of_text.specs.Views.{view_instruction};
ghost use Rattle.of_ovs_text.specs.Actions.{action_in_words, actions_in_words_of, further_action_in_words, further_instruction_in_words, instruction_in_words, instructions_in_words, metadata_in_words, output_in_words, set_field_in_words, to_port_in_words, write_in_words};

use crate::fields::{keyword_for, push_new_value};
use crate::parts::push_named;
use of_actions::Action;
use of_layers::Field;
use of_text::InstructionText;
use of_values::{push_each, push_hexadecimal, push_port};
use of_wire::limits::OFPP_CONTROLLER;
use std::alloc::AllocError;

fn push_to_port(out: &mut Vec<u8>, port: u32) -> Result<(), AllocError>
    ensures { OnOk result (out.new.items ≡ out.old.items ++ to_port_in_words port) }
{
    out.extend_from_slice(b"output:")?;
    push_port(out, u128::from(port))
}

fn push_output(out: &mut Vec<u8>, port: u32, max_len: u16) -> Result<(), AllocError>
    ensures { OnOk result (out.new.items ≡ out.old.items ++ output_in_words port max_len) }
{
    if port == OFPP_CONTROLLER {
        push_named(out, b"CONTROLLER:", u128::from(max_len))
    } else {
        push_to_port(out, port)
    }
}

#[tactic(auto, unfolding(crate::specs::Actions::set_field_in_words))]
fn push_set_field(out: &mut Vec<u8>, field: Field, value: u128) -> Result<(), AllocError>
    ensures { OnOk result (out.new.items ≡ out.old.items ++ set_field_in_words field value) }
{
    out.extend_from_slice(b"set_field:")?;
    push_new_value(out, field, value)?;
    out.extend_from_slice(b"->")?;
    out.extend_from_slice(keyword_for(field))
}

// Appends an action.
#[tactic(auto, unfolding(crate::specs::Actions::action_in_words))]
fn push_action(out: &mut Vec<u8>, action: Action) -> Result<(), AllocError>
    ensures { OnOk result (out.new.items ≡ out.old.items ++ action_in_words action) }
{
    match action {
        Action::Output { port, max_len } => push_output(out, port, max_len),
        Action::PushVlan(ethertype) => {
            out.extend_from_slice(b"push_vlan:")?;
            push_hexadecimal(out, 4, u128::from(ethertype))
        }
        Action::PopVlan => out.extend_from_slice(b"pop_vlan"),
        Action::Group(group) => push_named(out, b"group:", u128::from(group)),
        Action::SetNwTtl(ttl) => push_named(out, b"mod_nw_ttl:", u128::from(ttl)),
        Action::DecNwTtl => out.extend_from_slice(b"dec_ttl"),
        Action::SetField { field, value } => push_set_field(out, field, value),
    }
}

fn push_further_action(out: &mut Vec<u8>, action: &Action) -> Result<(), AllocError>
    ensures { OnOk result (out.new.items ≡ out.old.items ++ further_action_in_words action.now) }
{
    out.push(b',')?;
    push_action(out, *action)
}

/// Appends a list of actions.
#[tactic(auto, unfolding(crate::specs::Actions::actions_in_words_of))]
pub fn push_actions(out: &mut Vec<u8>, actions: &[Action]) -> Result<(), AllocError>
    ensures { OnOk result (out.new.items ≡ out.old.items ++ actions_in_words_of actions.now) }
{
    match actions {
        [] => out.extend_from_slice(b"drop"),
        [first, others @ ..] => {
            push_action(out, *first)?;
            push_each(out, others, push_further_action)
        }
    }
}

#[tactic(auto, unfolding(crate::specs::Actions::write_in_words))]
fn push_write(out: &mut Vec<u8>, actions: &[Action]) -> Result<(), AllocError>
    ensures { OnOk result (out.new.items ≡ out.old.items ++ write_in_words actions.now) }
{
    out.extend_from_slice(b"write_actions(")?;
    push_actions(out, actions)?;
    out.extend_from_slice(b")")
}

#[tactic(auto, unfolding(crate::specs::Actions::metadata_in_words))]
fn push_metadata(out: &mut Vec<u8>, value: u64, mask: u64) -> Result<(), AllocError>
    ensures { OnOk result (out.new.items ≡ out.old.items ++ metadata_in_words value mask) }
{
    out.extend_from_slice(b"write_metadata:")?;
    push_hexadecimal(out, 1, u128::from(value))?;
    out.extend_from_slice(b"/")?;
    push_hexadecimal(out, 1, u128::from(mask))
}

// Appends an instruction.
#[tactic(auto, unfolding(crate::specs::Actions::instruction_in_words))]
fn push_instruction(out: &mut Vec<u8>, instruction: &InstructionText) -> Result<(), AllocError>
    ensures { OnOk result (out.new.items ≡ out.old.items ++ instruction_in_words (view_instruction instruction.now)) }
{
    match instruction {
        InstructionText::Apply(actions) => push_actions(out, actions),
        InstructionText::Clear => out.extend_from_slice(b"clear_actions"),
        InstructionText::Write(actions) => push_write(out, actions),
        InstructionText::Metadata { value, mask } => push_metadata(out, *value, *mask),
        InstructionText::Goto(table) => push_named(out, b"goto_table:", u128::from(*table)),
    }
}

fn push_further_instructions(
    out: &mut Vec<u8>,
    instructions: &[InstructionText],
) -> Result<(), AllocError>
    ensures { OnOk result (out.new.items ≡ out.old.items ++ flat_map further_instruction_in_words (map view_instruction instructions.now)) }
{
    for instruction in instructions {
        out.push(b',')?;
        push_instruction(out, instruction)?;
    }
    Ok(())
}

/// Appends the instructions of a flow.
#[tactic(auto, unfolding(crate::specs::Actions::instructions_in_words))]
pub fn push_instructions(
    out: &mut Vec<u8>,
    instructions: &[InstructionText],
) -> Result<(), AllocError>
    ensures { OnOk result (out.new.items ≡ out.old.items ++ instructions_in_words (map view_instruction instructions.now)) }
{
    match instructions {
        [] => out.extend_from_slice(b"drop"),
        [first, others @ ..] => {
            push_instruction(out, first)?;
            push_further_instructions(out, others)
        }
    }
}
