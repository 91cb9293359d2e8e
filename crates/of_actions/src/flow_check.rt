//! Whether the set-field actions of a flow have their prerequisites in its match.
ghost use Rattle.std.specs.Prelude.{◌≡◌, true, false, OnOk, IfErr};
ghost use Rattle.std.specs.List.{list_all};
ghost use Rattle.of_actions.specs.FlowCheck.{is_prerequisite_met as need_is_met, are_needs_met as needs_are_met, has_prerequisites_met as instruction_goes_with, all_go_with};

use crate::action::Action;
use crate::instruction::Instruction;
use of_oxm::{Match, MatchField, is_met};
use of_wire::Code;
use of_wire::codes::OFPBAC_MATCH_INCONSISTENT;

fn is_prerequisite_met(fields: &[MatchField], action: Action) -> bool
    ensures { result ≡ need_is_met fields.now action }
{
    match action {
        Action::SetField { field, .. } => {
            let row = field.row();
            row.number < 8 || is_met(fields, row.need)
        }
        _ => true,
    }
}

/// Whether the prerequisites of the set-field actions are in the match. Fields of Ethernet and of the VLAN tag are not checked.
pub fn are_needs_met(fields: &[MatchField], actions: &[Action]) -> bool
    ensures { result ≡ needs_are_met fields.now actions.now }
{
    actions
        .iter()
        .all(|action| is_prerequisite_met(fields, *action))
}

fn goes_with(fields: &[MatchField], instruction: &Instruction) -> bool
    ensures { result ≡ instruction_goes_with fields.now instruction.now }
{
    match instruction {
        Instruction::Apply(actions) | Instruction::Write(actions) => {
            are_needs_met(fields, actions.as_slice())
        }
        _ => true,
    }
}

fn all_go(fields: &[MatchField], instructions: &[Instruction]) -> bool
    ensures { result ≡ list_all (instruction_goes_with fields.now) instructions.now }
{
    instructions
        .iter()
        .all(|instruction| goes_with(fields, instruction))
}

/// Refuses instructions with a set-field action whose prerequisites are not in the match: OFPBAC_MATCH_INCONSISTENT
/// (OpenFlow 1.3.5, 5.12, 7.2.3.6 and 7.4.4). Fields of Ethernet and of the VLAN tag are not checked.
pub fn check_flow(fields: &Match, instructions: &[Instruction]) -> Result<(), Code>
    ensures ok { OnOk result (all_go_with fields.now instructions.now ≡ true) }
    ensures err { IfErr result (λ code. (code ≡ OFPBAC_MATCH_INCONSISTENT) × (all_go_with fields.now instructions.now ≡ false)) }
{
    if all_go(fields.fields(), instructions) {
        Ok(())
    } else {
        Err(OFPBAC_MATCH_INCONSISTENT)
    }
}
