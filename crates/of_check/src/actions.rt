//! Actions without effect.
ghost use Rattle.std.specs.Prelude.{◌≡◌, ◌&&◌, ◌||◌, not, take};
ghost use Rattle.std.specs.List.{list_any};
ghost use Rattle.of_text.specs.{Refusals.some_action, Views.view, Views.view_flows, Views.view_instruction};
ghost use Rattle.of_check.specs.Actions.{is_clear as is_clearing, is_goto as is_going_on, is_in_port as is_ingress_field, is_output_to_port as is_sending_to, may_send_packet as may_be_sent, required_port as ingress_required, silent as silent_count, some_output_to as is_some_output, some_writes_sending, writes_sending as is_writing};

use crate::tables::flows_of;
use of_actions::{Action, is_number};
use of_headers::Field;
use of_oxm::MatchField;
use of_text::{Config, FlowText, InstructionText};

fn is_ingress(field: Field) -> bool
    ensures { result ≡ is_ingress_field field }
{
    matches!(field, Field::InPort)
}

/// The port of the switch that a field of a match requires as ingress port. Reserved ports are no such: an OUTPUT to CONTROLLER is sent from
/// there too (OpenFlow 1.3.5, 4.5).
pub fn required_port(e: &MatchField) -> Option<u32>
    ensures { result ≡ ingress_required e.now }
{
    if !is_ingress(e.field) || e.mask.is_some() {
        return None;
    }
    match u32::try_from(e.value) {
        Ok(port) if is_number(port) => Some(port),
        _ => None,
    }
}

fn is_output_to(action: &Action, port: u32) -> bool
    ensures { result ≡ is_sending_to port action.now }
{
    match action {
        Action::Output { port: to, .. } => *to == port,
        _ => false,
    }
}

fn some_output(actions: &[Action], port: u32) -> bool
    ensures { result ≡ list_any (is_sending_to port) actions.now }
{
    actions.iter().any(|action| is_output_to(action, port))
}

fn outputs_to(instruction: &InstructionText, port: u32) -> bool
    ensures { result ≡ some_action (is_sending_to port) (view_instruction instruction.now) }
{
    match instruction {
        InstructionText::Apply(actions) | InstructionText::Write(actions) => some_output(
            actions, port,
        ),
        InstructionText::Clear | InstructionText::Metadata { .. } | InstructionText::Goto(_) =>
            false,
    }
}

fn some_outputs_to(instructions: &[InstructionText], port: u32) -> bool
    ensures { result ≡ list_any (λ s. some_action (is_sending_to port) (view_instruction s)) instructions.now }
{
    instructions
        .iter()
        .any(|instruction| outputs_to(instruction, port))
}

/// Whether some action of an entry sends to the port.
#[tactic(auto, using(of_text::proofs::RefusalLemmas::mapped_any))]
pub fn some_output_to(flow: &FlowText, port: u32) -> bool
    ensures { result ≡ is_some_output port (view flow.now).instructions }
{
    some_outputs_to(&flow.instructions, port)
}

// Whether the packet may be sent as it is then.
fn may_send(action: &Action) -> bool
    ensures { result ≡ may_be_sent action.now }
{
    matches!(
        action,
        Action::Output { .. } | Action::Group(_) | Action::DecNwTtl
    )
}

/// How many actions follow the last after which the packet may be sent.
pub fn silent(actions: &[Action]) -> usize
    ensures { result ≡ silent_count actions.now }
{
    actions
        .iter()
        .rev()
        .take_while(|action| !may_send(action))
        .count()
}

fn some_may_send(actions: &[Action]) -> bool
    ensures { result ≡ list_any may_be_sent actions.now }
{
    actions.iter().any(|action| may_send(action))
}

fn writes_sending(instruction: &InstructionText) -> bool
    ensures { result ≡ is_writing (view_instruction instruction.now) }
{
    match instruction {
        InstructionText::Write(actions) => some_may_send(actions),
        InstructionText::Apply(_)
        | InstructionText::Clear
        | InstructionText::Metadata { .. }
        | InstructionText::Goto(_) => false,
    }
}

fn some_writes(instructions: &[InstructionText]) -> bool
    ensures { result ≡ list_any (λ s. is_writing (view_instruction s)) instructions.now }
{
    instructions
        .iter()
        .any(|instruction| writes_sending(instruction))
}

#[tactic(auto, using(of_text::proofs::RefusalLemmas::mapped_any))]
fn flow_writes_sending(flow: &FlowText) -> bool
    ensures { result ≡ list_any is_writing (view flow.now).instructions }
{
    some_writes(&flow.instructions)
}

fn any_writes_sending(flows: &[FlowText]) -> bool
    ensures { result ≡ list_any (λ f. list_any is_writing (view f).instructions) flows.now }
{
    flows.iter().any(|flow| flow_writes_sending(flow))
}

#[tactic(auto, using(of_text::proofs::RefusalLemmas::mapped_any))]
fn some_flow_writes(flows: &[FlowText]) -> bool
    ensures { result ≡ some_writes_sending (view_flows flows.now) }
{
    any_writes_sending(flows)
}

/// Whether an entry of a table before this one puts an action into the action set after which the packet may be sent (OpenFlow 1.3.5, 5.10).
pub fn is_written_before(config: &Config, table: u8) -> bool
    ensures { result ≡ list_any some_writes_sending (take table config.now.tables) }
{
    for earlier in 0..table {
        if some_flow_writes(flows_of(config, earlier)) {
            return true;
        }
    }
    false
}

fn is_goto(instruction: &InstructionText) -> bool
    ensures { result ≡ is_going_on (view_instruction instruction.now) }
{
    matches!(instruction, InstructionText::Goto(_))
}

fn is_clear(instruction: &InstructionText) -> bool
    ensures { result ≡ is_clearing (view_instruction instruction.now) }
{
    matches!(instruction, InstructionText::Clear)
}

fn go_on(instructions: &[InstructionText]) -> bool
    ensures { result ≡ list_any (λ s. is_going_on (view_instruction s)) instructions.now }
{
    instructions.iter().any(|instruction| is_goto(instruction))
}

fn clear(instructions: &[InstructionText]) -> bool
    ensures { result ≡ list_any (λ s. is_clearing (view_instruction s)) instructions.now }
{
    instructions.iter().any(|instruction| is_clear(instruction))
}

#[tactic(auto, using(of_text::proofs::RefusalLemmas::mapped_any))]
fn goes_on(flow: &FlowText) -> bool
    ensures { result ≡ list_any is_going_on (view flow.now).instructions }
{
    go_on(&flow.instructions)
}

#[tactic(auto, using(of_text::proofs::RefusalLemmas::mapped_any))]
fn clears(flow: &FlowText) -> bool
    ensures { result ≡ list_any is_clearing (view flow.now).instructions }
{
    clear(&flow.instructions)
}

/// Whether the packet may go on or be sent after the APPLY_ACTIONS of an entry (OpenFlow 1.3.5, 5.9). `written` is the answer of `is_written_before`
/// for its table.
pub fn is_used_later(flow: &FlowText, written: bool) -> bool
    ensures { result ≡ (list_any is_going_on (view flow.now).instructions || (list_any is_writing (view flow.now).instructions ||
        (not (list_any is_clearing (view flow.now).instructions) && written))) }
{
    goes_on(flow) || flow_writes_sending(flow) || !clears(flow) && written
}
