//! Groups that nothing names.
ghost use Rattle.std.specs.{Prelude.◌≡◌, Prelude.◌==◌, Prelude.◌&&◌, Prelude.◌||◌, List.list_any};
ghost use Rattle.of_text.specs.Views.{view, view_flows, view_instruction, view_bucket, view_group, view_groups};
ghost use Rattle.of_text.specs.Refusals.{some_action};
ghost use Rattle.of_check.specs.Groups.{flow_names as is_flow_naming, group_names as is_group_naming, is_named as is_named_in, is_to_group as is_sending_to, is_watching as is_watching_kind, table_names as is_table_naming};

use crate::tables::flows_of;
use of_actions::Action;
use of_groups::GroupKind;
use of_text::{BucketText, Config, FlowText, GroupText, InstructionText};
use of_wire::limits::TABLES;

fn is_to_group(action: &Action, id: u32) -> bool
    ensures { result ≡ is_sending_to id action.now }
{
    match action {
        Action::Group(group) => *group == id,
        _ => false,
    }
}

fn some_to_group(actions: &[Action], id: u32) -> bool
    ensures { result ≡ list_any (is_sending_to id) actions.now }
{
    actions.iter().any(|action| is_to_group(action, id))
}

fn instruction_names(instruction: &InstructionText, id: u32) -> bool
    ensures { result ≡ some_action (is_sending_to id) (view_instruction instruction.now) }
{
    match instruction {
        InstructionText::Apply(actions) | InstructionText::Write(actions) => some_to_group(
            actions, id,
        ),
        InstructionText::Clear | InstructionText::Metadata { .. } | InstructionText::Goto(_) =>
            false,
    }
}

fn instructions_name(instructions: &[InstructionText], id: u32) -> bool
    ensures { result ≡ list_any (λ s. some_action (is_sending_to id) (view_instruction s)) instructions.now }
{
    instructions
        .iter()
        .any(|instruction| instruction_names(instruction, id))
}

#[tactic(auto, using(of_text::proofs::RefusalLemmas::mapped_any))]
fn flow_names(flow: &FlowText, id: u32) -> bool
    ensures { result ≡ is_flow_naming id (view flow.now) }
{
    instructions_name(&flow.instructions, id)
}

fn flows_name(flows: &[FlowText], id: u32) -> bool
    ensures { result ≡ list_any (λ f. is_flow_naming id (view f)) flows.now }
{
    flows.iter().any(|flow| flow_names(flow, id))
}

#[tactic(auto, using(of_text::proofs::RefusalLemmas::mapped_any))]
fn table_names(flows: &[FlowText], id: u32) -> bool
    ensures { result ≡ is_table_naming id (view_flows flows.now) }
{
    flows_name(flows, id)
}

fn is_watching(kind: GroupKind) -> bool
    ensures { result ≡ is_watching_kind kind }
{
    match kind {
        GroupKind::All | GroupKind::Indirect => false,
        GroupKind::FastFailover => true,
    }
}

fn bucket_names(kind: GroupKind, bucket: &BucketText, id: u32) -> bool
    ensures { result ≡ (list_any (is_sending_to id) (view_bucket bucket.now).actions ||
        (is_watching_kind kind && ((view_bucket bucket.now).head.watch_group == id))) }
{
    some_to_group(&bucket.actions, id) || is_watching(kind) && bucket.head.watch_group == id
}

fn buckets_name(kind: GroupKind, buckets: &[BucketText], id: u32) -> bool
    ensures { result ≡ list_any (λ b. list_any (is_sending_to id) (view_bucket b).actions ||
        (is_watching_kind kind && ((view_bucket b).head.watch_group == id))) buckets.now }
{
    buckets.iter().any(|bucket| bucket_names(kind, bucket, id))
}

#[tactic(auto, using(of_text::proofs::RefusalLemmas::mapped_any))]
fn group_names(group: &GroupText, id: u32) -> bool
    ensures { result ≡ is_group_naming id (view_group group.now) }
{
    buckets_name(group.head.kind, &group.buckets, id)
}

fn any_names(groups: &[GroupText], id: u32) -> bool
    ensures { result ≡ list_any (λ g. is_group_naming id (view_group g)) groups.now }
{
    groups.iter().any(|group| group_names(group, id))
}

#[tactic(auto, using(of_text::proofs::RefusalLemmas::mapped_any))]
fn groups_name(groups: &[GroupText], id: u32) -> bool
    ensures { result ≡ list_any (is_group_naming id) (view_groups groups.now) }
{
    any_names(groups, id)
}

#[tactic(auto, using(std::proofs::lemmas::List::take_all))]
fn tables_name(config: &Config, id: u32) -> bool
    ensures { result ≡ list_any (is_table_naming id) config.now.tables }
{
    config.known();
    for table in 0..TABLES {
        if table_names(flows_of(config, table), id) {
            return true;
        }
    }
    false
}

/// Whether some entry or some group names the group: by an action, or as what a bucket watches (OpenFlow 1.3.5, 5.6 and 6.5).
pub fn is_named(config: &Config, id: u32) -> bool
    ensures { result ≡ is_named_in config.now id }
{
    tables_name(config, id) || groups_name(config.groups(), id)
}
