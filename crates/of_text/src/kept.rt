//! Groups, flows and configurations of text, from those that a switch keeps.
ghost use Rattle.std.specs.Prelude.{◌≡◌, ◌<◌, ◌^◌, true, false, IsTrue, IfOk, map};
ghost use Rattle.std.specs.List.{AllByRecursion, flat_map};
ghost use Rattle.of_actions.specs.{InstructionLists.are_kept, Supported.are_supported};
ghost use Rattle.of_groups.specs.Buckets.{are_fit};
ghost use Rattle.of_text.specs.{Configs.Configuration, Configs.IsConfig, Configs.view_config, Groups.bucket_rows, Groups.bucket_text as text_of_bucket, Groups.group_rows, Groups.group_text};
ghost use Rattle.of_text.specs.{Kept.IsKeptFlow, KeptConfigs.IsKeptConfig, Views.view, Views.view_bucket, Views.view_group, Views.view_instruction};
ghost use Rattle.of_lines.specs.Rows.{BucketFits, Fits};

use crate::config::Config;
use crate::flow::{FlowText, InstructionText};
use crate::group::{BucketText, GroupText};
use of_actions::{Action, ActionList, Instruction, InstructionList};
use of_groups::{Bucket, Group, GroupKind};
use of_lines::{BucketHead, FlowHead, GroupHead};
use of_oxm::{Match, MatchField};
use std::alloc::{AllocError, Global};

fn actions_of(alloc: Global, list: &ActionList) -> Result<Vec<Action>, AllocError>
    ensures { IfOk result (λ actions. actions.items ≡ list.now) }
{
    let mut actions = Vec::new(alloc);
    actions.extend_from_slice(list.as_slice())?;
    Ok(actions)
}

fn bucket_head(weight: u16, watch_port: u32, watch_group: u32) -> BucketHead
    ensures head { result ≡ record { weight = weight; watch_port = watch_port; watch_group = watch_group } }
    ensures fits { BucketFits result }
{
    BucketHead {
        weight,
        watch_port,
        watch_group,
    }
}

fn bucket_text(alloc: Global, bucket: &Bucket) -> Result<BucketText, AllocError>
    requires { are_supported false bucket.now.actions ≡ true }
    ensures text { IfOk result (λ b. view_bucket b ≡ text_of_bucket bucket.now) }
    ensures fits { IfOk result (λ b. AllByRecursion Fits (bucket_rows (view_bucket b))) }
{
    Ok(BucketText {
        head: bucket_head(bucket.weight, bucket.watch_port, bucket.watch_group),
        actions: actions_of(alloc, &bucket.actions)?,
    })
}

fn buckets_text(alloc: Global, buckets: &[Bucket]) -> Result<Vec<BucketText>, AllocError>
    requires { IsTrue (are_fit buckets.now) }
    ensures text { IfOk result (λ made. map view_bucket made.items ≡ map text_of_bucket buckets.now) }
    ensures fits { IfOk result (λ made. AllByRecursion Fits (flat_map bucket_rows (map view_bucket made.items))) }
{
    let mut made = Vec::new(alloc);
    for bucket in buckets {
        made.push(bucket_text(alloc, bucket)?)?;
    }
    Ok(made)
}

fn group_head(id: u32, kind: GroupKind) -> GroupHead
    ensures head { result ≡ record { id = id; kind = kind } }
    ensures fits { result.id < 2 ^ 32 }
{
    GroupHead { id, kind }
}

impl GroupText {
    /// A group of a switch, without its counters and its time.
    pub fn of(alloc: Global, group: &Group) -> Result<GroupText, AllocError>
        ensures text { IfOk result (λ g. view_group g ≡ group_text group.now) }
        ensures fits { IfOk result (λ g. AllByRecursion Fits (group_rows (view_group g))) }
    {
        Ok(GroupText {
            head: group_head(group.id, group.kind),
            buckets: buckets_text(alloc, group.buckets.as_slice())?,
        })
    }
}

fn fields_of(alloc: Global, fields: &Match) -> Result<Vec<MatchField>, AllocError>
    ensures { IfOk result (λ copy. copy.items ≡ fields.now) }
{
    let mut copy = Vec::new(alloc);
    copy.extend_from_slice(fields.fields())?;
    Ok(copy)
}

fn instruction_text(alloc: Global, instruction: &Instruction) -> Result<InstructionText, AllocError>
    ensures { IfOk result (λ text. view_instruction text ≡ instruction.now) }
{
    match instruction {
        Instruction::Apply(actions) => Ok(InstructionText::Apply(actions_of(alloc, actions)?)),
        Instruction::Clear => Ok(InstructionText::Clear),
        Instruction::Write(actions) => Ok(InstructionText::Write(actions_of(alloc, actions)?)),
        Instruction::Metadata { value, mask } => Ok(InstructionText::Metadata {
            value: *value,
            mask: *mask,
        }),
        Instruction::Goto(table) => Ok(InstructionText::Goto(*table)),
    }
}

fn instructions_text(
    alloc: Global,
    instructions: &[Instruction],
) -> Result<Vec<InstructionText>, AllocError>
    ensures { IfOk result (λ texts. map view_instruction texts.items ≡ instructions.now) }
{
    let mut texts = Vec::new(alloc);
    for instruction in instructions {
        texts.push(instruction_text(alloc, instruction)?)?;
    }
    Ok(texts)
}

impl FlowText {
    /// A flow of these numbers, with a match and instructions as a table keeps them.
    pub fn of(
        alloc: Global,
        head: FlowHead,
        fields: &Match,
        instructions: &InstructionList,
    ) -> Result<FlowText, AllocError>
        ensures text { IfOk result (λ flow. view flow ≡ record { head = head; fields = fields.now; instructions = instructions.now }) }
        ensures kept { IfOk result (λ _. IsKeptFlow (record { head = head; fields = fields.now; instructions = instructions.now })) }
    {
        fields.known();
        Ok(FlowText {
            head,
            fields: fields_of(alloc, fields)?,
            instructions: instructions_text(alloc, instructions.as_slice())?,
        })
    }
}

impl Config {
    /// The configuration of groups and flow tables as a switch keeps them.
    pub fn of(groups: Vec<GroupText>, tables: Vec<Vec<FlowText>>) -> Config
        requires { IsKeptConfig (view_config groups tables) }
        ensures { result ≡ view_config groups tables }
    {
        Config { groups, tables }
    }
}

/// What a switch keeps is refused for nothing: its groups and flow tables are a configuration.
pub fn kept_is_config()
    ensures { (c : Configuration) → IsKeptConfig c → IsConfig c }
{}
