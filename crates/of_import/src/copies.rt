//! Copies of groups and flows.
ghost use Rattle.std.specs.Prelude.{◌≡◌, map, IfOk};
ghost use Rattle.of_text.specs.Views.{view, view_bucket, view_group, view_instruction};

use of_actions::Action;
use of_oxm::MatchField;
use of_text::{BucketText, FlowText, GroupText, InstructionText};
use std::alloc::{AllocError, Global};

fn copy_actions(alloc: Global, actions: &[Action]) -> Result<Vec<Action>, AllocError>
    ensures { IfOk result (λ copy. copy.items ≡ actions.now) }
{
    let mut copy = Vec::new(alloc);
    copy.extend_from_slice(actions)?;
    Ok(copy)
}

fn copy_fields(alloc: Global, fields: &[MatchField]) -> Result<Vec<MatchField>, AllocError>
    ensures { IfOk result (λ copy. copy.items ≡ fields.now) }
{
    let mut copy = Vec::new(alloc);
    copy.extend_from_slice(fields)?;
    Ok(copy)
}

fn copy_instruction(
    alloc: Global,
    instruction: &InstructionText,
) -> Result<InstructionText, AllocError>
    ensures { IfOk result (λ copy. view_instruction copy ≡ view_instruction instruction.now) }
{
    match instruction {
        InstructionText::Apply(actions) => Ok(InstructionText::Apply(copy_actions(
            alloc, actions,
        )?)),
        InstructionText::Clear => Ok(InstructionText::Clear),
        InstructionText::Write(actions) => Ok(InstructionText::Write(copy_actions(
            alloc, actions,
        )?)),
        InstructionText::Metadata { value, mask } => Ok(InstructionText::Metadata {
            value: *value,
            mask: *mask,
        }),
        InstructionText::Goto(table) => Ok(InstructionText::Goto(*table)),
    }
}

fn copy_instructions(
    alloc: Global,
    instructions: &[InstructionText],
) -> Result<Vec<InstructionText>, AllocError>
    ensures { IfOk result (λ copies. map view_instruction copies.items ≡ map view_instruction instructions.now) }
{
    let mut copies = Vec::new(alloc);
    for instruction in instructions {
        copies.push(copy_instruction(alloc, instruction)?)?;
    }
    Ok(copies)
}

/// A copy of a flow.
pub fn copy_flow(alloc: Global, flow: &FlowText) -> Result<FlowText, AllocError>
    ensures { IfOk result (λ copy. view copy ≡ view flow.now) }
{
    Ok(FlowText {
        head: flow.head,
        fields: copy_fields(alloc, &flow.fields)?,
        instructions: copy_instructions(alloc, &flow.instructions)?,
    })
}

fn copy_bucket(alloc: Global, bucket: &BucketText) -> Result<BucketText, AllocError>
    ensures { IfOk result (λ copy. view_bucket copy ≡ view_bucket bucket.now) }
{
    Ok(BucketText {
        head: bucket.head,
        actions: copy_actions(alloc, &bucket.actions)?,
    })
}

fn copy_buckets(alloc: Global, buckets: &[BucketText]) -> Result<Vec<BucketText>, AllocError>
    ensures { IfOk result (λ copies. map view_bucket copies.items ≡ map view_bucket buckets.now) }
{
    let mut copies = Vec::new(alloc);
    for bucket in buckets {
        copies.push(copy_bucket(alloc, bucket)?)?;
    }
    Ok(copies)
}

/// A copy of a group.
pub fn copy_group(alloc: Global, group: &GroupText) -> Result<GroupText, AllocError>
    ensures { IfOk result (λ copy. view_group copy ≡ view_group group.now) }
{
    Ok(GroupText {
        head: group.head,
        buckets: copy_buckets(alloc, &group.buckets)?,
    })
}
