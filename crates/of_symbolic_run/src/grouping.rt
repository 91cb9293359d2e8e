//! What a GROUP makes of a state.
ghost use Rattle.std.specs.Prelude.{◌≡◌, List, IfOk, IfSome, IsTrue, OnOk, false};
ghost use Rattle.std.specs.List.{list_all};
ghost use Rattle.of_actions.specs.Supported.{is_supported};
ghost use Rattle.of_machine.specs.TheWorld.{TheWorld};
ghost use Rattle.of_symbolic_run.specs.Groups.{AreBucketTasks, AreGroupTasks, AreServedLists, IsBucketTask, IsGroupOf, bucket_lists, lists_of};
ghost use Rattle.of_symbolic_run.specs.{declared.advance.Advance.TheVariants.Group, NextStates.IsNextState, States.answer_to_tasks};

use crate::state::{SymbolicPacket, SymbolicState, SymbolicTask, Work};
use crate::written::Written;
use of_actions::Action;
use of_machine::Step;
use std::alloc::{AllocError, Global};

// A copy of the packet with a bucket's actions as its action set, which runs.
fn bucket_task<'a>(
    alloc: Global,
    packet: &SymbolicPacket,
    bucket: &[Action],
) -> Result<SymbolicTask<'a>, AllocError>
    requires { IsTrue (list_all (is_supported false) bucket.now) }
    ensures { IfOk result (IsBucketTask packet.now bucket.now) }
{
    let mut packet = packet.copy()?;
    packet.written.clear();
    packet.written.write(bucket)?;
    let mut work = Vec::new(alloc);
    work.push(Work::RunSet)?;
    Ok(SymbolicTask { packet, work })
}

// One for each bucket.
fn bucket_tasks<'a>(
    alloc: Global,
    packet: &SymbolicPacket,
    buckets: &[&[Action]],
) -> Result<Vec<SymbolicTask<'a>>, AllocError>
    requires { AreServedLists (lists_of buckets.now) }
    ensures { IfOk result (λ tasks. AreBucketTasks packet.now (lists_of buckets.now) tasks.items) }
{
    let mut tasks = Vec::new(alloc);
    for bucket in buckets {
        tasks.push(bucket_task(alloc, packet, bucket)?)?;
    }
    Ok(tasks)
}

// None without the group.
fn group_tasks<'a>(
    alloc: Global,
    packet: &SymbolicPacket,
    buckets: Option<&[&[Action]]>,
) -> Result<Vec<SymbolicTask<'a>>, AllocError>
    requires { IfSome (bucket_lists buckets) AreServedLists }
    ensures { IfOk result (λ tasks. AreGroupTasks packet.now (bucket_lists buckets.entry) tasks.items) }
{
    match buckets {
        None => Ok(Vec::new(alloc)),
        Some(buckets) => bucket_tasks(alloc, packet, buckets),
    }
}

/// A GROUP of the first packet: a copy of it for each bucket that runs, whose actions are its action set, comes before it (OpenFlow 1.3.5, 5.6.1).
///
/// `buckets` are the actions of the group's buckets that run. None if there is no such group: then the packet goes on. If memory runs out, the
/// state may be anything.
pub fn run_group(
    alloc: Global,
    state: &mut SymbolicState<'_>,
    group: u32,
    buckets: Option<&[&[Action]]>,
) -> Result<(), AllocError>
    requires first { answer_to_tasks state.now.tasks.items ≡ Group group }
    requires served { IfSome (bucket_lists buckets) AreServedLists }
    ensures { OnOk result ((w : TheWorld) → IsGroupOf w group (bucket_lists buckets.entry) → IsNextState w state.old state.new) }
{
    state.steps.push(Step::Act(Action::Group(group)))?;
    let mut first = state.tasks.remove(0);
    first.work.remove(0);
    let mut tasks = group_tasks(alloc, &first.packet, buckets)?;
    tasks.push(first)?;
    tasks.append(&mut state.tasks)?;
    state.tasks = tasks;
    Ok(())
}
