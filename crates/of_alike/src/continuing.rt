//! Whether two runs go on alike, by the packets and the work that are left.
ghost use Rattle.std.specs.Prelude.{◌≡◌, IsTrue, List, map, true, ℕ};
ghost use Rattle.of_actions.specs.InstructionLists.{is_served_body};
ghost use Rattle.of_alike.specs.Agreeing.{GoOnAlike, InstructionFrom, OneFrom, StayFrom, TaskFrom, WorkFrom};
ghost use Rattle.of_symbolic_run.specs.States.{AreTaskCopies, IsTaskCopy, task_for, work_for};

use crate::emissions::are_same_packets;
use crate::tables::{are_same_actions, is_same_instruction};
use of_actions::Instruction;
use of_symbolic_run::{SymbolicPacket, SymbolicState, SymbolicTask, Work};

// Whether two packets are the same for each frame that came in, and so are their action sets.
fn is_equal_packet(a: &SymbolicPacket, b: &SymbolicPacket) -> bool
    ensures { result ≡ true → b.now ≡ a.now }
{
    are_same_packets(a, b) && are_same_actions(a.written.as_slice(), b.written.as_slice())
}

fn is_equal_work(a: &Work<'_>, b: &Work<'_>) -> bool
    ensures { result ≡ true → b.now ≡ a.now }
{
    match (a, b) {
        (Work::Lookup(table), Work::Lookup(other)) => *table == *other,
        (Work::Do(served), Work::Do(other)) => is_same_instruction(served.get(), other.get()),
        (Work::RunSet, Work::RunSet) => true,
        (Work::Act(served), Work::Act(other)) => served.get() == other.get(),
        _ => false,
    }
}

fn are_equal_works(a: &[Work<'_>], b: &[Work<'_>]) -> bool
    ensures { result ≡ true → b.now ≡ a.now }
{
    let mut others = b.iter();
    for work in a {
        match others.next() {
            Some(other) if is_equal_work(work, other) => {}
            _ => return false,
        }
    }
    others.next().is_none()
}

fn is_equal_task(a: &SymbolicTask<'_>, b: &SymbolicTask<'_>) -> bool
    ensures { result ≡ true → IsTaskCopy a.now b.now }
{
    is_equal_packet(&a.packet, &b.packet) && are_equal_works(&a.work, &b.work)
}

/// Whether the packets and their work are the same, for each frame that came in.
pub fn have_equal_tasks(a: &[SymbolicTask<'_>], b: &[SymbolicTask<'_>]) -> bool
    ensures { result ≡ true → AreTaskCopies a.now b.now }
{
    let mut others = b.iter();
    for task in a {
        match others.next() {
            Some(other) if is_equal_task(task, other) => {}
            _ => return false,
        }
    }
    others.next().is_none()
}

fn leads_from(instruction: &Instruction, table: u8) -> bool
    requires { IsTrue (is_served_body instruction.now) }
    ensures { result ≡ true → InstructionFrom table instruction.now }
{
    match instruction {
        Instruction::Goto(to) => table <= *to,
        Instruction::Apply(_)
        | Instruction::Write(_)
        | Instruction::Clear
        | Instruction::Metadata { .. } => true,
    }
}

// Whether the work comes to no table before this one.
fn is_work_from(work: &Work<'_>, table: u8) -> bool
    ensures { result ≡ true → OneFrom table (work_for work.now) }
{
    match work {
        Work::Lookup(to) => table <= *to,
        Work::Do(served) => leads_from(served.get(), table),
        Work::RunSet => true,
        Work::Act(served) => {
            let _ = served.get();
            true
        }
    }
}

fn are_works_from(works: &[Work<'_>], table: u8) -> bool
    ensures { result ≡ true → WorkFrom table (map work_for works.now) }
{
    let mut rest = works;
    while let [work, behind @ ..] = rest {
        if !is_work_from(work, table) {
            return false;
        }
        rest = behind;
    }
    true
}

fn is_task_from(task: &SymbolicTask<'_>, table: u8) -> bool
    ensures { result ≡ true → (frame : List ℕ) (port : ℕ) → TaskFrom table (task_for frame port task.now) }
{
    let _ = task.packet.written.as_slice();
    are_works_from(&task.work, table)
}

/// Whether the work of packets comes to no table before this one, for each frame that came in.
pub fn are_tasks_from(tasks: &[SymbolicTask<'_>], table: u8) -> bool
    ensures { result ≡ true → StayFrom table tasks.now }
{
    for task in tasks {
        if !is_task_from(task, table) {
            return false;
        }
    }
    true
}

/// Whether both states have the same packets, whose work comes to no table before this one.
pub fn go_on_alike(a: &SymbolicState<'_>, b: &SymbolicState<'_>, table: u8) -> bool
    ensures { result ≡ true → GoOnAlike table a.now b.now }
{
    are_tasks_from(&a.tasks, table) && have_equal_tasks(&a.tasks, &b.tasks)
}
