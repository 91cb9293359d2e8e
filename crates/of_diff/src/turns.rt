//! Which of two runs takes the next step.
ghost use Rattle.std.specs.Prelude.{◌≡◌, ◌≢◌, ◌<◌, ℕ, [], length, true};
ghost use Rattle.of_diff.specs.declared.turns.Place.TheVariants.{Ended as AtEnd, Table as AtTable};
ghost use Rattle.of_diff.specs.declared.turns.Turn.TheVariants.{Both as BothAt, Ended as AllEnded, First as FirstTurn, Second as SecondTurn};
ghost use Rattle.of_diff.specs.Changing.{AreAtTableBefore};
ghost use Rattle.of_symbolic_run.specs.{States.answer_to, States.answer_to_tasks, States.answer_to_works, declared.advance.Advance.TheVariants.Lookup as WantsLookup};

use of_alike::{are_tasks_from, have_equal_tasks};
use of_symbolic_run::{SymbolicState, SymbolicTask, Work};

// What a state comes to next.
#[derive(Clone, Copy, PartialEq, Eq)]
enum Place {
    /// No packet is left.
    Ended,
    /// The first packet is looked up in this table.
    Table(u8),
    /// Another step.
    Other,
}

fn place_of_work(work: &Work<'_>) -> Place
    ensures ended { result ≢ AtEnd }
    ensures table { (t : ℕ) → result ≡ AtTable t → answer_to work.now ≡ WantsLookup t }
{
    match work {
        Work::Lookup(table) => Place::Table(*table),
        Work::Do(_) | Work::RunSet | Work::Act(_) => Place::Other,
    }
}

fn place_of_works(works: &[Work<'_>]) -> Place
    ensures ended { result ≢ AtEnd }
    ensures table { (t : ℕ) → result ≡ AtTable t → answer_to_works works.now ≡ WantsLookup t }
{
    match works {
        [work, ..] => place_of_work(work),
        [] => Place::Other,
    }
}

fn place_of(tasks: &[SymbolicTask<'_>]) -> Place
    ensures ended { result ≡ AtEnd → tasks.now ≡ [] }
    ensures left { result ≢ AtEnd → 0 < length tasks.now }
    ensures table { (t : ℕ) → result ≡ AtTable t → answer_to_tasks tasks.now ≡ WantsLookup t }
{
    match tasks {
        [task, ..] => place_of_works(&task.work),
        [] => Place::Ended,
    }
}

/// Which of two runs takes the next step.
#[derive(Clone, Copy, PartialEq, Eq)]
pub enum Turn {
    First,
    Second,
    /// Both come to a lookup in this table.
    Both(u8),
    /// Both are done.
    Ended,
}

/// Which of two runs takes the next step: that which is at an earlier table, so that both come to the same tables together.
pub fn next_turn(first: &[SymbolicTask<'_>], second: &[SymbolicTask<'_>]) -> Turn
    ensures first { result ≡ AllEnded → first.now ≡ [] }
    ensures second { result ≡ AllEnded → second.now ≡ [] }
    ensures both { (t : ℕ) → result ≡ BothAt t → answer_to_tasks first.now ≡ WantsLookup t }
    ensures some_first { result ≡ FirstTurn → 0 < length first.now }
    ensures some_second { result ≡ SecondTurn → 0 < length second.now }
{
    match (place_of(first), place_of(second)) {
        (Place::Ended, Place::Ended) => Turn::Ended,
        (Place::Table(table), Place::Table(other)) if table == other => Turn::Both(table),
        (Place::Table(table), Place::Table(other)) if table > other => Turn::Second,
        (Place::Table(_), Place::Other) | (Place::Ended, _) => Turn::Second,
        _ => Turn::First,
    }
}

/// Whether both states have the same packets, of which the first is looked up in the table before this one, and the others come to no table before it.
pub fn are_at_table_before(a: &SymbolicState<'_>, b: &SymbolicState<'_>, table: u8) -> bool
    ensures { result ≡ true → AreAtTableBefore table a.now b.now }
{
    match place_of(&a.tasks) {
        Place::Table(next) if table > 0 && next == table - 1 => {
            let _ = a.tasks[0].packet.written.as_slice();
            are_tasks_from(&a.tasks[1..], table) && have_equal_tasks(&a.tasks, &b.tasks)
        }
        _ => false,
    }
}
