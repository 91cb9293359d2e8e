//! Copies of works, tasks, emissions and steps.
ghost use Rattle.std.specs.Prelude.{◌≡◌, IfOk};
ghost use Rattle.of_symbolic_run.specs.States.{AreTaskCopies};

use crate::state::{Emission, SymbolicTask, Work};
use of_machine::Step;
use std::alloc::{AllocError, Global};

fn copied_work<'a>(work: &Work<'a>) -> Work<'a>
    ensures { result ≡ work.now }
{
    match work {
        Work::Lookup(table) => Work::Lookup(*table),
        Work::Do(served) => Work::Do(served.copy()),
        Work::RunSet => Work::RunSet,
        Work::Act(action) => Work::Act(*action),
    }
}

/// The same works.
pub fn copied_works<'a>(alloc: Global, works: &[Work<'a>]) -> Result<Vec<Work<'a>>, AllocError>
    ensures { IfOk result (λ copies. copies.items ≡ works.now) }
{
    let mut copies = Vec::new(alloc);
    for work in works {
        copies.push(copied_work(work))?;
    }
    Ok(copies)
}

/// The same packets with the same works.
pub fn copied_tasks<'a>(
    alloc: Global,
    tasks: &[SymbolicTask<'a>],
) -> Result<Vec<SymbolicTask<'a>>, AllocError>
    ensures { IfOk result (λ copies. AreTaskCopies tasks.now copies.items) }
{
    let mut copies = Vec::new(alloc);
    for task in tasks {
        copies.push(task.copy(alloc)?)?;
    }
    Ok(copies)
}

fn copied_emission(emission: &Emission) -> Result<Emission, AllocError>
    ensures { IfOk result (λ copy. copy ≡ emission.now) }
{
    match emission {
        Emission::Output {
            packet,
            port,
            max_len,
        } => Ok(Emission::Output {
            packet: packet.copy()?,
            port: *port,
            max_len: *max_len,
        }),
        Emission::InvalidTtl(packet) => Ok(Emission::InvalidTtl(packet.copy()?)),
    }
}

/// The same emissions.
pub fn copied_emissions(alloc: Global, emissions: &[Emission]) -> Result<Vec<Emission>, AllocError>
    ensures { IfOk result (λ copies. copies.items ≡ emissions.now) }
{
    let mut copies = Vec::new(alloc);
    for emission in emissions {
        copies.push(copied_emission(emission)?)?;
    }
    Ok(copies)
}

/// The same steps.
pub fn copied_steps(alloc: Global, steps: &[Step]) -> Result<Vec<Step>, AllocError>
    ensures { IfOk result (λ copies. copies.items ≡ steps.now) }
{
    steps.to_vec(alloc)
}
