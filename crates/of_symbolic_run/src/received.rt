//! The first state of a run.
ghost use Rattle.std.specs.Prelude.{ℕ, List, IfOk};
ghost use Rattle.of_machine.specs.TheWorld.{TheWorld};
ghost use Rattle.of_symbolic_run.specs.{NextStates.IsFirstState, States.IsAt};

use crate::rewrites::Rewrites;
use crate::state::{SymbolicPacket, SymbolicState, SymbolicTask, Work};
use crate::written::Written;
use std::alloc::{AllocError, Global};

/// The state of a frame that was received, before its first lookup (OpenFlow 1.3.5, 5.1).
pub fn received_state<'a>(alloc: Global) -> Result<SymbolicState<'a>, AllocError>
    ensures at { IfOk result (λ s. (w : TheWorld) (frame : List ℕ) (port : ℕ) → IsAt w frame port s) }
    ensures first { IfOk result IsFirstState }
{
    let packet = SymbolicPacket {
        rewrites: Rewrites::none(alloc),
        metadata: 0,
        written: Written::none(alloc),
        cookie: u64::MAX,
        table: 0,
        miss: false,
    };
    let mut work = Vec::new(alloc);
    work.push(Work::Lookup(0))?;
    let mut tasks = Vec::new(alloc);
    tasks.push(SymbolicTask { packet, work })?;
    Ok(SymbolicState {
        tasks,
        emitted: Vec::new(alloc),
        steps: Vec::new(alloc),
    })
}
