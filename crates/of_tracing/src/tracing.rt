//! Frames, traced.
ghost use Rattle.std.specs.Prelude.{◌≡◌, ◌≤◌, IfOk, IfErr, length};
ghost use Rattle.of_machine.specs.Weights.{frame_step_bound};
ghost use Rattle.of_datapath.specs.DryRun.{steps_in};
ghost use Rattle.of_switch.specs.Steps.{frame_in};

use crate::traces::Trace;
use of_classifier::Lookup;
use of_machine::Steps;
use of_switch::{Switch, SwitchError};
use std::alloc::Global;

/// The steps of a frame that is received at a port, and the effects that `frame` would give next. Nothing changes.
///
/// It fails only where memory runs out.
pub fn trace<L: Lookup>(
    alloc: Global,
    switch: &Switch<L>,
    port: u32,
    frame: &[u8],
) -> Result<Trace, SwitchError>
    ensures steps { IfOk result (λ trace. trace.steps.items ≡ steps_in port frame.now switch.now.core.forwarding) }
    ensures bound { IfOk result (λ trace. length trace.steps.items ≤ frame_step_bound) }
    ensures effects { IfOk result (λ trace. trace.effects.items ≡ (frame_in port frame.now switch.now).effects) }
    ensures err { IfErr result (λ e. e ≡ SwitchError.NoMemory) }
{
    switch.datapath().known_world();
    let mut log = Steps::new(alloc);
    let effects = switch.dry_run(port, frame, &mut log)?;
    let Steps { list } = log;
    Ok(Trace {
        steps: list,
        effects,
    })
}
