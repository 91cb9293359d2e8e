//! Traces of frames.
ghost use Rattle.std.specs.Prelude.{IsTrue};
ghost use Rattle.of_tracing.specs.Encoded.{are_encoded};

use of_machine::Step;
use of_switch::Effects;

/// What a frame does, step by step, and what it gives.
#[derive(Drop)]
pub struct Trace {
    /// An entry is named by its index in its table by age, from 0.
    pub steps: Vec<Step>,
    pub effects: Effects,
    // each action is one of a flow
    ghost encoded: { IsTrue (are_encoded steps.items) },
}
