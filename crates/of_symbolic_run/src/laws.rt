//! What a state says about runs.
ghost use Rattle.std.specs.Prelude.{◌≡◌, ◌∷◌, ℕ, List, []};
ghost use Rattle.of_machine.specs.{TheWorld.TheWorld, Sound.IsSound, Rows.Lookup, Rows.entering, Runs.run_of};
ghost use Rattle.of_symbolic_run.specs.{declared.state.SymbolicState.SymbolicState, States.IsAt, States.items_for};

/// A state without packets gives what the run of each of its frames gives.
pub fn ended_states_give_runs()
    ensures items { (w : TheWorld) (frame : List ℕ) (port : ℕ) (s : SymbolicState) → IsSound w → IsAt w frame port s → s.tasks.items ≡ [] →
        (run_of w (entering frame port) (Lookup 0 ∷ [])).items ≡ items_for w.ports s.emitted.items frame port }
    ensures lines { (w : TheWorld) (frame : List ℕ) (port : ℕ) (s : SymbolicState) → IsSound w → IsAt w frame port s → s.tasks.items ≡ [] →
        (run_of w (entering frame port) (Lookup 0 ∷ [])).lines ≡ s.steps.items }
{}
