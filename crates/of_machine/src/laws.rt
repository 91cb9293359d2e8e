//! Laws of runs.
ghost use Rattle.std.specs.Prelude.{◌≡◌, ◌≤◌, ◌+◌, ◌*◌, ◌∷◌, ◌⊎◌, ℕ, List, [], true, length, IsTrue};
ghost use Rattle.of_actions.specs.{Supported.are_supported, declared.action.Action.Action};
ghost use Rattle.of_machine.specs.Weights.{IsFit, AllFit, lookup_steps, frame_step_bound, task_weight, weight};
ghost use Rattle.of_machine.specs.Runs.{Machine, step, after, starting, run_of, ahead_of};
ghost use Rattle.of_machine.specs.{TheWorld.TheWorld, Sound.IsSound, Sound.longest, Rows.Work, Rows.Lookup, Rows.acts, Rows.task, Growth.IsLow, Growth.AllFrames, Growth.AllShort};
ghost use Rattle.of_machine.specs.{Renumbering.IsRenumbered, Renumbering.renumbered_machine, declared.data.Packet.Packet};
ghost use Rattle.of_rewrite.specs.Frames.{IsFrame};

/// Every run ends: each step makes what is left of the work lighter (`lowers`), so that no packet is left after as many steps as it weighs, and then nothing changes.
///
/// A line is a step, so a frame takes at most `lookup_steps longest 0` of them, which are 143,271,552, and a PACKET_OUT as many for each of its 64 actions, one for each action, and its end.
pub fn every_run_ends()
    ensures ends { (w : TheWorld) (p : Packet) (work : List Work) → IsSound w → IsFit (task p work) → (run_of w p work).tasks ≡ [] }
    ensures lowers { (w : TheWorld) (m : Machine) → IsSound w → AllFit m.tasks → (m.tasks ≡ []) ⊎ (weight w (step w m).tasks + 1 ≤ weight w m.tasks) }
    ensures settled { (w : TheWorld) (k n : ℕ) (m : Machine) → (after w n m).tasks ≡ [] → after w (k + n) m ≡ after w n m }
    ensures lines { (w : TheWorld) (p : Packet) (work : List Work) (k : ℕ) → IsSound w → IsFit (task p work) →
        length (after w k (starting p work)).lines ≤ task_weight w (task p work) }
    ensures frame { (w : TheWorld) (p : Packet) (k : ℕ) → IsSound w → p.action_set ≡ [] →
        length (after w k (starting p (Lookup 0 ∷ []))).lines ≤ lookup_steps longest 0 }
    ensures number { lookup_steps longest 0 ≡ frame_step_bound }
    ensures actions { (w : TheWorld) (p : Packet) (l : List Action) (k : ℕ) → IsSound w → p.action_set ≡ [] → IsTrue (are_supported true l) →
        length (after w k (starting p (acts l))).lines ≤ 64 * lookup_steps longest 0 + 65 }
{}

/// A packet before others has its own run, and then the others are as they were.
pub fn packets_take_turns()
    ensures { (w : TheWorld) (p : Packet) (work : List Work) (b : Machine) → IsSound w → IsFit (task p work) →
        after w (length (run_of w p work).lines) (record b { tasks = task p work ∷ b.tasks }) ≡ record (ahead_of b (run_of w p work)) { tasks = b.tasks } }
{}

/// Frames grow by four bytes for each VLAN tag that is pushed, and by no more.
pub fn frames_stay_short()
    ensures { (w : TheWorld) (p : Packet) (work : List Work) (most k : ℕ) → IsSound w → IsFit (task p work) → IsLow w most (task p work) →
        AllShort most (after w k (starting p work)).items }
{}

/// What a frame's run emits are frames: each has two addresses and a type, and so at least 14 bytes (IEEE 802.3, 3.1.1).
pub fn frames_stay_frames()
    ensures { (w : TheWorld) (p : Packet) (work : List Work) (k : ℕ) → IsSound w → IsFit (task p work) → IsFrame p.frame →
        AllFrames (after w k (starting p work)).items }
{}

/// The numbers of entries are names alone: where entries have other numbers, a run is the same but for them.
pub fn numbers_are_names()
    ensures { (number : ℕ → ℕ → ℕ) (w v : TheWorld) (p : Packet) (work : List Work) → IsRenumbered number w v →
        run_of v p work ≡ renumbered_machine number (run_of w p work) }
{}
