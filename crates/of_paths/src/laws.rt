//! Where frames go.
ghost use Rattle.std.specs.Prelude.{◌≡◌, ℕ, List, map};
ghost use Rattle.of_machine.specs.TheWorld.{TheWorld};
ghost use Rattle.of_symbolic_run.specs.Received.{items_at};
ghost use Rattle.of_paths.specs.{Places.place_of_item, Ways.lines_at, Ways.way_of};

/// Frames that come in by one port, and whose steps differ only in which entries are hit, go to the same places, in the same order (OpenFlow 1.3.5, 5.12).
pub fn frames_of_one_way_go_alike()
    ensures { (w : TheWorld) (frame other : List ℕ) (port : ℕ) → way_of (lines_at w frame port) ≡ way_of (lines_at w other port) →
        map place_of_item (items_at w frame port) ≡ map place_of_item (items_at w other port) }
{}
