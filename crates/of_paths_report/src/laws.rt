//! Which paths are told if a place is asked for.
ghost use Rattle.std.specs.Prelude.{◌≡◌, ◌<◌, ◌^◌, ◌++◌, ◌⊎◌, ℕ, List, Option, Some, true};
ghost use Rattle.std.specs.List.{Contains};
ghost use Rattle.of_oxm.specs.{declared.match_field.MatchField.MatchField, Relations.matches_map};
ghost use Rattle.of_machine.specs.TheWorld.{TheWorld};
ghost use Rattle.of_symbolic.specs.Parts.{received_fields};
ghost use Rattle.of_symbolic_run.specs.Received.{IsReceivedAt, items_at};
ghost use Rattle.of_paths.specs.{Ingress.ingress_match, Paths.InPaths, Paths.InUndecidedFrames, Places.lead_to, declared.destination.Destination.Destination as Place, declared.path.Merging.Merging};
ghost use Rattle.of_paths.specs.{declared.path.PathClass.PathClass, declared.path.Paths.Paths};
ghost use Rattle.of_paths_report.specs.{Asked.ArePathsFor, Destinations.InClassLeadingTo, Destinations.is_class_leading};

/// If a place is asked for, each frame that goes there, of which nothing leaves if that is asked for, is in a class that is told, or is undecided; and
/// each frame of a class that is told goes there (OpenFlow 1.3.5, 5.1 and 5.12).
pub fn told_frames_are_those_that_go_there()
    ensures all { (merging : Merging) (w : TheWorld) (port : Option ℕ) (within : List MatchField) (to : Place) (steps : ℕ) (found : Paths) →
        ArePathsFor port (Some to) merging w within steps found → (frame : List ℕ) (number : ℕ) → number < 2 ^ 32 → IsReceivedAt w frame number →
        matches_map (ingress_match port ++ within) (received_fields frame number) ≡ true → lead_to to (items_at w frame number) ≡ true →
        InClassLeadingTo to found.classes.items frame number ⊎ InUndecidedFrames found.undecided.items frame number }
    ensures only { (merging : Merging) (w : TheWorld) (port : Option ℕ) (within : List MatchField) (to : Place) (steps : ℕ) (found : Paths) →
        ArePathsFor port (Some to) merging w within steps found → (c : PathClass) → Contains found.classes.items c → is_class_leading to c ≡ true →
        (frame : List ℕ) (number : ℕ) → number < 2 ^ 32 → IsReceivedAt w frame number → InPaths c.paths.items frame number →
        lead_to to (items_at w frame number) ≡ true }
{}
