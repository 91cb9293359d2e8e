//! Laws of action sets.
ghost use Rattle.std.specs.Prelude.{ℕ, ◌≡◌, ◌≤◌, ◌==◌, ◌&&◌, List, Some, None, false, length, IsTrue, if◌then◌else◌};
ghost use Rattle.std.specs.List.{list_any, list_all};
ghost use Rattle.of_actions.specs.{declared.action.Action.Action, Supported.is_supported, Rising.is_ascending};
ghost use Rattle.of_action_set.specs.Sets.{rank, held_action, with_action, in_order, is_group};

/// A set is a finite map from kinds to actions: a written action is that of its kind, those of other kinds stay, and two sets with the same action of each kind are one.
pub fn set_is_map()
    ensures written { (set : List Action) (a : Action) (kind : ℕ) →
        held_action kind (with_action set a) ≡ (if rank a == kind then Some a else held_action kind set) }
    ensures rising { (set : List Action) (a : Action) → IsTrue (is_ascending rank set) → IsTrue (is_ascending rank (with_action set a)) }
    ensures same { (s t : List Action) → IsTrue (is_ascending rank s) → IsTrue (is_ascending rank t) → ((kind : ℕ) → held_action kind s ≡ held_action kind t) →
        s ≡ t }
{}

/// What a set runs: its actions by ascending rank and no others, but OUTPUT only where there is no GROUP; at most 30.
pub fn order_is_by_rank()
    ensures rising { (set : List Action) → IsTrue (is_ascending rank set) → IsTrue (is_ascending rank (in_order set)) }
    ensures members { (set : List Action) (kind : ℕ) →
        held_action kind (in_order set) ≡ (if kind == 41 && list_any is_group set then None else held_action kind set) }
    ensures few { (set : List Action) → IsTrue (is_ascending rank set) → IsTrue (list_all (is_supported false) set) → length set ≤ 30 }
{}
