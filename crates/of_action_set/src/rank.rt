//! The kinds of actions in the order in which a set runs them.
ghost use Rattle.std.specs.Prelude.{◌≡◌, ◌≤◌, nat_lt, length, filter};
ghost use Rattle.std.specs.List.{list_any};
ghost use Rattle.of_action_set.specs.Sets.{field_place as place_of_field, rank as rank_of, is_group as is_to_group, is_output as is_an_output};

use of_actions::{Action, Argument};

fn field_place(argument: Argument) -> u8
    ensures place { result ≡ place_of_field argument }
    ensures most { result ≤ 30 }
{
    match argument {
        Argument::Field { field, .. } => field.row().number,
        _ => 0,
    }
}

/// The place of an action's kind in the order of execution (OpenFlow 1.3.5, 5.10).
#[tactic(auto, using(crate::proofs::Kinded::rank_most))]
pub(crate) fn rank(action: Action) -> u8
    ensures rank { result ≡ rank_of action }
    ensures most { result ≤ 41 }
{
    let (row, argument) = action.said();
    row.rank + field_place(argument)
}

fn is_group(action: Action) -> bool
    ensures { result ≡ is_to_group action }
{
    matches!(action, Action::Group(_))
}

pub(crate) fn is_output(action: Action) -> bool
    ensures { result ≡ is_an_output action }
{
    matches!(action, Action::Output { .. })
}

pub(crate) fn has_group(actions: &[Action]) -> bool
    ensures { result ≡ list_any is_to_group actions.now }
{
    actions.iter().any(|action| is_group(*action))
}

/// How many of the actions rank below this.
pub(crate) fn place_of(actions: &[Action], below: u8) -> usize
    ensures { result ≡ length (filter (λ a. nat_lt (rank_of a) below) actions.now) }
{
    actions
        .iter()
        .filter(|action| rank(**action) < below)
        .count()
}
