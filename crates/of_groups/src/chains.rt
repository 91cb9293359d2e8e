//! Chains of groups, in rounds: after each it is known which groups have one more after them (OpenFlow 1.3.5, 6.5).
ghost use Rattle.std.specs.Prelude.{◌≡◌, ◌≤◌, ℕ, suc, false, List, length, slice_index_or};
ghost use Rattle.std.specs.List.{list_any};
ghost use Rattle.of_groups.specs.{declared.group.Group.Group as AGroup, Groups.with_group, Groups.any_named as some_named, Chains.is_long, Rounds.IsRound, Rounds.known_of, Rounds.mark_at};

use crate::group::Group;
use crate::lookup::place_of;
use crate::naming::{NumberTest, any_named};
use arrayvec::ArrayVec;
use of_wire::limits::MOST_GROUPS;

/// Which groups are known to have this many more after them.
#[derive(Drop)]
struct Round<'a> {
    groups: &'a [Group],
    /// The group that is added, or that replaces the one of its number.
    new: &'a Group,
    /// Whether it is known of the new group.
    own: bool,
    /// Whether it is known of the groups, in their order.
    marks: ArrayVec<bool, MOST_GROUPS>,
}

impl NumberTest for Round<'_> {
    ghost holds = { λ round. known_of round };

    fn holds(&self, number: u32) -> bool {
        if self.new.id == number {
            return self.own;
        }
        mark_of(self.groups, self.marks.as_slice(), number)
    }
}

fn mark_at_place(marks: &[bool], place: usize) -> bool
    ensures { result ≡ slice_index_or marks.now place false }
{
    marks.get(place).copied().unwrap_or(false)
}

// The mark of the group of that number.
pub(crate) fn mark_of(groups: &[Group], marks: &[bool], number: u32) -> bool
    ensures { result ≡ mark_at groups.now marks.now number }
{
    match place_of(groups, number) {
        Some(place) => mark_at_place(marks, place),
        None => false,
    }
}

// Each group exists.
fn first_round<'a>(groups: &'a [Group], new: &'a Group) -> Round<'a>
    requires { length groups.now ≤ 256 }
    ensures { IsRound groups.now new.now 0 result }
{
    let mut marks = ArrayVec::new();
    for _group in groups {
        marks.push(true);
    }
    Round {
        groups,
        new,
        own: true,
        marks,
    }
}

// Those that name one of them.
fn next_round<'a>(round: &Round<'a>) -> Round<'a>
    requires { length round.now.groups.now ≤ 256 }
    ensures { (groups : List AGroup) (new : AGroup) (k : ℕ) → IsRound groups new k round.now → IsRound groups new (suc k) result }
{
    let mut marks = ArrayVec::new();
    for group in round.groups {
        marks.push(any_named(group, round));
    }
    Round {
        groups: round.groups,
        new: round.new,
        own: any_named(round.new, round),
        marks,
    }
}

fn is_known(round: &Round<'_>, group: &Group) -> bool
    ensures { result ≡ known_of round.now group.now.id }
{
    round.holds(group.id)
}

// Whether it is known of some group that was there.
fn is_any_known(round: &Round<'_>) -> bool
    ensures { result ≡ list_any (λ g. known_of round.now g.id) round.now.groups.now }
{
    round.groups.iter().any(|group| is_known(round, group))
}

/// Whether some chain would have more than three groups, with the new one among them.
pub(crate) fn makes_long(groups: &[Group], new: &Group) -> bool
    requires { length groups.now ≤ 256 }
    ensures { result ≡ is_long (with_group new.now groups.now) }
{
    let there = first_round(groups, new);
    let one_behind = next_round(&there);
    let two_behind = next_round(&one_behind);
    let three_behind = next_round(&two_behind);
    three_behind.own || is_any_known(&three_behind)
}
