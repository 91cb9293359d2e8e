//! Groups of a list, whether a switch would accept them or not: what they name, and how long chains are (OpenFlow 1.3.5, 5.6.1 and 6.5).
ghost use Rattle.std.specs.Prelude.{◌≡◌, ℕ, suc, map, false, IfOk};
ghost use Rattle.std.specs.Option.{option_map_or};
ghost use Rattle.of_groups.specs.{Buckets.any_sends as some_sends, Groups.any_watches as some_watches, Groups.any_named as some_named, Groups.find_group as group_of_number, Chains.chain};
ghost use Rattle.of_groups.specs.{Faults.is_absent as is_not_there, Rounds.length_from, Rounds.mark_at, Rounds.marks_of};

use crate::chains::mark_of;
use crate::group::Group;
use crate::lookup::{find_group, is_there};
use crate::naming::{NumberTest, any_named, any_sends, any_watches};
use std::alloc::{AllocError, Global};

/// Whether no group of a number is among these.
#[derive(Drop)]
struct IsNotAmong<'a> {
    groups: &'a [Group],
}

impl NumberTest for IsNotAmong<'_> {
    ghost holds = { λ test. is_not_there test.groups.now };

    fn holds(&self, number: u32) -> bool {
        !is_there(self.groups, number)
    }
}

/// Whether an action of the group sends packets to a group that is not among these.
pub fn sends_to_absent(groups: &[Group], group: &Group) -> bool
    ensures { result ≡ some_sends (is_not_there groups.now) group.now.buckets }
{
    any_sends(group.buckets.as_slice(), &IsNotAmong { groups })
}

/// Whether the group is of FAST-FAILOVER, and a bucket of it watches a group that is not among these.
pub fn watches_absent(groups: &[Group], group: &Group) -> bool
    ensures { result ≡ some_watches (is_not_there groups.now) group.now.kind group.now.buckets }
{
    any_watches(group.kind, group.buckets.as_slice(), &IsNotAmong { groups })
}

/// Whether the mark of the group of a number is set.
#[derive(Drop)]
struct IsMarked<'a> {
    groups: &'a [Group],
    marks: &'a [bool],
}

impl NumberTest for IsMarked<'_> {
    ghost holds = { λ test. mark_at test.groups.now test.marks.now };

    fn holds(&self, number: u32) -> bool {
        mark_of(self.groups, self.marks, number)
    }
}

// Whether the group of that number names one that is marked.
fn names_marked(groups: &[Group], marks: &[bool], number: u32) -> bool
    ensures { result ≡ option_map_or (some_named (mark_at groups.now marks.now)) (group_of_number number groups.now) false }
{
    match find_group(groups, number) {
        None => false,
        Some(group) => any_named(group, &IsMarked { groups, marks }),
    }
}

// Each group exists.
fn first_marks(alloc: Global, groups: &[Group]) -> Result<Vec<bool>, AllocError>
    ensures { IfOk result (λ marks. marks.items ≡ marks_of groups.now 0) }
{
    let mut marks = Vec::new(alloc);
    for group in groups {
        marks.push(is_there(groups, group.id))?;
    }
    Ok(marks)
}

// Those that name one of them.
fn next_marks(alloc: Global, groups: &[Group], before: &[bool]) -> Result<Vec<bool>, AllocError>
    ensures { (k : ℕ) → before.now ≡ marks_of groups.now k → IfOk result (λ marks. marks.items ≡ marks_of groups.now (suc k)) }
{
    let mut marks = Vec::new(alloc);
    for group in groups {
        marks.push(names_marked(groups, before, group.id))?;
    }
    Ok(marks)
}

// The length of the longest chain, by how far chains lead.
fn length_by(there: bool, one: bool, two: bool, three: bool) -> u8
    ensures { result ≡ length_from there one two three }
{
    if three {
        4
    } else if two {
        3
    } else if one {
        2
    } else if there {
        1
    } else {
        0
    }
}

/// For each group how many the longest chain that begins at it has, and 4 where it has more than three or no end.
pub fn chain_lengths(alloc: Global, groups: &[Group]) -> Result<Vec<u8>, AllocError>
    ensures { IfOk result (λ lengths. lengths.items ≡ map (λ g. chain groups.now g.id) groups.now) }
{
    let there = first_marks(alloc, groups)?;
    let one = next_marks(alloc, groups, &there)?;
    let two = next_marks(alloc, groups, &one)?;
    let three = next_marks(alloc, groups, &two)?;
    let mut lengths = Vec::new(alloc);
    for group in groups {
        lengths.push(length_by(
            mark_of(groups, &there, group.id),
            mark_of(groups, &one, group.id),
            mark_of(groups, &two, group.id),
            mark_of(groups, &three, group.id),
        ))?;
    }
    Ok(lengths)
}
