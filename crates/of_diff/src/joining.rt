//! A lookup of the same packet in tables that say the same.
ghost use Rattle.std.specs.Prelude.{◌≡◌, ◌<◌, IfOk, IfSome, map};
ghost use Rattle.of_datapath.specs.{Datapath.world_of, Numbers.forwarding_of};
ghost use Rattle.of_alike.specs.{declared.alike.Compared.Compared, SamePorts.SamePorts, SameTables.SameTables};
ghost use Rattle.of_diff.specs.{Changing.entries_in, NextPairs.AreNextPairs, Pairs.ArePairs, Pairs.pair_of_case};
ghost use Rattle.of_symbolic_run.specs.{States.AreTaskCopies, States.answer_to_tasks, declared.advance.Advance.TheVariants.Lookup as WantsLookup};

use crate::pair::Pair;
use of_classifier::Lookup;
use of_datapath::Datapath;
use of_symbolic_run::{JointCase, look_up_both};
use std::alloc::{AllocError, Global};

fn pairs_of_cases<'a>(alloc: Global, cases: Vec<JointCase<'a>>) -> Result<Vec<Pair<'a>>, AllocError>
    ensures { IfOk result (λ pairs. pairs.items ≡ map pair_of_case cases.entry.items) }
{
    let mut pairs = Vec::new(alloc);
    for case in cases {
        pairs.push(Pair {
            frames: case.frames,
            first: case.first,
            second: case.second,
        })?;
    }
    Ok(pairs)
}

/// A lookup of the same packet in a table whose entries say the same in both switches: both hit the entries at the same place.
///
/// None if it is not known what the packet matches.
pub fn joint_pairs<'a, L: Lookup>(
    alloc: Global,
    first: &'a Datapath<L>,
    second: &Datapath<L>,
    pair: &Pair<'a>,
    table: u8,
) -> Result<Option<Vec<Pair<'a>>>, AllocError>
    requires table { table < 16 }
    requires lookup { answer_to_tasks pair.now.first.tasks.items ≡ WantsLookup table }
    requires same { AreTaskCopies pair.now.first.tasks.items pair.now.second.tasks.items }
    requires entries { SameTables (entries_in (forwarding_of first.now) table) (entries_in (forwarding_of second.now) table) }
    ensures pairs { IfOk result (λ found. IfSome found (λ pairs. (c : Compared) →
        ArePairs c (world_of (forwarding_of first.now)) (world_of (forwarding_of second.now)) pair.now pairs.items)) }
    ensures next { IfOk result (λ found. IfSome found (λ pairs.
        AreNextPairs (world_of (forwarding_of first.now)) (world_of (forwarding_of second.now)) pair.now pairs.items)) }
{
    second.known_world();
    let entries = first.entries(table);
    match look_up_both(
        alloc,
        entries,
        &pair.first,
        &pair.second,
        &pair.frames,
        table,
    )? {
        None => Ok(None),
        Some(cases) => Ok(Some(pairs_of_cases(alloc, cases)?)),
    }
}
