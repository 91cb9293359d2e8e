//! Which frames two switches treat differently.
ghost use Rattle.std.specs.Prelude.{◌≡◌, ◌≤◌, ◌+◌, ◌++◌, ◌∷◌, [], ℕ, List, IfOk, IfNone, IfSome, OnOk};
ghost use Rattle.of_datapath.specs.{Datapath.world_of, Numbers.forwarding_of};
ghost use Rattle.of_machine.specs.TheWorld.{TheWorld};
ghost use Rattle.of_symbolic_run.specs.{FrameSets.InFrames, NextStates.IsFirstState, Received.IsReceivedAt};
ghost use Rattle.of_alike.specs.{declared.alike.Compared.Compared as WhatIsCompared, SamePorts.SamePorts};
ghost use Rattle.of_diff.specs.{declared.pair.Pair.Pair as ThePair, Comparing.AreDifferences, Pairs.AreStatesOfRuns, SameSwitches.IsNothing, SameSwitches.AreSameSwitches, Reasons.ArePairsAfter};
ghost use Rattle.of_diff.specs.SoFar.{IsSoFar, NextIs};

use crate::agreement::{agree_in_all, agreement_of};
use crate::difference::{Differences, Undecided, Why};
use crate::gathering::put_difference;
use crate::pair::{Next, Pair};
use crate::stepping::step_pair;
use of_alike::{Compared, have_same_ports};
use of_classifier::Lookup;
use of_datapath::Datapath;
use of_symbolic_run::{pops_tags, received_frames, received_state};
use std::alloc::{AllocError, Global};

// Puts what comes of a pair to the others.
fn put<'a>(
    next: Next<'a>,
    pairs: &mut Vec<Pair<'a>>,
    so_far: &mut Differences,
) -> Result<(), AllocError>
    ensures taken { OnOk result ((c : WhatIsCompared) (w v : TheWorld) (steps taken : ℕ) (pair : ThePair) → NextIs c w v steps pair next.entry →
        AreStatesOfRuns w v pair → ArePairsAfter c w v steps taken (pairs.old.items ++ pair ∷ []) → ArePairsAfter c w v steps (taken + 1) pairs.new.items) }
    ensures so_far { OnOk result ((c : WhatIsCompared) (w v : TheWorld) (steps taken : ℕ) (pair : ThePair) → taken ≤ steps →
        NextIs c w v steps pair next.entry → ArePairsAfter c w v steps taken (pairs.old.items ++ pair ∷ []) →
        IsSoFar c w v steps (pairs.old.items ++ pair ∷ []) so_far.old → IsSoFar c w v steps pairs.new.items so_far.new) }
{
    match next {
        Next::Pairs(more) => {
            let mut more = more;
            pairs.append(&mut more)
        }
        Next::Alike => Ok(()),
        Next::Differs(difference) => put_difference(difference, &mut so_far.found),
        Next::Undecided(undecided) => {
            so_far.undecided.push(undecided)?;
            Ok(())
        }
    }
}

// The runs took as many steps as they may.
fn give_up<'a>(pairs: Vec<Pair<'a>>, so_far: &mut Differences) -> Result<(), AllocError>
    ensures { OnOk result ((c : WhatIsCompared) (w v : TheWorld) (steps : ℕ) → SamePorts w.ports v.ports →
        ArePairsAfter c w v steps steps pairs.entry.items → IsSoFar c w v steps pairs.entry.items so_far.old → AreDifferences c w v steps so_far.new) }
{
    let mut pairs = pairs;
    while let Some(pair) = pairs.pop() {
        so_far.undecided.push(Undecided {
            frames: pair.frames,
            why: Why::Steps,
        })?;
    }
    Ok(())
}

// The pair before any step. Frames are described with their inner tags or without.
fn first_pair<'a, L: Lookup>(
    alloc: Global,
    datapath: &Datapath<L>,
    inner: bool,
) -> Result<Pair<'a>, AllocError>
    ensures holds { IfOk result (λ pair. (v : TheWorld) → AreStatesOfRuns (world_of (forwarding_of datapath.now)) v pair) }
    ensures first { IfOk result (λ pair. IsFirstState pair.first) }
    ensures second { IfOk result (λ pair. IsFirstState pair.second) }
    ensures all { IfOk result (λ pair. (frame : List ℕ) (port : ℕ) →
        IsReceivedAt (world_of (forwarding_of datapath.now)) frame port → InFrames pair.frames frame port) }
{
    Ok(Pair {
        frames: received_frames(alloc, datapath, inner)?,
        first: received_state(alloc)?,
        second: received_state(alloc)?,
    })
}

/// Which frames two switches treat differently (OpenFlow 1.3.5, 5.1).
///
/// None if they do not have the same ports. The runs of all frames take at most so many steps together, and each search for a frame as many. A set of
/// frames is undecided only for a reason: all these steps were taken, or it is not known what a lookup finds, or a search found no frame that differs.
/// If the switches say the same, nothing differs, and nothing is undecided.
pub fn differences<L: Lookup>(
    alloc: Global,
    first: &Datapath<L>,
    second: &Datapath<L>,
    compared: Compared,
    steps: usize,
) -> Result<Option<Differences>, AllocError>
    ensures some { IfOk result (λ found. IfSome found (
        AreDifferences compared (world_of (forwarding_of first.now)) (world_of (forwarding_of second.now)) steps)) }
    ensures none { IfOk result (λ found. IfNone found (SamePorts first.now.ports second.now.ports → ⊥)) }
    ensures same { IfOk result (λ found. AreSameSwitches (forwarding_of first.now) (forwarding_of second.now) → IsNothing found) }
{
    if !have_same_ports(first.port_list(), second.port_list()) {
        return Ok(None);
    }
    let mut so_far = Differences {
        found: Vec::new(alloc),
        undecided: Vec::new(alloc),
    };
    let agreement = &agreement_of(alloc, first, second)?;
    if agree_in_all(agreement) {
        first.known_world();
        second.known_world();
        return Ok(Some(so_far));
    }
    let mut pairs = Vec::new(alloc);
    let inner = pops_tags(first) || pops_tags(second);
    pairs.push(first_pair(alloc, first, inner)?)?;
    let mut left = steps;
    while left > 0 {
        let Some(pair) = pairs.pop() else {
            return Ok(Some(so_far));
        };
        let next = step_pair(alloc, first, second, compared, agreement, pair, steps)?;
        put(next, &mut pairs, &mut so_far)?;
        left -= 1;
    }
    give_up(pairs, &mut so_far)?;
    Ok(Some(so_far))
}
