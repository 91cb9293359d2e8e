//! The paths of all frames that a switch receives.
ghost use Rattle.std.specs.Prelude.{◌≡◌, ◌≤◌, ◌+◌, ◌++◌, ◌∷◌, [], ℕ, List, IfOk, OnOk, true};
ghost use Rattle.of_datapath.specs.{Datapath.world_of, Numbers.forwarding_of};
ghost use Rattle.of_oxm.specs.{declared.match_field.MatchField.MatchField as AMatchField, Relations.matches_map};
ghost use Rattle.of_regions.specs.Conditions.{AreConditions};
ghost use Rattle.of_machine.specs.TheWorld.{TheWorld};
ghost use Rattle.of_symbolic.specs.Parts.{received_fields};
ghost use Rattle.of_symbolic_run.specs.{FrameSets.InFrames, NextStates.IsFirstState, declared.dividing.Case.Case as ACase, Received.AreReceived, Received.IsReceivedAt};
ghost use Rattle.of_paths.specs.{declared.path.Merging.Merging as AMerging, declared.path.Path.Path as APath, declared.stepping.Next.TheVariants.Ended, Paths.ArePaths};
ghost use Rattle.of_paths.specs.{Reasons.AreLeftAfter, Reasons.AreMatched, Reasons.IsStateOfRuns, SoFar.ArePathsSoFar, SoFar.IsNextOf};

use crate::classing::put_path;
use crate::path::{Merging, Paths, UndecidedFrames, WhyUndecided};
use crate::stepping::{Next, step_case};
use of_classifier::Lookup;
use of_datapath::Datapath;
use of_oxm::MatchField;
use of_symbolic_run::{Case, any_about_metadata, pops_tags, received_frames, received_state};
use std::alloc::{AllocError, Global};

// Puts what comes of a state to the others.
fn put_next<'a, L: Lookup>(
    alloc: Global,
    datapath: &Datapath<L>,
    merging: Merging,
    next: Next<'a>,
    steps: usize,
    cases: &mut Vec<Case<'a>>,
    found: &mut Paths,
) -> Result<(), AllocError>
    requires { (path : APath) → next ≡ Ended path → AreReceived (world_of (forwarding_of datapath.now)).ports path.frames }
    ensures taken { OnOk result ((within : List AMatchField) (taken : ℕ) (old : ACase) → IsNextOf (world_of (forwarding_of datapath.now)) old next.entry →
        AreLeftAfter (world_of (forwarding_of datapath.now)) within taken (cases.old.items ++ old ∷ []) →
        AreLeftAfter (world_of (forwarding_of datapath.now)) within (taken + 1) cases.new.items) }
    ensures so_far { OnOk result ((within : List AMatchField) (taken : ℕ) (old : ACase) → taken ≤ steps →
        IsNextOf (world_of (forwarding_of datapath.now)) old next.entry →
        AreLeftAfter (world_of (forwarding_of datapath.now)) within taken (cases.old.items ++ old ∷ []) →
        ArePathsSoFar merging (world_of (forwarding_of datapath.now)) within steps (cases.old.items ++ old ∷ []) found.old →
        ArePathsSoFar merging (world_of (forwarding_of datapath.now)) within steps cases.new.items found.new) }
{
    match next {
        Next::Cases(more) => {
            // the first one is taken first
            let mut more = more;
            more.reverse();
            cases.append(&mut more)
        }
        Next::Ended(path) => put_path(alloc, datapath, merging, path, steps, found),
        Next::Undecided(undecided) => {
            found.undecided.push(undecided)?;
            Ok(())
        }
    }
}

// The runs took as many steps as they may.
fn leave_undecided<'a>(cases: Vec<Case<'a>>, found: &mut Paths) -> Result<(), AllocError>
    ensures { OnOk result ((merging : AMerging) (w : TheWorld) (within : List AMatchField) (steps : ℕ) → AreLeftAfter w within steps cases.entry.items →
        ArePathsSoFar merging w within steps cases.entry.items found.old → ArePaths merging w within steps found.new) }
{
    let mut cases = cases;
    while let Some(case) = cases.pop() {
        found.undecided.push(UndecidedFrames {
            frames: case.frames,
            why: WhyUndecided::Steps,
        })?;
    }
    Ok(())
}

// The state before any step, for the frames that are received and that conditions match.
fn first_case<'a, L: Lookup>(
    alloc: Global,
    datapath: &Datapath<L>,
    within: &[MatchField],
) -> Result<Case<'a>, AllocError>
    requires { AreConditions within.now }
    ensures holds { IfOk result (IsStateOfRuns (world_of (forwarding_of datapath.now))) }
    ensures begins { IfOk result (λ case. IsFirstState case.state) }
    ensures within { IfOk result (λ case. AreMatched (world_of (forwarding_of datapath.now)) within.now case.frames) }
    ensures all { IfOk result (λ case. (frame : List ℕ) (port : ℕ) → IsReceivedAt (world_of (forwarding_of datapath.now)) frame port →
        matches_map within.now (received_fields frame port) ≡ true → InFrames case.frames frame port) }
{
    let inner = pops_tags(datapath) && !any_about_metadata(within);
    let frames = received_frames(alloc, datapath, inner)?;
    Ok(Case {
        frames: frames.matching(alloc, within)?,
        state: received_state(alloc)?,
    })
}

/// The paths of all frames that a switch receives and that conditions match, in classes (OpenFlow 1.3.5, 5.1): those whose steps differ only in which
/// entries are hit together, or each alone.
///
/// The runs of all frames take at most so many steps together, and each search for a frame as many. A set of frames is undecided only if all these steps
/// were taken, or if it is not known what its lookup finds, or if no frame of it was found.
pub fn paths<L: Lookup>(
    alloc: Global,
    datapath: &Datapath<L>,
    within: &[MatchField],
    merging: Merging,
    steps: usize,
) -> Result<Paths, AllocError>
    requires { AreConditions within.now }
    ensures { IfOk result (ArePaths merging (world_of (forwarding_of datapath.now)) within.now steps) }
{
    let mut found = Paths {
        classes: Vec::new(alloc),
        undecided: Vec::new(alloc),
    };
    let mut cases = Vec::new(alloc);
    cases.push(first_case(alloc, datapath, within)?)?;
    let mut left = steps;
    while left > 0 {
        let Some(case) = cases.pop() else {
            return Ok(found);
        };
        let next = step_case(alloc, datapath, case)?;
        put_next(
            alloc, datapath, merging, next, steps, &mut cases, &mut found,
        )?;
        left -= 1;
    }
    leave_undecided(cases, &mut found)?;
    Ok(found)
}
