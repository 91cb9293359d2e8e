//! Frames that make packets have some fields, or lack them, when they leave.
ghost use Rattle.std.specs.Prelude.{◌≡◌, IfNone, IfOk, IfSome, OnOk};
ghost use Rattle.of_regions.specs.Conditions.{AreConditions};
ghost use Rattle.of_datapath.specs.{Datapath.world_of, Numbers.forwarding_of};
ghost use Rattle.of_symbolic.specs.{Parts.AreListsOfConditions, Pulling.AsksConditions, declared.pulling.Pulled.TheVariants.Unknown};
ghost use Rattle.of_require.specs.Deciding.{AreDivided, AreDividedByAll, IsSoughtInPath, IsSoughtInSet, IsSoughtInSets};
ghost use Rattle.of_require.specs.Packets.{AreAsked, IsAskedBy, IsUnknownPacket, SomeUnknown, packet_actions as rewrites_in};

use crate::deciding::{Shown, Sought, sought_so_far};
use crate::doing::decides;
use crate::requirement::Requirement;
use of_classifier::Lookup;
use of_datapath::Datapath;
use of_machine::{NoLog, Step};
use of_oxm::{Match, MatchField};
use of_paths::Path;
use of_symbolic::{Pulled, pull, pulled_matches_are_of_frames, rewritten_frames_have_views};
use of_symbolic_run::{Emission, FrameFound, FrameSet, Rewrites};
use std::alloc::{AllocError, Global};

fn rewrites_of(e: &Emission) -> &Rewrites
    ensures { result.now ≡ rewrites_in e.now }
{
    match e {
        Emission::Output { packet, .. } | Emission::InvalidTtl(packet) => &packet.rewrites,
    }
}

// What it asks of the frame that came in that its packet has the fields.
fn asked_by(alloc: Global, e: &Emission, fields: &Match, inner: bool) -> Result<Pulled, AllocError>
    ensures is { IfOk result (IsAskedBy inner fields.now e.now) }
    ensures conditions { IfOk result AsksConditions }
    ensures unknown { IfOk result (λ asked. asked ≡ Unknown → IsUnknownPacket inner fields.now e.now) }
{
    let rewrites = rewrites_of(e);
    rewrites.known();
    rewritten_frames_have_views();
    pulled_matches_are_of_frames();
    let overlay = rewrites.overlay(alloc, inner)?;
    let asked = pull(alloc, &overlay, 0, fields)?;
    Ok(asked)
}

// The conditions that the packets of a path ask, if all are known.
fn all_asked(
    alloc: Global,
    emitted: &[Emission],
    fields: &Match,
    inner: bool,
) -> Result<Option<Vec<Vec<MatchField>>>, AllocError>
    ensures known { IfOk result (λ asked. IfSome asked (λ lists. AreAsked inner fields.now emitted.now lists.items)) }
    ensures conditions { IfOk result (λ asked. IfSome asked (λ lists. AreListsOfConditions lists.items)) }
    ensures unknown { IfOk result (λ asked. IfNone asked (SomeUnknown inner fields.now emitted.now)) }
{
    let mut lists = Vec::new(alloc);
    for e in emitted {
        match asked_by(alloc, e, fields, inner)? {
            Pulled::Never => {}
            Pulled::Unknown => return Ok(None),
            Pulled::When(asked) => lists.push(asked)?,
        }
    }
    Ok(Some(lists))
}

// All frames of these sets, by whether conditions match.
fn divide(
    alloc: Global,
    sets: Vec<FrameSet>,
    fields: &Vec<MatchField>,
) -> Result<Vec<FrameSet>, AllocError>
    requires { AreConditions fields.now.items }
    ensures { IfOk result (λ divided. AreDivided fields.now.items sets.items divided.items) }
{
    let mut divided = Vec::new(alloc);
    for set in sets {
        divided.push(set.matching(alloc, fields)?)?;
        divided.push(set.without(alloc, fields)?)?;
    }
    Ok(divided)
}

// All frames of a set, by whether each of these lists of conditions matches.
fn divide_by_all(
    alloc: Global,
    frames: FrameSet,
    lists: &[Vec<MatchField>],
) -> Result<Vec<FrameSet>, AllocError>
    requires { AreListsOfConditions lists.now }
    ensures { IfOk result (λ divided. AreDividedByAll lists.now frames divided.items) }
{
    let mut sets = Vec::new(alloc);
    sets.push(frames)?;
    for fields in lists {
        sets = divide(alloc, sets, fields)?;
    }
    Ok(sets)
}

// Searches for a frame of a set, whose frames take these steps, and runs it.
fn seek_in_set<L: Lookup>(
    alloc: Global,
    datapath: &Datapath<L>,
    requirement: &Requirement,
    lines: &[Step],
    set: &FrameSet,
    steps: usize,
) -> Result<Sought, AllocError>
    ensures { IfOk result (IsSoughtInSet (world_of (forwarding_of datapath.now)) requirement.now lines.now steps set.now) }
{
    match set.find(alloc, steps)? {
        FrameFound::Empty => Ok(Sought::NoFrame),
        FrameFound::Undecided => Ok(Sought::Undecided),
        FrameFound::Frame { frame, in_port } => {
            let items = datapath.received_items(alloc, in_port, &frame, &mut NoLog)?;
            if !decides(requirement, in_port, lines, &items) {
                return Ok(Sought::NoFrame);
            }
            Ok(Sought::Frame(Shown {
                frame,
                in_port,
                items,
            }))
        }
    }
}

// The first of these sets that has a frame that decides.
fn seek_in_sets<L: Lookup>(
    alloc: Global,
    datapath: &Datapath<L>,
    requirement: &Requirement,
    lines: &[Step],
    sets: &[FrameSet],
    steps: usize,
) -> Result<Sought, AllocError>
    ensures { IfOk result (IsSoughtInSets (world_of (forwarding_of datapath.now)) requirement.now lines.now steps sets.now) }
{
    let mut is_known = true;
    for set in sets {
        match seek_in_set(alloc, datapath, requirement, lines, set, steps)? {
            Sought::NoFrame => {}
            Sought::Undecided => is_known = false,
            Sought::Frame(shown) => return Ok(Sought::Frame(shown)),
        }
    }
    Ok(sought_so_far(is_known))
}

/// A frame of a path, whose packets have these fields or lack them, that decides a requirement that demands them. The search for each takes so many
/// steps at most.
pub fn seek_in_path<L: Lookup>(
    alloc: Global,
    datapath: &Datapath<L>,
    requirement: &Requirement,
    fields: &Match,
    path: Path,
    steps: usize,
) -> Result<Sought, AllocError>
    ensures { IfOk result (IsSoughtInPath (world_of (forwarding_of datapath.now)) requirement.now fields.now steps path) }
{
    let Path {
        frames,
        steps: lines,
        emitted,
    } = path;
    let Some(lists) = all_asked(alloc, &emitted, fields, frames.inner)? else {
        return Ok(Sought::Undecided);
    };
    let sets = divide_by_all(alloc, frames, &lists)?;
    let sought = seek_in_sets(alloc, datapath, requirement, &lines, &sets, steps)?;
    Ok(sought)
}
