//! What comes of a pair of states if both runs are done, or go on alike.
ghost use Rattle.std.specs.Prelude.{◌≡◌, ◌≢◌, ◌≤◌, [], ◌∷◌, ℕ, IfOk, length};
ghost use Rattle.of_rewrite.specs.Frames.{IsFrame};
ghost use Rattle.of_datapath.specs.{Datapath.world_of, Numbers.forwarding_of};
ghost use Rattle.of_machine.specs.TheWorld.{TheWorld};
ghost use Rattle.of_regions.specs.Conditions.{AreConditions};
ghost use Rattle.of_symbolic_run.specs.{FrameSets.InFrames, PortNumbers.IsReceivingPort, Received.AreReceived};
ghost use Rattle.of_alike.specs.{SamePorts.SamePorts, declared.alike.Compared.Compared as WhatIsCompared};
ghost use Rattle.of_diff.specs.{declared.pair.Pair.Pair as ThePair, Reasons.AreSettled, Reasons.IsReasonOfPair, Reasons.SomeIsAlike, Shown.IsShown, Shown.TriedIs, SoFar.NextIs};

use crate::difference::{Difference, EmittedByBoth, Undecided, Why};
use crate::pair::{Next, Pair};
use crate::revealing::revealing;
use of_alike::{Compared, Where, first_difference};
use of_classifier::Lookup;
use of_datapath::Datapath;
use of_machine::{Items, NoLog};
use of_oxm::MatchField;
use of_symbolic_run::{FrameFound, FrameSet};
use std::alloc::{AllocError, Global};

/// A frame for which something else leaves, and where.
#[derive(Drop)]
pub struct FrameShown {
    pub frame: Vec<u8>,
    pub in_port: u32,
    pub at: Where,
    /// What leaves the first switch.
    pub first: Items,
    /// What leaves the second switch.
    pub second: Items,
}

/// What comes of a search for a frame of a set, which runs on both switches.
#[derive(Drop)]
pub enum Tried {
    Shown(FrameShown),
    /// There is no frame.
    Empty,
    /// No frame was found for which something else leaves.
    Undecided(Why),
}

/// It is not known whether these frames are treated alike.
pub fn not_decided<'a>(frames: FrameSet, why: Why) -> Next<'a>
    ensures { (c : WhatIsCompared) (w v : TheWorld) (steps : ℕ) (old : ThePair) → old.frames ≡ frames →
        ((taken : ℕ) → IsReasonOfPair c w v steps taken old why) → NextIs c w v steps old result }
{
    Next::Undecided(Undecided { frames, why })
}

// These frames as one set.
fn one_set(alloc: Global, frames: FrameSet) -> Result<Vec<FrameSet>, AllocError>
    ensures { IfOk result (λ sets. sets.items ≡ frames ∷ []) }
{
    let mut sets = Vec::new(alloc);
    sets.push(frames)?;
    Ok(sets)
}

// Something else leaves for a frame of the pair.
fn differs<'a>(alloc: Global, pair: Pair<'a>, shown: FrameShown) -> Result<Next<'a>, AllocError>
    ensures { IfOk result (λ next. (c : WhatIsCompared) (w v : TheWorld) (steps : ℕ) → IsShown c w v pair.entry.frames shown →
        NextIs c w v steps pair.entry next) }
{
    let Pair {
        frames,
        first: one,
        second: other,
    } = pair;
    let FrameShown {
        frame,
        in_port,
        at,
        first,
        second,
    } = shown;
    Ok(Next::Differs(Difference {
        sets: one_set(alloc, frames)?,
        emitted: EmittedByBoth {
            first: one.emitted,
            second: other.emitted,
        },
        frame,
        in_port,
        at,
        first,
        second,
    }))
}

// A frame of a set runs on both switches.
fn run_both<L: Lookup>(
    alloc: Global,
    first: &Datapath<L>,
    second: &Datapath<L>,
    compared: Compared,
    frames: &FrameSet,
    frame: Vec<u8>,
    in_port: u32,
) -> Result<Tried, AllocError>
    requires frame_is { IsFrame frame.items }
    requires short { length frame.items ≤ 9216 }
    requires within { InFrames frames.now frame.items in_port }
    requires first { IsReceivingPort (world_of (forwarding_of first.now)).ports in_port }
    requires second { IsReceivingPort (world_of (forwarding_of second.now)).ports in_port }
    ensures { IfOk result (λ tried. (steps : ℕ) →
        TriedIs compared (world_of (forwarding_of first.now)) (world_of (forwarding_of second.now)) steps frames.now tried) }
{
    let left = first.received_items(alloc, in_port, &frame, &mut NoLog)?;
    let right = second.received_items(alloc, in_port, &frame, &mut NoLog)?;
    match first_difference(alloc, compared, &left, &right)? {
        None => Ok(Tried::Undecided(Why::OtherActions)),
        Some(at) => Ok(Tried::Shown(FrameShown {
            frame,
            in_port,
            at,
            first: left,
            second: right,
        })),
    }
}

// A frame of a set is searched, in so many steps at most, and runs on both switches.
fn try_frame<L: Lookup>(
    alloc: Global,
    first: &Datapath<L>,
    second: &Datapath<L>,
    compared: Compared,
    frames: &FrameSet,
    steps: usize,
) -> Result<Tried, AllocError>
    requires ports { SamePorts first.now.ports second.now.ports }
    requires received { AreReceived (world_of (forwarding_of first.now)).ports frames.now }
    ensures { IfOk result (TriedIs compared (world_of (forwarding_of first.now)) (world_of (forwarding_of second.now)) steps frames.now) }
{
    match frames.find(alloc, steps)? {
        FrameFound::Frame { frame, in_port } => {
            run_both(alloc, first, second, compared, frames, frame, in_port)
        }
        FrameFound::Empty => Ok(Tried::Empty),
        FrameFound::Undecided => Ok(Tried::Undecided(Why::Search)),
    }
}

// A frame of the set that a condition matches.
fn try_frame_with<L: Lookup>(
    alloc: Global,
    first: &Datapath<L>,
    second: &Datapath<L>,
    compared: Compared,
    frames: &FrameSet,
    condition: MatchField,
    steps: usize,
) -> Result<Tried, AllocError>
    requires ports { SamePorts first.now.ports second.now.ports }
    requires received { AreReceived (world_of (forwarding_of first.now)).ports frames.now }
    requires alike { SomeIsAlike compared (world_of (forwarding_of first.now)) (world_of (forwarding_of second.now)) frames.now }
    requires condition { AreConditions (condition ∷ []) }
    ensures { IfOk result (TriedIs compared (world_of (forwarding_of first.now)) (world_of (forwarding_of second.now)) steps frames.now) }
{
    let some = frames.matching(alloc, &[condition])?;
    match try_frame(alloc, first, second, compared, &some, steps)? {
        Tried::Shown(shown) => Ok(Tried::Shown(shown)),
        Tried::Empty | Tried::Undecided(_) => Ok(Tried::Undecided(Why::OtherActions)),
    }
}

// A frame of the set that one of these conditions matches.
fn try_conditions<L: Lookup>(
    alloc: Global,
    first: &Datapath<L>,
    second: &Datapath<L>,
    compared: Compared,
    frames: &FrameSet,
    conditions: &[MatchField],
    steps: usize,
) -> Result<Tried, AllocError>
    requires ports { SamePorts first.now.ports second.now.ports }
    requires received { AreReceived (world_of (forwarding_of first.now)).ports frames.now }
    requires alike { SomeIsAlike compared (world_of (forwarding_of first.now)) (world_of (forwarding_of second.now)) frames.now }
    requires conditions { AreConditions conditions.now }
    ensures { IfOk result (TriedIs compared (world_of (forwarding_of first.now)) (world_of (forwarding_of second.now)) steps frames.now) }
{
    for condition in conditions {
        let tried = try_frame_with(alloc, first, second, compared, frames, *condition, steps)?;
        if let Tried::Shown(shown) = tried {
            return Ok(Tried::Shown(shown));
        }
    }
    Ok(Tried::Undecided(Why::OtherActions))
}

// Any frame of the set, and if nothing else leaves for it, one that came in by this port, or one that the actions of the two runs change.
fn try_frames<L: Lookup>(
    alloc: Global,
    first: &Datapath<L>,
    second: &Datapath<L>,
    compared: Compared,
    pair: &Pair<'_>,
    ingress: u32,
    steps: usize,
) -> Result<Tried, AllocError>
    requires ports { SamePorts first.now.ports second.now.ports }
    requires received { AreReceived (world_of (forwarding_of first.now)).ports pair.now.frames }
    ensures { IfOk result (TriedIs compared (world_of (forwarding_of first.now)) (world_of (forwarding_of second.now)) steps pair.now.frames) }
{
    match try_frame(alloc, first, second, compared, &pair.frames, steps)? {
        Tried::Undecided(Why::OtherActions) => {
            let conditions = revealing(alloc, pair, ingress)?;
            let frames = &pair.frames;
            try_conditions(alloc, first, second, compared, frames, &conditions, steps)
        }
        tried => Ok(tried),
    }
}

/// A frame of the pair is searched, in so many steps at most, and runs on both switches. If nothing else leaves for it, so does one that came in by the
/// ingress port, for which the runs sent something else, and then frames that the actions of the runs change.
pub fn try_pair<'a, L: Lookup>(
    alloc: Global,
    first: &Datapath<L>,
    second: &Datapath<L>,
    compared: Compared,
    pair: Pair<'a>,
    ingress: u32,
    steps: usize,
) -> Result<Next<'a>, AllocError>
    requires ports { SamePorts first.now.ports second.now.ports }
    requires received { AreReceived (world_of (forwarding_of first.now)).ports pair.frames }
    requires settled { AreSettled (world_of (forwarding_of first.now)) (world_of (forwarding_of second.now)) pair }
    requires differ { pair.first.emitted.items ≢ pair.second.emitted.items }
    ensures { IfOk result (NextIs compared (world_of (forwarding_of first.now)) (world_of (forwarding_of second.now)) steps pair.entry) }
{
    match try_frames(alloc, first, second, compared, &pair, ingress, steps)? {
        Tried::Shown(shown) => differs(alloc, pair, shown),
        Tried::Empty => Ok(Next::Alike),
        Tried::Undecided(why) => Ok(not_decided(pair.frames, why)),
    }
}
