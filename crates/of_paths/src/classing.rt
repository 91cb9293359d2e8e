//! Paths are put into classes.
ghost use Rattle.std.specs.Prelude.{◌≡◌, ◌≤◌, ◌++◌, ◌∷◌, [], ℕ, OnOk, length};
ghost use Rattle.of_rewrite.specs.Frames.{IsFrame};
ghost use Rattle.of_datapath.specs.{Datapath.world_of, Numbers.forwarding_of};
ghost use Rattle.of_symbolic_run.specs.{FrameSets.InFrames, PortNumbers.IsReceivingPort, Received.AreReceived};
ghost use Rattle.of_paths.specs.{declared.path.Merging.TheVariants.SameWay, declared.path.WhyUndecided.TheVariants.Search, SoFar.PutsAlone, SoFar.PutsPath};

use crate::path::{Merging, Path, PathClass, Paths, UndecidedFrames, WhyUndecided};
use crate::ways::place_of_way;
use of_classifier::Lookup;
use of_datapath::Datapath;
use of_machine::NoLog;
use of_symbolic_run::{FrameFound, FrameSet};
use std::alloc::{AllocError, Global};

// No frame of the path is known that the switch receives.
fn push_unfound(frames: FrameSet, found: &mut Paths) -> Result<(), AllocError>
    ensures classes { found.new.classes ≡ found.old.classes }
    ensures undecided { OnOk result (found.new.undecided.items ≡ found.old.undecided.items ++ record { frames = frames; why = Search } ∷ []) }
{
    found.undecided.push(UndecidedFrames {
        frames,
        why: WhyUndecided::Search,
    })?;
    Ok(())
}

// A class for a path alone: a frame of the path runs.
fn push_class<L: Lookup>(
    alloc: Global,
    datapath: &Datapath<L>,
    path: Path,
    frame: Vec<u8>,
    in_port: u32,
    found: &mut Paths,
) -> Result<(), AllocError>
    requires frame_is { IsFrame frame.items }
    requires short { length frame.items ≤ 9216 }
    requires within { InFrames path.frames frame.items in_port }
    requires receives { IsReceivingPort (world_of (forwarding_of datapath.now)).ports in_port }
    ensures { OnOk result ((steps : ℕ) → PutsAlone (world_of (forwarding_of datapath.now)) steps path found.old found.new) }
{
    let items = datapath.received_items(alloc, in_port, &frame, &mut NoLog)?;
    let mut paths = Vec::new(alloc);
    paths.push(path)?;
    found.classes.push(PathClass {
        paths,
        frame,
        in_port,
        items,
    })?;
    Ok(())
}

// A class for a path alone, with a frame of it, which is searched in so many steps at most.
fn put_alone<L: Lookup>(
    alloc: Global,
    datapath: &Datapath<L>,
    path: Path,
    steps: usize,
    found: &mut Paths,
) -> Result<(), AllocError>
    requires { AreReceived (world_of (forwarding_of datapath.now)).ports path.frames }
    ensures { OnOk result (PutsAlone (world_of (forwarding_of datapath.now)) steps path found.old found.new) }
{
    match path.frames.find(alloc, steps)? {
        FrameFound::Frame { frame, in_port } => {
            push_class(alloc, datapath, path, frame, in_port, found)
        }
        FrameFound::Empty => Ok(()),
        FrameFound::Undecided => push_unfound(path.frames, found),
    }
}

// Puts a path into the class of its way, without a search, or into a new one.
fn put_merged<L: Lookup>(
    alloc: Global,
    datapath: &Datapath<L>,
    path: Path,
    steps: usize,
    found: &mut Paths,
) -> Result<(), AllocError>
    requires { AreReceived (world_of (forwarding_of datapath.now)).ports path.frames }
    ensures { OnOk result (PutsPath SameWay (world_of (forwarding_of datapath.now)) steps path found.old found.new) }
{
    match place_of_way(&found.classes, &path.steps) {
        Some(place) => {
            found.classes[place].paths.push(path)?;
            Ok(())
        }
        None => put_alone(alloc, datapath, path, steps, found),
    }
}

/// Puts a path into the class of its way, if sets of one way are merged, or into a new class with a frame of it that runs. A path that needs a frame
/// and has none is dropped.
pub fn put_path<L: Lookup>(
    alloc: Global,
    datapath: &Datapath<L>,
    merging: Merging,
    path: Path,
    steps: usize,
    found: &mut Paths,
) -> Result<(), AllocError>
    requires { AreReceived (world_of (forwarding_of datapath.now)).ports path.frames }
    ensures { OnOk result (PutsPath merging (world_of (forwarding_of datapath.now)) steps path found.old found.new) }
{
    match merging {
        Merging::SameWay => put_merged(alloc, datapath, path, steps, found),
        Merging::Each => put_alone(alloc, datapath, path, steps, found),
    }
}
