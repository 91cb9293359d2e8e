//! The frames that a switch receives.
ghost use Rattle.std.specs.Prelude.{◌≡◌, ℕ, List, IfOk};
ghost use Rattle.of_datapath.specs.{Datapath.world_of, Numbers.forwarding_of};
ghost use Rattle.of_symbolic_run.specs.{FrameSets.InFrames, Received.AreReceived, Received.IsReceivedAt};

use crate::FrameSet;
use crate::ports::absent_ports;
use of_classifier::Lookup;
use of_datapath::Datapath;
use std::alloc::{AllocError, Global};

/// All frames that come in by a port that receives, and no frame by another (OpenFlow 1.3.5, 4.1), described with their inner tags or without.
pub fn received_frames<L: Lookup>(
    alloc: Global,
    datapath: &Datapath<L>,
    inner: bool,
) -> Result<FrameSet, AllocError>
    ensures all { IfOk result (λ frames. (frame : List ℕ) (port : ℕ) →
        IsReceivedAt (world_of (forwarding_of datapath.now)) frame port → InFrames frames frame port) }
    ensures inner { IfOk result (λ frames. frames.inner ≡ inner) }
    ensures received { IfOk result (AreReceived (world_of (forwarding_of datapath.now)).ports) }
{
    datapath.known_world();
    let absent = absent_ports(alloc, datapath.port_list())?;
    let mut frames = FrameSet::whole(alloc, inner)?;
    for index in 0..absent.len() {
        frames = frames.without(alloc, &absent[index])?;
    }
    Ok(frames)
}
