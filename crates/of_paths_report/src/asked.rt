//! Which paths are asked for.
ghost use Rattle.std.specs.Prelude.{IfOk, None};
ghost use Rattle.of_datapath.specs.Datapath.{world_of};
ghost use Rattle.of_regions.specs.Conditions.{AreConditions};
ghost use Rattle.of_paths_report.specs.Asked.{AreAskedPaths, ArePathsFor};

use of_classifier::Lookup;
use of_oxm::MatchField;
use of_paths::{Destination, Merging, Paths, paths, paths_of_each_port, paths_of_port};
use of_switch::Switch;
use std::alloc::{AllocError, Global};

/// Which frames are divided, and which of their paths are told.
#[derive(Drop)]
pub struct Asked {
    /// The port by which they come in, if it is only one.
    pub port: Option<u32>,
    /// These conditions match them.
    pub within: Vec<MatchField>,
    pub merging: Merging,
    /// Only paths of frames that go there are told, if a place is asked for.
    pub to: Option<Destination>,
    /// How many steps the runs of all frames take together at most, and each search for a frame.
    pub steps: usize,
}

// The paths of the frames that come in by any port.
fn paths_of_all_ports<L: Lookup>(
    alloc: Global,
    switch: &Switch<L>,
    asked: &Asked,
) -> Result<Paths, AllocError>
    requires { AreConditions asked.now.within.items }
    ensures { IfOk result (ArePathsFor None asked.now.to asked.now.merging (world_of switch.now.core.forwarding) asked.now.within.items asked.now.steps) }
{
    let (datapath, merging, steps) = (switch.datapath(), asked.merging, asked.steps);
    match asked.to {
        None => paths(alloc, datapath, &asked.within, merging, steps),
        Some(_) => paths_of_each_port(alloc, datapath, &asked.within, merging, steps),
    }
}

/// The paths that are asked for.
pub fn asked_paths<L: Lookup>(
    alloc: Global,
    switch: &Switch<L>,
    asked: &Asked,
) -> Result<Paths, AllocError>
    requires { AreConditions asked.now.within.items }
    ensures { IfOk result (AreAskedPaths (world_of switch.now.core.forwarding) asked.now) }
{
    match asked.port {
        None => paths_of_all_ports(alloc, switch, asked),
        Some(port) => paths_of_port(
            alloc,
            switch.datapath(),
            port,
            &asked.within,
            asked.merging,
            asked.steps,
        ),
    }
}
