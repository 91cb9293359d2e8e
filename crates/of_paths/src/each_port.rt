//! The paths of the frames of each port.
ghost use Rattle.std.specs.Prelude.{◌≡◌, ◌++◌, ◌∷◌, [], ℕ, List, IfOk, OnOk};
ghost use Rattle.of_datapath.specs.{Datapath.world_of, Numbers.forwarding_of};
ghost use Rattle.of_regions.specs.Conditions.{AreConditions};
ghost use Rattle.of_symbolic_run.specs.PortNumbers.{came_in_by};
ghost use Rattle.of_paths.specs.{EachPort.ArePathsOfPorts, EachPort.receiving_numbers, Paths.ArePaths};

use crate::conditions::ingress_conditions;
use crate::dividing::paths;
use crate::path::{Merging, Paths};
use of_classifier::Lookup;
use of_datapath::Datapath;
use of_oxm::MatchField;
use of_ports::Port;
use std::alloc::{AllocError, Global};

// That a frame comes in by a port, and that conditions match it.
fn conditions_at(
    alloc: Global,
    port: u32,
    within: &[MatchField],
) -> Result<Vec<MatchField>, AllocError>
    requires { AreConditions within.now }
    ensures is { IfOk result (λ fields. fields.items ≡ came_in_by port ∷ within.now) }
    ensures conditions { IfOk result (λ fields. AreConditions fields.items) }
{
    let mut fields = ingress_conditions(alloc, Some(port))?;
    fields.extend_from_slice(within)?;
    Ok(fields)
}

/// The paths of all frames that come in by a port and that conditions match, as `paths` divides them.
pub fn paths_of_port<L: Lookup>(
    alloc: Global,
    datapath: &Datapath<L>,
    port: u32,
    within: &[MatchField],
    merging: Merging,
    steps: usize,
) -> Result<Paths, AllocError>
    requires { AreConditions within.now }
    ensures { IfOk result (ArePaths merging (world_of (forwarding_of datapath.now)) (came_in_by port ∷ within.now) steps) }
{
    let fields = conditions_at(alloc, port, within)?;
    paths(alloc, datapath, &fields, merging, steps)
}

// Appends the paths of the frames of a port, if it receives.
fn put_port<L: Lookup>(
    alloc: Global,
    datapath: &Datapath<L>,
    port: &Port,
    within: &[MatchField],
    merging: Merging,
    steps: usize,
    found: &mut Paths,
) -> Result<(), AllocError>
    requires { AreConditions within.now }
    ensures { OnOk result ((ports : List ℕ) →
        ArePathsOfPorts merging (world_of (forwarding_of datapath.now)) within.now steps ports found.old.classes.items found.old.undecided.items →
        ArePathsOfPorts merging (world_of (forwarding_of datapath.now)) within.now steps (ports ++ receiving_numbers (port.now ∷ []))
        found.new.classes.items found.new.undecided.items) }
{
    if !port.may_receive() {
        return Ok(());
    }
    let mut own = paths_of_port(alloc, datapath, port.number, within, merging, steps)?;
    found.classes.append(&mut own.classes)?;
    found.undecided.append(&mut own.undecided)?;
    Ok(())
}

/// The paths of all frames that a switch receives and that conditions match, for each port that receives apart: frames of one class come in by one port,
/// so they go to the same places.
pub fn paths_of_each_port<L: Lookup>(
    alloc: Global,
    datapath: &Datapath<L>,
    within: &[MatchField],
    merging: Merging,
    steps: usize,
) -> Result<Paths, AllocError>
    requires { AreConditions within.now }
    ensures { IfOk result (λ found. ArePathsOfPorts merging (world_of (forwarding_of datapath.now)) within.now steps
        (receiving_numbers (world_of (forwarding_of datapath.now)).ports) found.classes.items found.undecided.items) }
{
    let mut found = Paths {
        classes: Vec::new(alloc),
        undecided: Vec::new(alloc),
    };
    for port in datapath.port_list() {
        put_port(alloc, datapath, port, within, merging, steps, &mut found)?;
    }
    Ok(found)
}
