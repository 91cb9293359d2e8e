//! Whether a switch meets a requirement.
ghost use Rattle.std.specs.Prelude.{◌≡◌, ◌∷◌, ◌++◌, [], ℕ, List, IfNone, IfOk, IfSome, false, not, true};
ghost use Rattle.std.specs.List.{Contains};
ghost use Rattle.of_datapath.specs.{Datapath.world_of, Numbers.forwarding_of};
ghost use Rattle.of_machine.specs.TheWorld.{TheWorld};
ghost use Rattle.of_paths.specs.declared.path.PathClass.{PathClass as APathClass};
ghost use Rattle.of_require.specs.Deciding.{IsDecisionFor, IsShownOf, IsSoughtInClass, IsSoughtInClasses, IsSoughtInEach, class_decides as decided_by_class, found_so_far, is_plain, none_leaves as none_leaves_by};
ghost use Rattle.of_require.specs.{Decisions.IsDecision, Decisions.verdict_by, Requirements.is_leaving as is_leaving_by, declared.requirement.Requirement.Requirement as ARequirement};

use crate::doing::{decides, is_leaving};
use crate::packets::seek_in_path;
use crate::requirement::{Demand, Quantifier, Requirement};
use of_classifier::Lookup;
use of_datapath::Datapath;
use of_machine::Items;
use of_oxm::Match;
use of_paths::{Merging, PathClass, Paths, paths_of_port};
use of_symbolic_run::receiving_port;
use std::alloc::{AllocError, Global};

/// A frame, the port at which it was received, and what its run emits.
#[derive(Drop)]
pub struct Shown {
    pub frame: Vec<u8>,
    pub in_port: u32,
    pub items: Items,
}

/// What is found about a requirement.
#[derive(Drop)]
pub enum Decision {
    /// This frame decides it: it does not do what each frame is to do, or it does what no frame is to do or what some frame is to do.
    Frame(Shown),
    /// No frame does.
    NoFrame,
    /// No frame does, since the conditions match no frame that the switch receives.
    NoneMatches,
    /// It is not known of all frames that come in by this port.
    Undecided(u32),
}

// What is found among some frames.
#[derive(Drop)]
pub enum Sought {
    // This one decides the requirement.
    Frame(Shown),
    // None does.
    NoFrame,
    // It is not known of all.
    Undecided,
}

/// Whether a switch meets a requirement.
#[derive(Clone, Copy, PartialEq, Eq)]
pub enum Verdict {
    Holds,
    Fails,
    Undecided,
}

// Whether the frames of a class decide a requirement.
fn class_decides(requirement: &Requirement, class: &PathClass) -> bool
    ensures { result ≡ decided_by_class requirement.now class.now }
{
    match class.paths.as_slice() {
        [] => false,
        [path, ..] => decides(requirement, class.in_port, &path.steps, &class.items),
    }
}

// The frame of the first class whose frames decide a requirement.
fn deciding_frame(requirement: &Requirement, classes: Vec<PathClass>) -> Option<Shown>
    ensures some { IfSome result (λ shown. (class : APathClass) × Contains classes.items class × IsShownOf requirement.now class shown) }
    ensures none { IfNone result ((class : APathClass) → Contains classes.items class → decided_by_class requirement.now class ≡ false) }
{
    for class in classes {
        if class_decides(requirement, &class) {
            let PathClass {
                frame,
                in_port,
                items,
                ..
            } = class;
            return Some(Shown {
                frame,
                in_port,
                items,
            });
        }
    }
    None
}

// A frame of a class that decides a requirement about fields of what leaves.
fn seek_in_class<L: Lookup>(
    alloc: Global,
    datapath: &Datapath<L>,
    requirement: &Requirement,
    fields: &Match,
    class: PathClass,
    steps: usize,
) -> Result<Sought, AllocError>
    ensures { IfOk result (IsSoughtInClass (world_of (forwarding_of datapath.now)) requirement.now fields.now steps class) }
{
    if !is_leaving(&requirement.demand, &class.items) {
        return Ok(Sought::NoFrame);
    }
    let mut paths = class.paths;
    match paths.pop() {
        None => Ok(Sought::NoFrame),
        Some(path) => {
            let sought = seek_in_path(alloc, datapath, requirement, fields, path, steps)?;
            Ok(sought)
        }
    }
}

// What was found if no frame decides so far: it is known of all, or not.
pub(crate) fn sought_so_far(is_known: bool) -> Sought
    ensures { result ≡ found_so_far is_known }
{
    if is_known {
        Sought::NoFrame
    } else {
        Sought::Undecided
    }
}

// A frame of some classes that decides a requirement about fields of what leaves.
fn seek_packets<L: Lookup>(
    alloc: Global,
    datapath: &Datapath<L>,
    requirement: &Requirement,
    fields: &Match,
    classes: Vec<PathClass>,
    steps: usize,
) -> Result<Sought, AllocError>
    ensures { IfOk result (IsSoughtInEach (world_of (forwarding_of datapath.now)) requirement.now fields.now steps classes.items) }
{
    let mut is_known = true;
    for class in classes {
        match seek_in_class(alloc, datapath, requirement, fields, class, steps)? {
            Sought::NoFrame => {}
            Sought::Undecided => is_known = false,
            Sought::Frame(shown) => return Ok(Sought::Frame(shown)),
        }
    }
    Ok(sought_so_far(is_known))
}

// A frame of some classes, which come in by one port, that decides a requirement that asks no fields: the frames that were run show it.
fn sought_among(requirement: &Requirement, classes: Vec<PathClass>) -> Sought
    ensures { (w : TheWorld) (steps : ℕ) → is_plain requirement.now.demand ≡ true → IsSoughtInClasses w requirement.now steps classes.items result }
{
    match deciding_frame(requirement, classes) {
        Some(shown) => Sought::Frame(shown),
        None => Sought::NoFrame,
    }
}

// A frame of some classes, which come in by one port, that decides a requirement.
fn seek<L: Lookup>(
    alloc: Global,
    datapath: &Datapath<L>,
    requirement: &Requirement,
    classes: Vec<PathClass>,
    steps: usize,
) -> Result<Sought, AllocError>
    ensures { IfOk result (IsSoughtInClasses (world_of (forwarding_of datapath.now)) requirement.now steps classes.items) }
{
    match &requirement.demand {
        Demand::Has { fields, .. } => {
            let sought = seek_packets(alloc, datapath, requirement, fields, classes, steps)?;
            Ok(sought)
        }
        Demand::LeavesBy(_) => Ok(sought_among(requirement, classes)),
        Demand::LeavesOnlyBy(_) => Ok(sought_among(requirement, classes)),
        Demand::PassesTable(_) => Ok(sought_among(requirement, classes)),
    }
}

fn leaves(requirement: &Requirement, class: &PathClass) -> bool
    ensures { result ≡ is_leaving_by requirement.now.demand class.now.items.items }
{
    is_leaving(&requirement.demand, &class.items)
}

// Whether no class has a frame that the requirement is about.
fn none_leaves(requirement: &Requirement, classes: &[PathClass]) -> bool
    ensures { result ≡ none_leaves_by requirement.now classes.now }
{
    classes.iter().all(|class| !leaves(requirement, class))
}

// What is found of the frames that come in by a port. They are divided by their steps, and each set of frames has a frame that was run: what the others
// do, and by which ports they leave, is the same.
fn decide_at<L: Lookup>(
    alloc: Global,
    datapath: &Datapath<L>,
    requirement: &Requirement,
    port: u32,
    steps: usize,
) -> Result<Decision, AllocError>
    ensures { IfOk result (IsDecisionFor (port ∷ []) (world_of (forwarding_of datapath.now)) requirement.now steps) }
{
    if !receiving_port(datapath.port_list(), port) {
        return Ok(Decision::NoneMatches);
    }
    let Paths { classes, undecided } = paths_of_port(
        alloc,
        datapath,
        port,
        &requirement.within,
        Merging::Each,
        steps,
    )?;
    let none_matches = none_leaves(requirement, &classes);
    let sought = seek(alloc, datapath, requirement, classes, steps)?;
    match sought {
        Sought::Frame(shown) => return Ok(Decision::Frame(shown)),
        Sought::Undecided => return Ok(Decision::Undecided(port)),
        Sought::NoFrame => {}
    }
    if !undecided.is_empty() {
        return Ok(Decision::Undecided(port));
    }
    if none_matches {
        Ok(Decision::NoneMatches)
    } else {
        Ok(Decision::NoFrame)
    }
}

// What is found of the frames that come in by the ports of the one or of the other.
fn joined(so_far: Decision, next: Decision) -> Decision
    ensures { (ports others : List ℕ) (w : TheWorld) (r : ARequirement) (steps : ℕ) → IsDecisionFor ports w r steps so_far →
        IsDecisionFor others w r steps next → IsDecisionFor (ports ++ others) w r steps result }
{
    match so_far {
        Decision::Frame(shown) => Decision::Frame(shown),
        Decision::Undecided(port) => match next {
            Decision::Frame(shown) => Decision::Frame(shown),
            _ => Decision::Undecided(port),
        },
        Decision::NoneMatches => next,
        Decision::NoFrame => match next {
            Decision::NoneMatches => Decision::NoFrame,
            other => other,
        },
    }
}

/// Whether a frame decides a requirement that a switch receives (OpenFlow 1.3.5, 5.1). For each port the runs of all frames take at most so many steps
/// together, and each search for a frame as many.
///
/// Err: out of memory.
pub fn decide<L: Lookup>(
    alloc: Global,
    datapath: &Datapath<L>,
    requirement: &Requirement,
    steps: usize,
) -> Result<Decision, AllocError>
    ensures { IfOk result (IsDecision (world_of (forwarding_of datapath.now)) requirement.now steps) }
{
    let mut so_far = Decision::NoneMatches;
    for port in datapath.port_list() {
        match decide_at(alloc, datapath, requirement, port.number, steps)? {
            Decision::Frame(shown) => return Ok(Decision::Frame(shown)),
            next => so_far = joined(so_far, next),
        }
    }
    Ok(so_far)
}

impl Decision {
    /// Whether the requirement is met.
    pub fn verdict(&self, quantifier: Quantifier) -> Verdict
        ensures { result ≡ verdict_by quantifier self.now }
    {
        let by_frame = match self {
            Decision::Undecided(_) => return Verdict::Undecided,
            Decision::Frame(_) => true,
            Decision::NoFrame | Decision::NoneMatches => false,
        };
        if by_frame == (quantifier == Quantifier::AtLeastOne) {
            Verdict::Holds
        } else {
            Verdict::Fails
        }
    }
}
