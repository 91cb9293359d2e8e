//! The verdicts on flows.
ghost use Rattle.std.specs.Prelude.{◌≡◌, ◌<◌, ℕ, Some, IfOk, slice_get};
ghost use Rattle.of_shadowing.specs.Shadows.{AreFlowRivals, AreVerdicts, FlowCovers, FlowVerdictHolds};

use crate::listed_flow::ListedFlow;
use crate::rivals::{first_cover, rivals_of};
use crate::ties::is_tied;
use of_check::{Finding, Verdict};
use of_oxm::{covered_is_matched, overlap_is_common_match};
use of_regions::{Found, Packet, Rival, search};
use std::alloc::{AllocError, Global};

// One flow covers the one at a place.
fn covered_by(
    alloc: Global,
    flows: &[ListedFlow],
    place: usize,
    own: &ListedFlow,
    at: usize,
) -> Result<Verdict, AllocError>
    requires there { slice_get flows.now place ≡ Some own.now }
    requires covers { FlowCovers flows.now at place }
    ensures { IfOk result (λ verdict. (steps : ℕ) → FlowVerdictHolds flows.now place steps verdict) }
{
    covered_is_matched();
    let mut by = Vec::new(alloc);
    by.push(at)?;
    let tie = is_tied(flows, place, own, &by);
    Ok(Verdict::Never { by, tie })
}

// The verdict on a flow that no one flow covers.
fn searched(
    alloc: Global,
    flows: &[ListedFlow],
    place: usize,
    own: &ListedFlow,
    rivals: &[Rival<'_>],
    steps: usize,
) -> Result<Verdict, AllocError>
    requires there { slice_get flows.now place ≡ Some own.now }
    requires are { AreFlowRivals flows.now place own.now rivals.now }
    requires uncovered { (j : ℕ) → ¬ (FlowCovers flows.now j place) }
    ensures { IfOk result (FlowVerdictHolds flows.now place steps) }
{
    overlap_is_common_match();
    match search(alloc, &own.fields, rivals, steps)? {
        Found::Free(
            Packet {
                frame,
                in_port,
                metadata,
            },
        ) => Ok(Verdict::Wins {
            frame,
            in_port,
            metadata,
        }),
        Found::Taken(by) => {
            let tie = is_tied(flows, place, own, &by);
            Ok(Verdict::Never { by, tie })
        }
        Found::Unreceived(_) => Ok(Verdict::Unreceived),
        Found::Undecided => Ok(Verdict::Open),
    }
}

/// The verdict on the flow at a place, from 0, by the order of the lines (OpenFlow 1.3.5, 5.3).
///
/// `Wins` has a packet with which the flow wins if its words hold and no others. `Never`: in no world does it win, whatever words hold; flows are
/// named by their places. `Unreceived`: it wins, but with no packet that comes in by a port that a switch may have. `Open`: no one flow covers it, and
/// it was not decided in so many steps; or there is no such flow.
pub fn check_flow(
    alloc: Global,
    flows: &[ListedFlow],
    place: usize,
    steps: usize,
) -> Result<Verdict, AllocError>
    ensures { IfOk result (FlowVerdictHolds flows.now place steps) }
{
    let Some(own) = flows.get(place) else {
        return Ok(Verdict::Open);
    };
    own.fields.known();
    let rivals = rivals_of(alloc, flows, place, own)?;
    match first_cover(flows, place, own, &rivals) {
        Some(at) => covered_by(alloc, flows, place, own, at),
        None => searched(alloc, flows, place, own, &rivals, steps),
    }
}

/// The verdicts on all flows, in their order, each as `check_flow` gives it.
pub fn check_flows(
    alloc: Global,
    flows: &[ListedFlow],
    steps: usize,
) -> Result<Vec<Finding>, AllocError>
    ensures { IfOk result (λ findings. AreVerdicts flows.now steps findings.items) }
{
    let mut findings = Vec::new(alloc);
    for (place, flow) in flows.iter().enumerate() {
        let verdict = check_flow(alloc, flows, place, steps)?;
        findings.push(Finding {
            table: flow.table,
            place,
            verdict,
        })?;
    }
    Ok(findings)
}
