//! Flows of equal priority.
ghost use Rattle.std.specs.{Prelude.◌≡◌, Prelude.Some, Prelude.slice_get, List.list_any};
ghost use Rattle.of_shadowing.specs.Shadows.{are_level_flows, is_tie_of_flows};

use crate::listed_flow::ListedFlow;

// Whether the flow at a place has the priority of this one.
fn is_level(flows: &[ListedFlow], at: usize, own: &ListedFlow) -> bool
    ensures { result ≡ are_level_flows (slice_get flows.now at) (Some own.now) }
{
    match flows.get(at) {
        None => false,
        Some(other) => other.priority == own.priority,
    }
}

fn some_level(flows: &[ListedFlow], own: &ListedFlow, by: &[usize]) -> bool
    ensures { result ≡ list_any (λ j. are_level_flows (slice_get flows.now j) (Some own.now)) by.now }
{
    by.iter().any(|at| is_level(flows, *at, own))
}

/// Whether one of the flows at these places has the priority of the one at a place. OpenFlow does not say which of two such flows wins (OpenFlow
/// 1.3.5, 5.3).
pub fn is_tied(flows: &[ListedFlow], place: usize, own: &ListedFlow, by: &[usize]) -> bool
    requires { slice_get flows.now place ≡ Some own.now }
    ensures { result ≡ is_tie_of_flows flows.now place by.now }
{
    some_level(flows, own, by)
}
