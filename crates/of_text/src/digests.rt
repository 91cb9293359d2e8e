//! Digests of flows, by which flows of the same table, priority and match are found.
ghost use Rattle.std.specs.Prelude.{◌≡◌};
ghost use Rattle.of_text.specs.{Digests.field_mixed, Digests.flow_digest, Views.view};

use crate::flow::FlowText;
use of_oxm::MatchField;

#[tactic(auto, unfolding(crate::specs::Digests::field_mixed))]
fn mixed(sum: u128, e: MatchField) -> u128
    ensures { result ≡ field_mixed sum e }
{
    sum.wrapping_mul(1_000_003)
        .wrapping_add(e.value)
        .wrapping_mul(1_000_003)
        .wrapping_add(e.mask.unwrap_or(0))
}

/// A number that is the same for flows of the same table, priority and match.
#[tactic(auto, unfolding(crate::specs::Digests::flow_digest))]
pub fn digest(flow: &FlowText) -> u128
    ensures { result ≡ flow_digest (view flow.now) }
{
    let seed = u128::from(flow.head.table)
        .wrapping_mul(65536)
        .wrapping_add(u128::from(flow.head.priority));
    flow.fields.iter().fold(seed, |sum, e| mixed(sum, *e))
}
