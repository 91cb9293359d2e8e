//! Conditions on the frames that come in.
ghost use Rattle.std.specs.Prelude.{◌≡◌, IfOk};
ghost use Rattle.of_paths.specs.Ingress.{ingress_match};
ghost use Rattle.of_regions.specs.Conditions.{AreConditions};

use of_oxm::MatchField;
use of_symbolic_run::ingress_condition;
use std::alloc::{AllocError, Global};

/// That a frame comes in by this port, if one is given (IN_PORT; OpenFlow 1.3.5, 7.2.3.7). No port: each frame. Err: out of memory.
pub fn ingress_conditions(alloc: Global, port: Option<u32>) -> Result<Vec<MatchField>, AllocError>
    ensures is { IfOk result (λ fields. fields.items ≡ ingress_match port) }
    ensures conditions { IfOk result (λ fields. AreConditions fields.items) }
{
    let mut fields = Vec::new(alloc);
    if let Some(port) = port {
        fields.push(ingress_condition(port))?;
    }
    Ok(fields)
}
