//! What a match on a packet that actions rewrote asks of the frame that came in.
ghost use Rattle.std.specs.Prelude.{◌≡◌, true, IfOk, List};
ghost use Rattle.of_actions.specs.declared.action.Action.{Action};
ghost use Rattle.of_symbolic.specs.{declared.pulling.Pulled.TheVariants.Unknown, Overlays.IsOverlay, Pulling.AsksConditions, Pulling.IsPulled, Pulling.is_unknown_in};

use crate::asking::{Asked, ask, asks_tag};
use crate::overlay::{Overlay, first_tag};
use of_oxm::{Match, MatchField};
use std::alloc::{AllocError, Global};

/// What a match on a packet asks of the frame that came in.
#[derive(Drop)]
pub enum Pulled {
    /// No frame that came in makes it match.
    Never,
    /// It is not known which frames make it match.
    Unknown,
    /// It matches exactly if each of these fields agrees with the description of the frame that came in: with its fields, where METADATA is 0 or
    /// the number of its inner tag. VLAN_VID may be there twice: for the VID, and for whether there is a tag; and METADATA for VID and PCP of
    /// the inner tag. A field with a mask of zeros asks only that the frame has the field.
    When(Vec<MatchField>),
}

/// What a match on a packet, with this metadata, asks of the frame that came in (OpenFlow 1.3.5, 5.3).
///
/// The overlay is that of the packet. `is`: the result is true of the description of each frame that came in. `conditions`: the fields that it
/// asks are conditions on fields. `unknown`: only a VLAN_VID or VLAN_PCP that is not known makes the result unknown.
pub fn pull(
    alloc: Global,
    overlay: &Overlay,
    metadata: u64,
    m: &Match,
) -> Result<Pulled, AllocError>
    ensures is { IfOk result (λ r. (l : List Action) → IsOverlay overlay.now l → IsPulled overlay.now.inner l metadata m.now r) }
    ensures conditions { IfOk result AsksConditions }
    ensures unknown { IfOk result (λ r. r ≡ Unknown → is_unknown_in overlay.now m.now ≡ true) }
{
    m.known();
    let tagged = asks_tag(first_tag(&overlay.pushed), m);
    let mut fields = Vec::new(alloc);
    let mut open = false;
    for e in m.fields() {
        match ask(overlay, metadata, tagged, e) {
            Asked::Never => return Ok(Pulled::Never),
            Asked::Open => open = true,
            Asked::Nothing => {}
            Asked::Asks(asked) => fields.push(asked)?,
        }
    }
    if open {
        return Ok(Pulled::Unknown);
    }
    Ok(Pulled::When(fields))
}
