//! What two runs emit for a frame that came in by one port, at one place and by each port.
ghost use Rattle.std.specs.Prelude.{◌≡◌, ◌∷◌, ◌<◌, [], IfNone, IfSome, length, true};
ghost use Rattle.of_alike.specs.Emitting.{EmitAlikeAt, IsAlikeBy, IsSameAt, SendAlikeFrom, emits_at, emitting_at, is_for_controller, output_goes_by, rewrites_of};

use crate::alike::Where;
use crate::emissions::{floods, is_same_emission};
use crate::tables::are_same_actions;
use of_actions::Action;
use of_ports::Port;
use of_symbolic_run::Emission;
use of_wire::limits::{OFPP_CONTROLLER, OFPP_IN_PORT};

// Whether an OUTPUT to a port goes to that of a number, for a frame that came in by the ingress port (OpenFlow 1.3.5, 7.2.1): only an OUTPUT to IN_PORT
// goes to the ingress port, and those to FLOOD and ALL go to each other port.
fn goes_by(port: u32, ingress: u32, number: u32) -> bool
    ensures { result ≡ output_goes_by ingress number port }
{
    if port == OFPP_IN_PORT {
        number == ingress
    } else if floods(port) {
        number != ingress
    } else {
        number == port && port != OFPP_CONTROLLER && port != ingress
    }
}

// Whether an emission goes to the controller.
fn is_told(emission: &Emission) -> bool
    ensures { result ≡ is_for_controller emission.now }
{
    match emission {
        Emission::Output { port, .. } => *port == OFPP_CONTROLLER,
        Emission::InvalidTtl(_) => true,
    }
}

// Whether an emission goes there.
fn goes_there(emission: &Emission, ingress: u32, at: Where) -> bool
    ensures { result ≡ emits_at ingress at emission.now }
{
    match (emission, at) {
        (_, Where::Controller) => is_told(emission),
        (Emission::Output { port, .. }, Where::Port(number)) => goes_by(*port, ingress, number),
        (Emission::InvalidTtl(_), Where::Port(_)) => false,
    }
}

// The next emission that goes there, and those after it.
fn next_there(emissions: &[Emission], ingress: u32, at: Where) -> Option<(&Emission, &[Emission])>
    ensures some { IfSome result (λ next. (emitting_at ingress at emissions.now ≡ next.0.now ∷ emitting_at ingress at next.1.now) ×
        (length next.1.now < length emissions.now)) }
    ensures none { IfNone result (emitting_at ingress at emissions.now ≡ []) }
{
    let mut rest = emissions;
    while let [emission, behind @ ..] = rest {
        if goes_there(emission, ingress, at) {
            return Some((emission, behind));
        }
        rest = behind;
    }
    None
}

/// What is done to the frame before it is emitted (OpenFlow 1.3.5, 5.12).
pub fn rewrites(emission: &Emission) -> &[Action]
    ensures { result.now ≡ rewrites_of emission.now }
{
    match emission {
        Emission::Output { packet, .. } => packet.rewrites.as_slice(),
        Emission::InvalidTtl(packet) => packet.rewrites.as_slice(),
    }
}

// Whether two emissions that go there emit the same.
fn is_same_at(at: Where, a: &Emission, b: &Emission) -> bool
    ensures { result ≡ true → IsSameAt at a.now b.now }
{
    match at {
        Where::Controller => is_same_emission(a, b),
        Where::Port(_) => are_same_actions(rewrites(a), rewrites(b)),
    }
}

/// Whether the emissions that go there are the same, in the same order, for frames that came in by this port.
pub fn emit_alike_at(ingress: u32, at: Where, a: &[Emission], b: &[Emission]) -> bool
    ensures { result ≡ true → EmitAlikeAt ingress at a.now b.now }
{
    let (mut left, mut right) = (a, b);
    while let Some((emission, behind)) = next_there(left, ingress, at) {
        match next_there(right, ingress, at) {
            Some((other, rest)) if is_same_at(at, emission, other) => {
                left = behind;
                right = rest;
            }
            _ => return false,
        }
    }
    next_there(right, ingress, at).is_none()
}

// Whether the same is sent by a port, if it may send.
fn is_alike_by(port: &Port, ingress: u32, a: &[Emission], b: &[Emission]) -> bool
    ensures { result ≡ true → IsAlikeBy ingress a.now b.now port.now }
{
    !port.may_send() || emit_alike_at(ingress, Where::Port(port.number), a, b)
}

/// Whether two runs send the same by each port, by the actions on the frame, for frames that came in by this port.
pub fn send_alike_from(ports: &[Port], ingress: u32, a: &[Emission], b: &[Emission]) -> bool
    ensures { result ≡ true → SendAlikeFrom ports.now ingress a.now b.now }
{
    for port in ports {
        if !is_alike_by(port, ingress, a, b) {
            return false;
        }
    }
    true
}
