//! Whether the same leaves two switches, for all frames of a set.
ghost use Rattle.std.specs.Prelude.{◌≡◌, ◌≢◌, ◌↔◌, ℕ, List, [], IfNone, IsSome, IsTrue, true};
ghost use Rattle.std.specs.List.{All};
ghost use Rattle.of_actions.specs.Rising.{is_ascending};
ghost use Rattle.of_ports.specs.Ports.{number_of_port};
ghost use Rattle.of_symbolic_run.specs.{FrameSets.InFrames, States.items_for};
ghost use Rattle.of_alike.specs.{Alike.LeavesAlike, Emitting.AlikeIfRest, Emitting.EmitAlikeAt, Emitting.IsAlikeFrom, Emitting.LeaveAlike, declared.alike.Compared.TheVariants.All as AllIsCompared};
ghost use Rattle.of_alike.specs.declared.alike.Where.TheVariants.{Controller as AtController};

use crate::alike::{Compared, Where};
use crate::emissions::behind_same;
use crate::ingress::has_none_from;
use crate::sending::{emit_alike_at, send_alike_from};
use of_ports::Port;
use of_symbolic_run::{Emission, FrameSet};

// Whether the controller gets the same, if that is compared.
fn tell_alike(compared: Compared, ingress: u32, a: &[Emission], b: &[Emission]) -> bool
    ensures { result ≡ true → compared ≡ AllIsCompared → EmitAlikeAt ingress AtController a.now b.now }
{
    match compared {
        Compared::All => emit_alike_at(ingress, Where::Controller, a, b),
        Compared::Frames => true,
    }
}

// Whether the same leaves for each frame that came in by this port.
fn leave_alike_from(
    compared: Compared,
    ports: &[Port],
    ingress: u32,
    a: &[Emission],
    b: &[Emission],
) -> bool
    requires { IsTrue (is_ascending number_of_port ports.now) }
    ensures { result ≡ true → (frame : List ℕ) → LeavesAlike compared (items_for ports.now a.now frame ingress) (items_for ports.now b.now frame ingress) }
{
    tell_alike(compared, ingress, a, b) && send_alike_from(ports, ingress, a, b)
}

// Whether it does for each frame of the set that came in by this port.
fn are_alike_from(
    compared: Compared,
    ports: &[Port],
    frames: &FrameSet,
    ingress: u32,
    a: &[Emission],
    b: &[Emission],
) -> bool
    requires { IsTrue (is_ascending number_of_port ports.now) }
    ensures { result ≡ true → (frame : List ℕ) → InFrames frames.now frame ingress →
        LeavesAlike compared (items_for ports.now a.now frame ingress) (items_for ports.now b.now frame ingress) }
{
    leave_alike_from(compared, ports, ingress, a, b) || has_none_from(frames, ingress)
}

// Whether it does for each of them if the port receives.
fn is_alike_from(
    compared: Compared,
    ports: &[Port],
    frames: &FrameSet,
    port: &Port,
    a: &[Emission],
    b: &[Emission],
) -> bool
    requires { IsTrue (is_ascending number_of_port ports.now) }
    ensures { result ≡ true → IsAlikeFrom compared ports.now frames.now a.now b.now port.now }
{
    !port.may_receive() || are_alike_from(compared, ports, frames, port.number, a, b)
}

// The first port that receives, and by which frames of the set may come in for which something else leaves.
fn first_ingress(
    compared: Compared,
    ports: &[Port],
    frames: &FrameSet,
    a: &[Emission],
    b: &[Emission],
) -> Option<u32>
    requires { IsTrue (is_ascending number_of_port ports.now) }
    ensures { IfNone result (All (IsAlikeFrom compared ports.now frames.now a.now b.now) ports.now) }
{
    for port in ports {
        if !is_alike_from(compared, ports, frames, port, a, b) {
            return Some(port.number);
        }
    }
    None
}

// What follows in two lists after all that they begin with in common.
fn rests<'a>(a: &'a [Emission], b: &'a [Emission]) -> (&'a [Emission], &'a [Emission])
    ensures alike { AlikeIfRest a.now b.now result.0.now result.1.now }
    ensures equal { a.now ≡ b.now → (result.0.now ≡ []) × (result.1.now ≡ []) }
{
    let (mut left, mut right) = (a, b);
    while let Some((behind, rest)) = behind_same(left, right) {
        left = behind;
        right = rest;
    }
    (left, right)
}

// Whether nothing is emitted.
fn are_empty(a: &[Emission], b: &[Emission]) -> bool
    ensures { IsTrue result ↔ (a.now ≡ []) × (b.now ≡ []) }
{
    a.is_empty() && b.is_empty()
}

/// A port by which frames of the set may come in for which two runs send something else: by a port, by the actions on the frame, or to the controller, if
/// that is compared. None if for each frame of the set that comes in by a port that receives the same leaves (OpenFlow 1.3.5, 5.1 and 7.2.1).
///
/// What follows after a common beginning is compared for each pair of ports, unless it is nothing.
pub fn other_ingress(
    compared: Compared,
    ports: &[Port],
    frames: &FrameSet,
    a: &[Emission],
    b: &[Emission],
) -> Option<u32>
    requires { IsTrue (is_ascending number_of_port ports.now) }
    ensures none { IfNone result (LeaveAlike compared ports.now frames.now a.now b.now) }
    ensures some { IsSome result → a.now ≢ b.now }
{
    let (left, right) = rests(a, b);
    if are_empty(left, right) {
        return None;
    }
    first_ingress(compared, ports, frames, left, right)
}

/// Whether the same leaves for each frame of the set that comes in by a port that receives (OpenFlow 1.3.5, 5.1 and 7.2.1).
pub fn leave_alike(
    compared: Compared,
    ports: &[Port],
    frames: &FrameSet,
    a: &[Emission],
    b: &[Emission],
) -> bool
    requires { IsTrue (is_ascending number_of_port ports.now) }
    ensures { result ≡ true → LeaveAlike compared ports.now frames.now a.now b.now }
{
    other_ingress(compared, ports, frames, a, b).is_none()
}
