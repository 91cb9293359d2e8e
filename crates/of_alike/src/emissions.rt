//! Whether two emissions are the same, by what was done to the frame that came in.
ghost use Rattle.std.specs.Prelude.{◌≡◌, ◌<◌, [], IfSome, MatchOption, length, true};
ghost use Rattle.of_alike.specs.Emitting.{AlikeIfRest, AreSamePackets, EmitTheSame, SameOutputs, SendAlike, is_flooding};

use crate::tables::are_same_actions;
use of_symbolic_run::{Emission, SymbolicPacket};
use of_wire::limits::{OFPP_ALL, OFPP_CONTROLLER, OFPP_FLOOD};

/// Whether the packets are the same for each frame that came in, except their action sets.
pub fn are_same_packets(a: &SymbolicPacket, b: &SymbolicPacket) -> bool
    ensures same { result ≡ true → AreSamePackets a.now b.now }
    ensures equal { a.now ≡ b.now → result ≡ true }
{
    are_same_actions(a.rewrites.as_slice(), b.rewrites.as_slice())
        && a.metadata == b.metadata
        && a.cookie == b.cookie
        && a.table == b.table
        && a.miss == b.miss
}

/// Whether an OUTPUT to this port sends by each port except the ingress port (OpenFlow 1.3.5, 7.2.1).
pub fn floods(port: u32) -> bool
    ensures { result ≡ is_flooding port }
{
    port == OFPP_FLOOD || port == OFPP_ALL
}

// Whether two OUTPUTs of the same packet send the same. FLOOD and ALL do, since no port of this switch is left out of FLOOD, and max_len is for the
// controller alone (OpenFlow 1.3.5, 7.2.1 and 7.2.5).
fn send_alike(port: u32, max_len: u16, by: u32, most: u16) -> bool
    ensures same { result ≡ true → SendAlike port max_len by most }
    ensures equal { port ≡ by → max_len ≡ most → result ≡ true }
{
    if port == OFPP_CONTROLLER {
        by == port && most == max_len
    } else {
        by == port || (floods(port) && floods(by))
    }
}

// Whether two outputs send the same, for each frame that came in.
fn is_same_output(a: &SymbolicPacket, b: &SymbolicPacket, port: u32) -> bool
    ensures same { result ≡ true → SameOutputs a.now b.now port }
    ensures equal { a.now ≡ b.now → result ≡ true }
{
    if port == OFPP_CONTROLLER {
        are_same_packets(a, b)
    } else {
        are_same_actions(a.rewrites.as_slice(), b.rewrites.as_slice())
    }
}

/// Whether the same is emitted, for each frame that came in.
pub fn is_same_emission(a: &Emission, b: &Emission) -> bool
    ensures same { result ≡ true → EmitTheSame a.now b.now }
    ensures equal { a.now ≡ b.now → result ≡ true }
{
    match (a, b) {
        (
            Emission::Output {
                packet,
                port,
                max_len,
            },
            Emission::Output {
                packet: other,
                port: by,
                max_len: most,
            },
        ) => send_alike(*port, *max_len, *by, *most) && is_same_output(packet, other, *port),
        (Emission::InvalidTtl(packet), Emission::InvalidTtl(other)) => {
            are_same_packets(packet, other)
        }
        (Emission::Output { .. }, Emission::InvalidTtl(_))
        | (Emission::InvalidTtl(_), Emission::Output { .. }) => false,
    }
}

/// What follows in two lists that begin with the same.
pub fn behind_same<'a>(
    a: &'a [Emission],
    b: &'a [Emission],
) -> Option<(&'a [Emission], &'a [Emission])>
    ensures same { IfSome result (λ rests. AlikeIfRest a.now b.now rests.0.now rests.1.now) }
    ensures fewer { IfSome result (λ rests. length rests.0.now < length a.now) }
    ensures equal { a.now ≡ b.now → MatchOption result (a.now ≡ []) (λ rests. rests.0.now ≡ rests.1.now) }
{
    let (emission, behind) = a.split_first()?;
    let (other, rest) = b.split_first()?;
    if is_same_emission(emission, other) {
        Some((behind, rest))
    } else {
        None
    }
}
