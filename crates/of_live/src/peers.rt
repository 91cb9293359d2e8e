//! Where the frames of ports go.
ghost use Rattle.std.specs.Prelude.{◌≡◌, ◌==◌, map, OnOk, OnErr};
ghost use Rattle.std.specs.{List.list_any, Option.option_copied, Option.option_map};
ghost use Rattle.of_live.specs.Peers.{heard_from, may_be_from as may, peer_moved as moved_to, peer_of as found};

use crate::network::Endpoint;
use std::alloc::AllocError;

/// Where the frames of a port go.
#[derive(Clone, Copy, PartialEq, Eq)]
pub struct Peer {
    pub port: u32,
    pub endpoint: Endpoint,
    /// Whether it was set, and is not learned: then only datagrams from this address are frames of the port.
    pub is_set: bool,
}

/// The peer of a port.
pub fn peer_of(number: u32, peers: &[Peer]) -> Option<&Peer>
    ensures { option_copied result ≡ found number peers.now }
{
    peers.iter().find(|peer| peer.port == number)
}

/// Whether a datagram from there may be a frame of the port of this peer.
pub fn may_send(from: Endpoint, peer: Option<&Peer>) -> bool
    ensures { result ≡ may from (option_map (λ p. p.now) peer.entry) }
{
    match peer {
        None => true,
        Some(peer) => !peer.is_set || peer.endpoint.address == from.address,
    }
}

// The peer, which is where a datagram of that port came from, unless it was set.
fn moved(peer: Peer, number: u32, from: Endpoint) -> Peer
    ensures { result ≡ moved_to number from peer }
{
    if peer.port == number && !peer.is_set {
        Peer {
            endpoint: from,
            ..peer
        }
    } else {
        peer
    }
}

fn move_each(peers: &mut [Peer], number: u32, from: Endpoint)
    ensures { peers.new ≡ map (moved_to number from) peers.old }
{
    for peer in peers.iter_mut() {
        *peer = moved(*peer, number, from);
    }
}

fn is_known(number: u32, peers: &[Peer]) -> bool
    ensures { result ≡ list_any (λ p. p.port == number) peers.now }
{
    peers.iter().any(|peer| peer.port == number)
}

/// A datagram of a port came from there: that is where the port's frames go, unless their peer was set.
pub fn learn(peers: &mut Vec<Peer>, number: u32, from: Endpoint) -> Result<(), AllocError>
    ensures ok { OnOk result (peers.new.items ≡ heard_from number from peers.old.items) }
    ensures err { OnErr result (peers.new.items ≡ peers.old.items) }
{
    if is_known(number, peers) {
        move_each(peers, number, from);
        return Ok(());
    }
    Ok(peers.push(Peer {
        port: number,
        endpoint: from,
        is_set: false,
    })?)
}
