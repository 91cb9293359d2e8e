//! A switch that forwards the frames of a network.
use crate::beginning::begun_switch;
use crate::files::bytes_of;
use crate::seed::system_seed;
use of_command_line::{Live as Asked, PortPeer};
use of_file_reports::Lookups;
use of_live::{Live, Peer, live};
use of_replay::Ended;
use of_sockets::Teller;
use of_sockets::live::{PortRows, Sockets, endpoint_of, is_own};
use of_switch::{Event, PortChange, Seed};
use std::alloc::AllocError;

// The change that adds port N: its hardware address is 02, the low three bytes of the datapath_id and the number; pN, up.
fn port_of(alloc: std::alloc::Global, dpid: u64, number: u32) -> Result<Event, AllocError> {
    let text = number.to_string(alloc)?;
    let mut name = [0; 16];
    name[0] = b'p';
    for (place, digit) in name.iter_mut().skip(1).zip(text.as_bytes()) {
        *place = *digit;
    }
    let [.., high, middle, low] = dpid.to_be_bytes();
    let [_, _, first, last] = number.to_be_bytes();
    Ok(Event::Ports(PortChange::Add {
        number,
        hw: [2, high, middle, low, first, last],
        name,
        up: true,
    }))
}

// The changes that add the ports 1 to the last one that is asked for.
fn first_ports(rt: &HostRuntime, asked: &Asked) -> Result<Vec<Event>, AllocError> {
    let mut all = Vec::new(rt.alloc());
    for number in 1..=asked.ports {
        all.push(port_of(rt.alloc(), asked.dpid, number)?)?;
    }
    Ok(all)
}

// What says which rows of ports are refused, unless nothing is to be said.
fn watched_ports<'r>(
    teller: &'r Teller<'r>,
    asked: &Asked,
    rows: &[Event],
) -> Result<Option<PortRows<'r>>, AllocError> {
    if asked.quiet {
        return Ok(None);
    }
    let rt = teller.rt;
    let mut ports = PortRows::new(teller, &first_ports(rt, asked)?)?;
    if let Some(path) = &asked.events {
        if let Ok(file) = bytes_of(rt, path.as_str()) {
            ports.read(&file, rows)?;
        }
    }
    Ok(Some(ports))
}

// Whether there may be a port of this number: rows of standard input add ports later.
fn has_port(asked: &Asked, rows: &[Event], port: u32) -> bool {
    let is_added = rows.iter().any(|row| match row {
        Event::Ports(PortChange::Add { number, .. }) => *number == port,
        _ => false,
    });
    port <= asked.ports || is_added || asked.rows
}

/// Whether each port with a peer is one of the switch, and no peer is the switch itself; if not, standard error says why.
pub fn are_peers(teller: &Teller<'_>, asked: &Asked, rows: &[Event]) -> bool {
    for PortPeer { port, address } in &asked.peers {
        if !has_port(asked, rows, *port) {
            let _ = eprintln!(teller;
                "bad peer: the switch has no port {port}; --ports and --events add ports"
            );
            return false;
        }
        if is_own(teller.rt, asked.tunnel, *address) {
            let _ = eprintln!(teller;
                "bad peer: {address} is where the switch itself receives datagrams"
            );
            return false;
        }
    }
    true
}

fn set_peers(rt: &HostRuntime, asked: &[PortPeer]) -> Result<Vec<Peer>, AllocError> {
    let mut peers = Vec::new(rt.alloc());
    for peer in asked {
        peers.push(Peer {
            port: peer.port,
            endpoint: endpoint_of(&peer.address),
            is_set: true,
        })?;
    }
    Ok(peers)
}

// The switch, before anything came: to which these events happened first, and with these rows to come.
fn begun(
    teller: &Teller<'_>,
    asked: &Asked,
    first: &[Event],
    rows: Vec<Event>,
    seed: Seed,
) -> Result<Live<Lookups>, AllocError> {
    let rt = teller.rt;
    let mut all = first_ports(rt, asked)?;
    let mut rows = rows;
    all.append(&mut rows)?;
    let peers = set_peers(rt, asked.peers.as_slice())?;
    let switch = begun_switch(teller, asked.dpid, seed, first)?;
    Ok(Live::new(rt.alloc(), switch, all, peers))
}

/// Forwards the frames of a network on a new switch to which events happened first, with the rows of a file. None, with a line on
/// standard error, if it cannot begin.
pub fn live_rows(
    teller: &Teller<'_>,
    asked: &Asked,
    first: &[Event],
    rows: Vec<Event>,
) -> Option<Ended> {
    let rt = teller.rt;
    let seed = system_seed(rt)?;
    let Ok(ports) = watched_ports(teller, asked, &rows) else {
        return Some(Ended::NoMemory);
    };
    let mut network = Sockets::begin(teller, asked, first, ports)?;
    let Ok(mut switch) = begun(teller, asked, first, rows, seed) else {
        return Some(Ended::NoMemory);
    };
    let ended = live(rt.alloc(), &mut switch, &mut network, asked.turns);
    network.say_counts();
    Some(ended)
}
