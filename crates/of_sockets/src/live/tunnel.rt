//! Datagrams.
ghost use Rattle.std.specs.Prelude.{◌≡◌, ◌≤◌, length, IfSome};

use super::endpoints::{address_of, endpoint_of, is_local};
use mio::net::UdpSocket;
use of_live::Endpoint;
use std::io::{self, ErrorKind};
use std::net::{IpAddr, SocketAddr};

/// How many datagrams are received one after the other, before other sources have their turn.
const AT_ONCE: u32 = 64;

/// How many addresses it remembers whether they are of this machine.
const REMEMBERED: usize = 64;

/// A datagram, at the start of a buffer.
#[derive(Clone, Copy)]
pub struct Received {
    pub length: usize,
    /// Where its sender receives.
    pub from: Endpoint,
    /// Whether the switch itself sent it.
    pub is_own: bool,
}

/// The UDP socket of the networks.
#[derive(Drop)]
pub struct Tunnel<'r> {
    rt: &'r HostRuntime,
    socket: UdpSocket,
    // where it receives
    address: SocketAddr,
    // addresses, and whether they are of this machine, if it receives at each of them
    remembered: Vec<(IpAddr, bool)>,
    is_ipv4: bool,
    is_ready: bool,
    // how many were received since other sources had their turn
    received: u32,
    datagram: Vec<u8>,
    unsent: u64,
}

impl<'r> Tunnel<'r> {
    pub fn new(rt: &'r HostRuntime, address: SocketAddr) -> io::Result<Self> {
        let socket = UdpSocket::bind(rt, address)?;
        let address = socket.local_addr()?;
        Ok(Tunnel {
            rt,
            socket,
            address,
            remembered: Vec::new(rt.alloc()),
            is_ipv4: address.is_ipv4(),
            is_ready: true,
            received: 0,
            datagram: Vec::new(rt.alloc()),
            unsent: 0,
        })
    }

    /// The socket, to be registered.
    pub fn socket(&mut self) -> &mut UdpSocket {
        &mut self.socket
    }

    /// Datagrams came.
    pub fn wake(&mut self) {
        self.is_ready = true;
    }

    /// Other sources had their turn.
    pub fn begin_turn(&mut self) {
        self.received = 0;
    }

    /// Whether there may be more datagrams.
    pub fn is_ready(&self) -> bool {
        self.is_ready
    }

    /// Whether it is the turn of other sources.
    pub fn is_tired(&self) -> bool {
        self.received >= AT_ONCE
    }

    // Whether an address is of this machine.
    fn is_remembered_local(&mut self, ip: IpAddr) -> bool {
        for (known, is_here) in &self.remembered {
            if *known == ip {
                return *is_here;
            }
        }
        if self.remembered.len() >= REMEMBERED {
            self.remembered.clear();
        }
        let is_here = is_local(self.rt, ip);
        let _ = self.remembered.push((ip, is_here));
        is_here
    }

    // Whether the socket receives at an address.
    fn is_here(&mut self, ip: IpAddr) -> bool {
        let ip = ip.to_canonical();
        if self.address.ip().is_unspecified() {
            self.is_remembered_local(ip)
        } else {
            self.address.ip().to_canonical() == ip
        }
    }

    // Where a sender receives: at the port of VXLAN, which is that of the socket; on this machine that is the socket's own, so
    // the sender receives where it sends.
    fn received(&mut self, length: usize, from: SocketAddr) -> Received
        ensures { result.length ≡ length }
    {
        let is_here = self.is_here(from.ip());
        let mut endpoint = endpoint_of(&from);
        if !is_here {
            endpoint.port = self.address.port();
        }
        Received {
            length,
            from: endpoint,
            is_own: is_here && from.port() == self.address.port(),
        }
    }

    /// The next datagram, at the start of the buffer.
    pub fn receive(&mut self, buffer: &mut [u8]) -> Option<Received>
        ensures fits { IfSome result (λ r. r.length ≤ length buffer.old) }
        ensures room { length buffer.new ≡ length buffer.old }
    {
        match self.socket.recv_from(buffer) {
            Ok((length, from)) => {
                self.is_ready = true;
                self.received = self.received.saturating_add(1);
                Some(self.received(length, from))
            }
            Err(error) => {
                if error.kind() == ErrorKind::WouldBlock {
                    self.is_ready = false;
                }
                None
            }
        }
    }

    /// Sends a datagram, or counts it.
    pub fn send(&mut self, to: Endpoint, header: [u8; 8], frame: &[u8]) {
        if self.send_whole(to, header, frame).is_err() {
            self.unsent = self.unsent.saturating_add(1);
        }
    }

    fn send_whole(&mut self, to: Endpoint, header: [u8; 8], frame: &[u8]) -> io::Result<()> {
        self.datagram.clear();
        self.datagram.extend_from_slice(&header)?;
        self.datagram.extend_from_slice(frame)?;
        self.socket
            .send_to(&self.datagram, address_of(to, self.is_ipv4))?;
        Ok(())
    }

    /// How many datagrams the system did not take.
    pub fn unsent(&self) -> u64 {
        self.unsent
    }
}
