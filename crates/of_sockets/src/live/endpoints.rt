//! Addresses of the system, and those of the switch.
use of_live::Endpoint;
use std::net::{IpAddr, Ipv6Addr, SocketAddr, UdpSocket};

/// The endpoint at an address: an IPv4 address as `::ffff:a.b.c.d`.
pub fn endpoint_of(address: &SocketAddr) -> Endpoint {
    let bits = match address.ip() {
        IpAddr::V4(ip) => ip.to_ipv6_mapped().to_bits(),
        IpAddr::V6(ip) => ip.to_bits(),
    };
    Endpoint {
        address: bits,
        port: address.port(),
    }
}

/// The address of an endpoint, for a socket of either family.
pub fn address_of(endpoint: Endpoint, is_ipv4: bool) -> SocketAddr {
    let ip = Ipv6Addr::from_bits(endpoint.address);
    let ip = if is_ipv4 {
        ip.to_canonical()
    } else {
        IpAddr::V6(ip)
    };
    SocketAddr::new(ip, endpoint.port)
}

/// Whether an address is one of this machine.
pub fn is_local(rt: &HostRuntime, ip: IpAddr) -> bool {
    UdpSocket::bind(rt, SocketAddr::new(ip, 0)).is_ok()
}

/// Whether an address is that of a socket which is bound to another one, perhaps to each address of the machine.
pub fn is_own(rt: &HostRuntime, socket: SocketAddr, address: SocketAddr) -> bool {
    let ip = address.ip().to_canonical();
    let is_here = if socket.ip().is_unspecified() {
        is_local(rt, ip)
    } else {
        socket.ip().to_canonical() == ip
    };
    is_here && address.port() == socket.port()
}
