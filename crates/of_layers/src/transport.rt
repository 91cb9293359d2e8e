//! What an IP packet carries.

/// The header at the start of what an IP packet carries.
#[derive(Clone, Copy, PartialEq, Eq)]
pub enum Transport {
    /// None of the others, or not the whole of one.
    Nothing,
    /// TCP, protocol 6, of 20 bytes (RFC 9293, 3.1).
    Tcp,
    /// UDP, protocol 17, of 8 bytes (RFC 768).
    Udp,
    /// ICMP over IPv4, protocol 1, of 4 bytes (RFC 792).
    Icmpv4,
    /// ICMP over IPv6, protocol 58, of 4 bytes (RFC 4443, 2.1).
    Icmpv6,
}
