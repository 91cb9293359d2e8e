//! The header of VXLAN.
ghost use Rattle.std.specs.{Prelude.◌≡◌, Prelude.◌<◌, Prelude.◌^◌, Option.option_map};
ghost use Rattle.of_live.specs.Header.{carried, sent_header};

use byteorder::{BigEndian, ByteOrder};

/// How many bytes a header has (RFC 7348, 5).
pub const HEADER: usize = 8;

/// The network (VNI) and the frame of a datagram; None if it is shorter than a header, or its flags say that it has no VNI.
///
/// Flags but that one and reserved bits are ignored (RFC 7348, 5).
pub fn read_datagram(bytes: &[u8]) -> Option<(u32, &[u8])>
    ensures { option_map (λ d. record { vni = d.0; frame = d.1.now }) result ≡ carried bytes.now }
{
    if bytes.len() < HEADER || bytes[0] / 8 % 2 == 0 {
        return None;
    }
    let (header, frame) = bytes.split_at(HEADER);
    let (_, network) = header.split_at(4);
    Some((BigEndian::read_u24(network), frame))
}

/// The header of datagrams for a network: its number takes 24 bits.
pub fn write_header(vni: u32) -> [u8; 8]
    requires { vni < 2 ^ 24 }
    ensures { result ≡ sent_header vni }
{
    let mut network = [0; 3];
    BigEndian::write_u24(&mut network, vni);
    let [first, second, third] = network;
    [8, 0, 0, 0, first, second, third, 0]
}
