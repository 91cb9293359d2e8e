//! Whether two switches have the same ports.
ghost use Rattle.std.specs.Prelude.{◌≡◌, ◌↔◌, IsTrue};
ghost use Rattle.of_alike.specs.SamePorts.{SamePorts, port_key};

use of_ports::Port;

// Whether two ports have the same number and do the same with packets.
fn is_same_port(a: &Port, b: &Port) -> bool
    ensures { IsTrue result ↔ (port_key a.now ≡ port_key b.now) }
{
    a.number == b.number
        && a.may_send() == b.may_send()
        && a.may_receive() == b.may_receive()
        && a.is_live() == b.is_live()
        && a.config.no_packet_in == b.config.no_packet_in
}

/// Whether the ports have the same numbers in the same order, and each does the same with packets (OpenFlow 1.3.5, 7.2.1).
pub fn have_same_ports(a: &[Port], b: &[Port]) -> bool
    ensures { IsTrue result ↔ SamePorts a.now b.now }
{
    let mut others = b.iter();
    for port in a {
        match others.next() {
            Some(other) if is_same_port(port, other) => {}
            _ => return false,
        }
    }
    others.next().is_none()
}
