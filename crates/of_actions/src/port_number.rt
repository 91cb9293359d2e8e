//! Numbers of ports (OpenFlow 1.3.5, 7.2.1).
ghost use Rattle.std.specs.Prelude.{◌≡◌};
ghost use Rattle.of_actions.specs.PortNumbers.{is_number as is_port_number, is_port as is_output_port};

use of_wire::limits::{OFPP_ALL, OFPP_CONTROLLER, OFPP_FLOOD, OFPP_IN_PORT, OFPP_MAX, OFPP_TABLE};

/// Whether a port of the switch may have this number: 1 to OFPP_MAX.
pub fn is_number(port: u32) -> bool
    ensures { result ≡ is_port_number port }
{
    1 <= port && port <= OFPP_MAX
}

/// Whether an OUTPUT may name this port, of a PACKET_OUT or of an instruction.
pub fn is_port(packet_out: bool, port: u32) -> bool
    ensures { result ≡ is_output_port packet_out port }
{
    is_number(port)
        || port == OFPP_IN_PORT
        || port == OFPP_FLOOD
        || port == OFPP_ALL
        || port == OFPP_CONTROLLER
        || (packet_out && port == OFPP_TABLE)
}
