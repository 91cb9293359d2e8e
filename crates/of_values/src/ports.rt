//! Ports in words.
ghost use Rattle.std.specs.Prelude.{◌≡◌, ◌++◌, ◌==◌, OnOk, find};
ghost use Rattle.of_values.specs.{declared.ports.TheConstants.PORT_NAMES, Numbers.port_in_words};

use crate::digits::push_decimal;
use of_wire::keyword;
use of_wire::limits::{
    OFPP_ALL, OFPP_ANY, OFPP_CONTROLLER, OFPP_FLOOD, OFPP_IN_PORT, OFPP_LOCAL, OFPP_NORMAL,
    OFPP_TABLE,
};
use std::alloc::AllocError;

/// A reserved port, and its name, filled up by spaces.
#[derive(Clone, Copy)]
pub struct PortName(pub u32, pub [u8; 10]);

/// The reserved ports (OpenFlow 1.3.5, 7.2.1).
pub const PORT_NAMES: [PortName; 8] = [
    PortName(OFPP_IN_PORT, *b"in_port   "),
    PortName(OFPP_TABLE, *b"table     "),
    PortName(OFPP_NORMAL, *b"normal    "),
    PortName(OFPP_FLOOD, *b"flood     "),
    PortName(OFPP_ALL, *b"all       "),
    PortName(OFPP_CONTROLLER, *b"controller"),
    PortName(OFPP_LOCAL, *b"local     "),
    PortName(OFPP_ANY, *b"any       "),
];

// The row of a reserved port.
fn named_port(number: u128) -> Option<PortName>
    ensures { result ≡ find (λ row. number == row.0) PORT_NAMES }
{
    PORT_NAMES
        .iter()
        .copied()
        .find(|row| number == u128::from(row.0))
}

/// Appends the number of a port, or the name of a reserved one (OpenFlow 1.3.5, 7.2.1).
#[tactic(auto, unfolding(crate::specs::Numbers::port_in_words))]
pub fn push_port(out: &mut Vec<u8>, number: u128) -> Result<(), AllocError>
    ensures { OnOk result (out.new.items ≡ out.old.items ++ port_in_words number) }
{
    match named_port(number) {
        None => push_decimal(out, number),
        Some(row) => out.extend_from_slice(keyword(&row.1)),
    }
}
