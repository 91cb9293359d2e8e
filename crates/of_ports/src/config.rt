//! The configuration of ports.
ghost use Rattle.std.specs.Prelude.{◌≡◌};
ghost use Rattle.of_ports.specs.Config.{bit_if, config_bits, configured, has_bit, bit_under_mask};

/// OFPPC_PORT_DOWN.
const PORT_DOWN: u32 = 1;

/// OFPPC_NO_RECV.
const NO_RECEIVE: u32 = 4;

/// OFPPC_NO_FWD.
const NO_FORWARD: u32 = 32;

/// OFPPC_NO_PACKET_IN.
const NO_PACKET_IN: u32 = 64;

/// What a controller sets in a port (OpenFlow 1.3.5, 7.2.1).
#[derive(Clone, Copy, Default, PartialEq, Eq)]
pub struct PortConfig {
    /// OFPPC_PORT_DOWN: the port is administratively down.
    pub is_down: bool,
    /// OFPPC_NO_RECV: received frames are dropped.
    pub no_receive: bool,
    /// OFPPC_NO_FWD: no frame is sent.
    pub no_forward: bool,
    /// OFPPC_NO_PACKET_IN: a frame that no entry is found for is not sent to the controller.
    pub no_packet_in: bool,
}

fn bit_of(is_set: bool, bit: u32) -> u32
    ensures { result ≡ bit_if is_set bit }
{
    if is_set { bit } else { 0 }
}

fn is_set(bits: u32, bit: u32) -> bool
    ensures { result ≡ has_bit bit bits }
{
    bits & bit != 0
}

// Under the mask the bit is that of `config`, else it stays.
fn bit_under(bit: u32, config: u32, mask: u32, old: bool) -> bool
    ensures { result ≡ bit_under_mask bit config mask old }
{
    if is_set(mask, bit) {
        is_set(config, bit)
    } else {
        old
    }
}

impl PortConfig {
    /// Its bits as a word.
    pub fn bits(self) -> u32
        ensures { result ≡ config_bits self }
    {
        bit_of(self.is_down, PORT_DOWN)
            + bit_of(self.no_receive, NO_RECEIVE)
            + bit_of(self.no_forward, NO_FORWARD)
            + bit_of(self.no_packet_in, NO_PACKET_IN)
    }

    /// The bits under the mask are those of `config`, and the others stay (OpenFlow 1.3.5, 7.3.4.3).
    pub fn with(self, config: u32, mask: u32) -> PortConfig
        ensures { result ≡ configured config mask self }
    {
        PortConfig {
            is_down: bit_under(PORT_DOWN, config, mask, self.is_down),
            no_receive: bit_under(NO_RECEIVE, config, mask, self.no_receive),
            no_forward: bit_under(NO_FORWARD, config, mask, self.no_forward),
            no_packet_in: bit_under(NO_PACKET_IN, config, mask, self.no_packet_in),
        }
    }
}
