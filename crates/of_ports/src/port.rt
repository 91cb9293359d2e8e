//! Ports (OpenFlow 1.3.5, 7.2.1).
ghost use Rattle.std.specs.{Prelude.◌≡◌, Option.option_copied};
ghost use Rattle.of_ports.specs.Ports.{is_live as lives, may_receive, may_send, new_port, state_bits, port_at};

use crate::config::PortConfig;
use crate::counters::PortCounters;

/// OFPPS_LINK_DOWN.
const LINK_DOWN: u32 = 1;

/// OFPPS_LIVE.
const LIVE: u32 = 4;

/// A port of the switch.
#[derive(Clone, Copy, PartialEq, Eq)]
pub struct Port {
    /// 1 to 0xffffff00.
    pub number: u32,
    /// Its hardware address.
    pub hw: [u8; 6],
    /// Its name, padded with zeros.
    pub name: [u8; 16],
    pub config: PortConfig,
    pub is_link_up: bool,
    /// The moment at which it was added, in nanoseconds.
    pub created: u64,
    pub counters: PortCounters,
}

impl Port {
    /// A port that is added at that moment in nanoseconds: no bit of its configuration is set, and nothing is counted.
    pub fn new(number: u32, hw: [u8; 6], name: [u8; 16], is_link_up: bool, created: u64) -> Port
        ensures { result ≡ new_port number hw name is_link_up created }
    {
        Port {
            number,
            hw,
            name,
            config: PortConfig::default(),
            is_link_up,
            created,
            counters: PortCounters::new(),
        }
    }

    /// Whether it is neither down nor without a link.
    pub fn is_live(&self) -> bool
        ensures { result ≡ lives self.now }
    {
        self.is_link_up && !self.config.is_down
    }

    /// Whether packets may be sent out of the port.
    pub fn may_send(&self) -> bool
        ensures { result ≡ may_send self.now }
    {
        self.is_live() && !self.config.no_forward
    }

    /// Whether frames that arrive at the port are received.
    pub fn may_receive(&self) -> bool
        ensures { result ≡ may_receive self.now }
    {
        self.is_live() && !self.config.no_receive
    }

    /// The bits of its state as a word.
    pub fn state_bits(&self) -> u32
        ensures { result ≡ state_bits self.now }
    {
        let link = if self.is_link_up { 0 } else { LINK_DOWN };
        let live = if self.is_live() { LIVE } else { 0 };
        link + live
    }
}

/// The port of that number.
pub fn find_port(ports: &[Port], number: u32) -> Option<&Port>
    ensures { option_copied result ≡ port_at ports.now number }
{
    ports.iter().find(|port| port.number == number)
}
