//! The ports of a switch.
ghost use Rattle.std.specs.Prelude.{◌≡◌, ◌<◌, [], false, nat_le, length, OnOk, OnErr};
ghost use Rattle.std.specs.Option.{option_copied};
ghost use Rattle.of_ports.specs.Ports.{all_counted, changed_at_port, has_port, is_live_at, linked, port_at, with_config, with_port, without_port};
ghost use Rattle.of_ports.specs.Sound.{AreSoundPorts};

use crate::config::PortConfig;
use crate::counters::PortCount;
use crate::editing::{Edit, edit_at, insert_port, remove_port};
use crate::port::Port;
use of_groups::LivePorts;
use of_wire::limits::MOST_PORTS;
use std::alloc::{AllocError, Global};
use std::marker::Model;

/// The ports of a switch, in ascending order of number: at most 64 (OpenFlow 1.3.5, 4.1 and 7.2.1).
#[derive(Drop)]
pub struct Ports {
    ports: Vec<Port>,
}

impl Model for Ports {
    ghost use Rattle.std.specs.Prelude.{List};
    ghost use Rattle.of_ports.specs.{declared.port.Port.Port, Sound.AreSoundPorts};

    ghost Value = { List Port };

    ghost view = { λ p. p.ports.items };

    ghost invariant = { λ p. AreSoundPorts p.ports.items };
}

impl Ports {
    /// Without ports.
    pub fn new(alloc: Global) -> Ports
        ensures { result ≡ [] }
    {
        Ports {
            ports: Vec::new(alloc),
        }
    }

    pub fn as_slice(&self) -> &[Port]
        ensures ports { result.now ≡ self.now }
        ensures sound { AreSoundPorts self.now }
    {
        self.ports.as_slice()
    }

    pub fn len(&self) -> usize
        ensures { result ≡ length self.now }
    {
        self.ports.len()
    }

    /// Whether there is no place for one more: a switch has at most 64 ports.
    pub fn is_full(&self) -> bool
        ensures { result ≡ nat_le 64 (length self.now) }
    {
        self.ports.len() >= MOST_PORTS
    }

    /// Whether there is a port of that number.
    pub fn contains(&self, number: u32) -> bool
        ensures { result ≡ has_port number self.now }
    {
        self.ports.iter().any(|port| port.number == number)
    }

    /// The port of that number.
    pub fn port(&self, number: u32) -> Option<&Port>
        ensures { option_copied result ≡ port_at self.now number }
    {
        self.ports.iter().find(|port| port.number == number)
    }

    /// One more port. A call that fails changes nothing.
    pub fn add(&mut self, port: Port) -> Result<(), AllocError>
        requires new { has_port port.number self.old ≡ false }
        requires room { length self.old < 64 }
        ensures ok { OnOk result (self.new ≡ with_port port self.old) }
        ensures err { OnErr result (self.new ≡ self.old) }
    {
        insert_port(&mut self.ports, port)
    }

    /// Removes the port of that number; where there is none, nothing changes. It needs no memory.
    pub fn remove(&mut self, number: u32)
        ensures { self.new ≡ without_port number self.old }
    {
        remove_port(&mut self.ports, number);
    }

    /// The link of the port of that number goes up or down; where there is none, nothing changes.
    pub fn set_link(&mut self, number: u32, is_up: bool)
        ensures { self.new ≡ changed_at_port number (linked is_up) self.old }
    {
        edit_at(&mut self.ports, number, Edit::Link(is_up));
    }

    /// Gives the port of that number another configuration (OpenFlow 1.3.5, 7.3.4.3); where there is none, nothing changes.
    pub fn configure(&mut self, number: u32, config: PortConfig)
        ensures { self.new ≡ changed_at_port number (with_config config) self.old }
    {
        edit_at(&mut self.ports, number, Edit::Configure(config));
    }

    /// The port of that number counts this (OpenFlow 1.3.5, 5.8); where there is none, nothing changes.
    pub fn count(&mut self, number: u32, what: PortCount)
        ensures { self.new ≡ all_counted number what self.old }
    {
        edit_at(&mut self.ports, number, Edit::Count(what));
    }
}

impl LivePorts for Ports {
    ghost live = { λ ports. is_live_at ports };

    fn is_live(&self, number: u32) -> bool {
        match self.port(number) {
            Some(port) => port.is_live(),
            None => false,
        }
    }
}
