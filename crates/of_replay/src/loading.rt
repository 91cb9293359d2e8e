//! Switches that have the groups and flows of a configuration.
ghost use Rattle.std.specs.Prelude.{◌≡◌, map, IfOk};
ghost use Rattle.of_replay.specs.Loaded.{port_up as port_event, switch_with};

use of_classifier::Lookup;
use of_switch::{Event, PortChange, Switch, SwitchError};
use of_text::Config;
use std::alloc::{AllocError, Global};

/// The datapath_id of the switch of a file, which no file says (OpenFlow 1.3.5, 7.3.1).
pub const DPID: u64 = 1;

// A port of that number is added, whose link is up.
fn port_up(number: u32) -> Event
    ensures { result ≡ port_event number }
{
    let [a, b, c, d] = number.to_be_bytes();
    Event::Ports(PortChange::Add {
        number,
        hw: [2, 0, a, b, c, d],
        name: [0; 16],
        up: true,
    })
}

fn ports_up(alloc: Global, numbers: &[u32]) -> Result<Vec<Event>, AllocError>
    ensures { IfOk result (λ events. events.items ≡ map port_event numbers.now) }
{
    let mut events = Vec::new(alloc);
    for number in numbers {
        events.push(port_up(*number))?;
    }
    Ok(events)
}

/// A new switch with these ports, whose links are up, and with the groups and flows of a configuration. Err: out of memory.
pub fn switch_of_config<L: Lookup>(
    alloc: Global,
    config: &Config,
    ports: &[u32],
) -> Result<Switch<L>, AllocError>
    ensures { IfOk result (λ s. s ≡ switch_with ports.now config.now) }
{
    let mut switch = Switch::new(alloc, DPID)?;
    let mut reports = Vec::new(alloc);
    switch.run(&ports_up(alloc, ports)?, &mut reports)?;
    match switch.load(config) {
        Ok(()) => Ok(switch),
        Err(SwitchError::NoMemory) => Err(AllocError),
        Err(_) => unreachable!(),
    }
}
