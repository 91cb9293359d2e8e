//! Events with which a switch begins: groups and flows, and a controller.
ghost use Rattle.std.specs.Prelude.{◌≡◌, ◌++◌, map, IfOk, OnOk};
ghost use Rattle.of_switch.specs.declared.event.Event.TheVariants.{Chunk};
ghost use Rattle.of_files.specs.FirstEvents.{connection_events as events_of_connection, first_events as first_events_of, with_controller};

use of_build::messages;
use of_classifier::Lookup;
use of_switch::{Event, Switch};
use of_text::Config;
use of_wire::Bytes;
use std::alloc::{AllocError, Global};

/// A HELLO of version 4 without elements (OpenFlow 1.3.5, 7.5.1).
const GREETING: [u8; 8] = [4, 0, 0, 8, 0, 0, 0, 0];

// Appends messages of a controller, each as an event.
fn push_messages(
    alloc: Global,
    events: &mut Vec<Event>,
    messages: &[Bytes],
) -> Result<(), AllocError>
    ensures { OnOk result (events.new.items ≡ events.old.items ++ map Chunk messages.now) }
{
    for message in messages {
        events.push(Event::Chunk(Bytes::from_slice(alloc, message.as_slice())?))?;
    }
    Ok(())
}

// A controller connects, and says HELLO.
fn connection_events(alloc: Global) -> Result<Vec<Event>, AllocError>
    ensures { IfOk result (λ events. events.items ≡ events_of_connection) }
{
    let mut events = Vec::new(alloc);
    events.push(Event::Connect)?;
    events.push(Event::Chunk(Bytes::from_slice(alloc, &GREETING)?))?;
    Ok(events)
}

/// Connects a controller, which says HELLO, to a switch of groups and flows.
pub fn connect<L: Lookup>(alloc: Global, switch: &mut Switch<L>) -> Result<(), AllocError>
    ensures { OnOk result (switch.new ≡ with_controller switch.old) }
{
    let mut reports = Vec::new(alloc);
    switch.run(&connection_events(alloc)?, &mut reports)
}

/// The events that give a new switch the groups and flows of a configuration: those of the rows that `asm` writes, and then the
/// controller is gone.
pub fn first_events(alloc: Global, config: &Config) -> Result<Vec<Event>, AllocError>
    ensures { IfOk result (λ events. events.items ≡ first_events_of config.now) }
{
    let mut events = connection_events(alloc)?;
    push_messages(alloc, &mut events, &messages(alloc, config)?)?;
    events.push(Event::Lost)?;
    Ok(events)
}
