//! Why outputs and groups send nothing.
ghost use Rattle.std.specs.{Prelude.◌≡◌, Prelude.◌++◌, Prelude.OnOk, Option.option_copied};
ghost use Rattle.of_datapath.specs.Datapath.{world_of};
ghost use Rattle.of_trace.specs.Unsent.{behind_line, group_unsent as is_group_unsent, output_unsent as is_output_unsent, port_unsent as is_port_unsent, unsent_action, unsent_words};

use of_actions::Action;
use of_classifier::Lookup;
use of_ports::{Port, find_port};
use of_switch::Switch;
use of_values::{Part, put};
use of_wire::limits::{OFPP_ALL, OFPP_CONTROLLER, OFPP_FLOOD, OFPP_IN_PORT, OFPP_TABLE};
use std::alloc::AllocError;

pub const NO_PORT: [u8; 18] = *b"there is no port %";

pub const DOWN: [u8; 14] = *b"port % is down";

pub const FORWARDS_NOTHING: [u8; 23] = *b"port % forwards nothing";

pub const CAME_IN: [u8; 30] = *b"the frame came in by that port";

pub const NO_GROUP: [u8; 19] = *b"there is no group %";

pub const NO_BUCKET: [u8; 14] = *b"no bucket runs";

/// Why an output or a group sends nothing.
#[derive(Clone, Copy, PartialEq, Eq)]
pub enum Unsent {
    /// There is no port of this number.
    NoPort(u32),
    Down(u32),
    /// The port has NO_FWD.
    ForwardsNothing(u32),
    /// It is the ingress port.
    CameIn,
    NoGroup(u32),
    /// No bucket of the group runs.
    NoBucket,
}

fn port_unsent(number: u32, port: Option<&Port>) -> Option<Unsent>
    ensures { result ≡ is_port_unsent number (option_copied port.entry) }
{
    match port {
        None => Some(Unsent::NoPort(number)),
        Some(port) if port.may_send() => None,
        Some(port) if port.is_live() => Some(Unsent::ForwardsNothing(number)),
        Some(_) => Some(Unsent::Down(number)),
    }
}

fn output_unsent(ports: &[Port], ingress: u32, port: u32) -> Option<Unsent>
    ensures { result ≡ is_output_unsent ports.now ingress port }
{
    match port {
        OFPP_IN_PORT => port_unsent(ingress, find_port(ports, ingress)),
        OFPP_FLOOD | OFPP_ALL | OFPP_CONTROLLER | OFPP_TABLE => None,
        _ if port == ingress => Some(Unsent::CameIn),
        _ => port_unsent(port, find_port(ports, port)),
    }
}

fn group_unsent<L: Lookup>(switch: &Switch<L>, group: u32) -> Option<Unsent>
    ensures { result ≡ is_group_unsent group ((world_of switch.now.core.forwarding).chosen group) }
{
    match switch.datapath().buckets_for(group) {
        None => Some(Unsent::NoGroup(group)),
        Some(places) if places.as_slice().is_empty() => Some(Unsent::NoBucket),
        Some(_) => None,
    }
}

/// Why an action sends nothing of a frame that came in by a port, if it is an output or a group and sends nothing.
pub fn why_unsent<L: Lookup>(switch: &Switch<L>, ingress: u32, action: Action) -> Option<Unsent>
    ensures { result ≡ unsent_action switch.now.core.forwarding ingress action }
{
    match action {
        Action::Output { port, .. } => {
            output_unsent(switch.datapath().ports.as_slice(), ingress, port)
        }
        Action::Group(group) => group_unsent(switch, group),
        _ => None,
    }
}

/// Appends why nothing is sent.
#[tactic(auto, unfolding(crate::specs::Unsent::unsent_words))]
pub fn push_unsent(out: &mut Vec<u8>, why: Unsent) -> Result<(), AllocError>
    ensures { OnOk result (out.new.items ≡ out.old.items ++ unsent_words why) }
{
    match why {
        Unsent::NoPort(port) => put(out, &NO_PORT, &[Part::Number(u128::from(port))]),
        Unsent::Down(port) => put(out, &DOWN, &[Part::Number(u128::from(port))]),
        Unsent::ForwardsNothing(port) => {
            put(out, &FORWARDS_NOTHING, &[Part::Number(u128::from(port))])
        }
        Unsent::CameIn => put(out, &CAME_IN, &[]),
        Unsent::NoGroup(group) => put(out, &NO_GROUP, &[Part::Number(u128::from(group))]),
        Unsent::NoBucket => put(out, &NO_BUCKET, &[]),
    }
}

/// Appends to a line why nothing is sent, if it is so.
pub fn push_behind(out: &mut Vec<u8>, why: Option<Unsent>) -> Result<(), AllocError>
    ensures { OnOk result (out.new.items ≡ out.old.items ++ behind_line why) }
{
    let Some(why) = why else {
        return Ok(());
    };
    out.extend_from_slice(b": ")?;
    push_unsent(out, why)
}
