//! What a MULTIPART_REQUEST is answered (OpenFlow 1.3.5, 7.3.5).
ghost use Rattle.std.specs.Prelude.{◌≡◌, ◌∷◌, [], IfOk, map};
ghost use Rattle.of_datapath.specs.{Statistics.asked_selector, Statistics.asks_absent_port as asks_for_absent, Commands.unless_any as none_for, declared.effect.Effect.TheVariants.Answer};

use crate::effect::{Effect, Effects};
use of_messages::{FlowStatsRequest, MessageBytes, MultipartRequest};
use of_ports::Ports;
use of_table::Selector;
use of_wire::limits::{OFPP_ANY, OFPTT_ALL};
use std::alloc::{AllocError, Global};

// A number that may mean any.
fn unless_any(number: u32) -> Option<u32>
    ensures { result ≡ none_for OFPP_ANY number }
{
    if number == OFPP_ANY {
        None
    } else {
        Some(number)
    }
}

/// The entries that a request for statistics of flows selects (OpenFlow 1.3.5, 7.3.5.2).
pub fn asked_by(request: FlowStatsRequest) -> Selector
    ensures { result ≡ asked_selector request }
{
    Selector {
        table: if request.table == OFPTT_ALL {
            None
        } else {
            Some(request.table)
        },
        priority: None,
        cookie: request.cookie,
        cookie_mask: request.cookie_mask,
        out_port: unless_any(request.out_port),
        out_group: unless_any(request.out_group),
        fields: request.fields,
    }
}

/// Whether the request is for a port that does not exist.
pub fn asks_absent_port(request: &MultipartRequest, ports: &Ports) -> bool
    ensures { result ≡ asks_for_absent request.now ports.now }
{
    match request {
        MultipartRequest::PortStats(Some(number)) => !ports.contains(*number),
        _ => false,
    }
}

/// These messages as effects.
pub fn answers(alloc: Global, messages: Vec<MessageBytes>) -> Result<Effects, AllocError>
    ensures { IfOk result (λ effects. effects.items ≡ map Answer messages.items) }
{
    let mut effects = Effects::new(alloc);
    for message in messages {
        effects.push(Effect::Answer(message))?;
    }
    Ok(effects)
}
