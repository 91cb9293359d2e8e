//! PORT_STATUS messages (OpenFlow 1.3.5, 7.4.3).
ghost use Rattle.std.specs.Prelude.{◌≡◌, ◌∷◌, [], IfOk};
ghost use Rattle.of_datapath.specs.PortStatus.{change_told, is_shown_alike as shows_alike, status_bit, status_told};

use crate::control::{AsyncConfig, lets_through};
use crate::effect::{Effect, Effects};
use of_messages::{PortStatusReason, write_port_status};
use of_ports::Port;
use of_statistics::description_of;
use std::alloc::{AllocError, Global};

fn reason_bit(reason: PortStatusReason) -> u32
    ensures { result ≡ status_bit reason }
{
    match reason {
        PortStatusReason::Add => 1,
        PortStatusReason::Delete => 2,
        PortStatusReason::Modify => 4,
    }
}

/// The PORT_STATUS of a port, where the controller's mask has its reason.
pub fn write_status(
    alloc: Global,
    heard: AsyncConfig,
    reason: PortStatusReason,
    port: &Port,
) -> Result<Effects, AllocError>
    ensures { IfOk result (λ effects. effects.items ≡ status_told heard reason port.now) }
{
    let mut effects = Effects::new(alloc);
    if lets_through(heard.port_status, reason_bit(reason)) {
        let message = write_port_status(alloc, 0, reason, &description_of(port))?;
        effects.push(Effect::Answer(message))?;
    }
    Ok(effects)
}

fn is_shown_alike(old: &Port, new: &Port) -> bool
    ensures { result ≡ shows_alike old.now new.now }
{
    old.config.bits() == new.config.bits() && old.state_bits() == new.state_bits()
}

/// The PORT_STATUS of a port that becomes another one, where the controller's mask has its reason.
/// There is none where the port's description does not change.
pub fn write_change(
    alloc: Global,
    heard: AsyncConfig,
    old: &Port,
    new: &Port,
) -> Result<Effects, AllocError>
    ensures { IfOk result (λ effects. effects.items ≡ change_told heard old.now new.now) }
{
    if is_shown_alike(old, new) {
        return Ok(Effects::new(alloc));
    }
    write_status(alloc, heard, PortStatusReason::Modify, new)
}
