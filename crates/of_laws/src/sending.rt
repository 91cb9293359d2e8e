//! The configuration that messages give.
ghost use Rattle.std.specs.Prelude.{◌≡◌, ◌+◌, ◌⊎◌, ℕ, List, ◌∷◌, true, Ok, Err, IfOk, IfErr, OnOk};
ghost use Rattle.of_switch.specs.Runs.{chunk_in};
ghost use Rattle.of_laws.specs.Sending.{IsReady, error_code_in as code_is, config_by, config_from, error_in, greeted as greeted_switch, is_command as is_one_command};

use crate::fault::ConfigFault;
use byteorder::{BigEndian, ByteOrder};
use of_classifier::Scan;
use of_formats::messages::{ERROR, FLOW_MOD, GROUP_MOD};
use of_switch::{Effect, Switch, SwitchError};
use of_text::Config;
use of_wire::{Bytes, Code};
use std::alloc::Global;

/// The datapath_id of the switch, which no configuration shows (OpenFlow 1.3.5, 7.3.1).
const DPID: u64 = 1;

/// A HELLO of version 4 without elements (OpenFlow 1.3.5, 7.5.1).
const HELLO: [u8; 8] = [4, 0, 0, 8, 0, 0, 0, 0];

// Whether these bytes are a single whole GROUP_MOD or FLOW_MOD, by its header.
fn is_command(message: &[u8]) -> bool
    ensures { result ≡ is_one_command message.now }
{
    message.len() >= 8
        && usize::from(message[2]) * 256 + usize::from(message[3]) == message.len()
        && matches!(message[1], GROUP_MOD | FLOW_MOD)
}

// The code of an ERROR; None of another message.
fn code_of(message: &[u8]) -> Option<Code>
    ensures { result ≡ code_is message.now }
{
    if message.len() < 12 || message[1] != ERROR {
        return None;
    }
    Some(Code {
        kind: BigEndian::read_u16(&message[8..]),
        code: BigEndian::read_u16(&message[10..]),
    })
}

// The code of the first ERROR among effects.
fn error_among(effects: &[Effect]) -> Option<Code>
    ensures { result ≡ error_in effects.now }
{
    for effect in effects {
        if let Effect::Answer(message) = effect
            && let Some(code) = code_of(message.as_slice())
        {
            return Some(code);
        }
    }
    None
}

// A new switch, to which a controller connected that sent its HELLO.
fn greeted(alloc: Global) -> Result<Switch<Scan>, SwitchError>
    ensures switch { IfOk result (λ s. s ≡ greeted_switch) }
    ensures ready { IfOk result IsReady }
{
    let mut switch = Switch::new(alloc, DPID)?;
    switch.connected()?;
    switch.feed(&HELLO)?;
    switch.next()?;
    Ok(switch)
}

// Sends a command, and returns the code of the ERROR that answers it.
fn send(switch: &mut Switch<Scan>, command: &[u8]) -> Result<Option<Code>, SwitchError>
    requires command { is_one_command command.now ≡ true }
    requires ready { IsReady switch.old }
    ensures code { IfOk result (λ code. code ≡ error_in (chunk_in command.now switch.old).effects) }
    ensures state { OnOk result (switch.new ≡ (chunk_in command.now switch.old).state) }
    ensures ready { OnOk result (IsReady switch.new) }
{
    switch.feed(command)?;
    let Some(effects) = switch.next()? else {
        unreachable!()
    };
    Ok(error_among(&effects))
}

// Sends the message at that place, unless it is no command.
fn take(switch: &mut Switch<Scan>, place: usize, message: &[u8]) -> Result<(), ConfigFault>
    requires ready { IsReady switch.old }
    // Whatever follows it.
    ensures goes_on { OnOk result ((later : List (List ℕ)) → config_from place (message.now ∷ later) switch.old ≡ config_from (place + 1) later switch.new) }
    ensures ready { OnOk result (IsReady switch.new) }
    ensures failed { IfErr result (λ fault. (fault ≡ ConfigFault.NoMemory) ⊎
        ((later : List (List ℕ)) → config_from place (message.now ∷ later) switch.old ≡ Err fault)) }
{
    if !is_command(message) {
        return Err(ConfigFault::NotACommand { place });
    }
    match send(switch, message) {
        Ok(None) => Ok(()),
        Ok(Some(code)) => Err(ConfigFault::Refused { place, code }),
        Err(_) => Err(ConfigFault::NoMemory),
    }
}

/// The configuration that a new switch has after a controller that said HELLO sent it these messages, one by one.
///
/// Each is to be a single whole GROUP_MOD or FLOW_MOD, of any command (OpenFlow 1.3.5, 7.3.4.1 and 7.3.4.2). At the first
/// that is not, or that the switch answers by an ERROR, the configuration is refused with its place.
pub fn config_of(alloc: Global, messages: &[Bytes]) -> Result<Config, ConfigFault>
    ensures given { IfOk result (λ config. config_by messages.now ≡ Ok config) }
    ensures failed { IfErr result (λ fault. (fault ≡ ConfigFault.NoMemory) ⊎ (config_by messages.now ≡ Err fault)) }
{
    let Ok(mut switch) = greeted(alloc) else {
        return Err(ConfigFault::NoMemory);
    };
    let mut place = 0;
    for message in messages {
        take(&mut switch, place, message.as_slice())?;
        place += 1;
    }
    Ok(switch.config()?)
}
