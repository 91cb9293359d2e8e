//! PORT_STATS and PORT_DESC (OpenFlow 1.3.5, 7.3.5.6 and 7.3.5.7).
ghost use Rattle.std.specs.Prelude.{◌≡◌, ◌≤◌, ◌*◌, ◌++◌, length, OnOk, IfOk};
ghost use Rattle.std.specs.List.{flat_map};
ghost use Rattle.of_messages.specs.Written.{port_bytes};
ghost use Rattle.of_statistics.specs.Ports.{asked_ports, described, port_counts, port_description_bytes, port_row, port_stats_bytes};

use crate::replies::{begun, sealed};
use crate::writing::put_duration;
use of_messages::{MessageBytes, PortDescription, put_port};
use of_ports::{Port, PortCounters, Ports};
use of_wire::{put_u32, put_u64};
use std::alloc::{AllocError, Global};

/// OFPMP_PORT_STATS.
const PORT_STATS: u16 = 4;

/// OFPMP_PORT_DESC.
const PORT_DESC: u16 = 13;

// 56 bytes.
fn put_counters(out: &mut Vec<u8>, counters: PortCounters) -> Result<(), AllocError>
    ensures { OnOk result (out.new.items ≡ out.old.items ++ port_counts counters) }
{
    put_u64(out, counters.rx_packets)?;
    put_u64(out, counters.tx_packets)?;
    put_u64(out, counters.rx_bytes)?;
    put_u64(out, counters.tx_bytes)?;
    put_u64(out, counters.rx_dropped)?;
    put_u64(out, counters.tx_dropped)?;
    put_u64(out, counters.rx_errors)
}

// What a port has counted, 112 bytes.
fn put_stats(out: &mut Vec<u8>, now: u64, port: &Port) -> Result<(), AllocError>
    ensures { OnOk result (out.new.items ≡ out.old.items ++ port_row now port.now) }
{
    put_u32(out, port.number)?;
    out.extend_from_slice(&[0; 4])?;
    put_counters(out, port.counters)?;
    out.extend_from_slice(&[0; 40])?;
    put_duration(out, now, port.created)
}

fn put_all_stats(out: &mut Vec<u8>, now: u64, ports: &[Port]) -> Result<(), AllocError>
    ensures { OnOk result (out.new.items ≡ out.old.items ++ flat_map (port_row now) ports.now) }
{
    for port in ports {
        put_stats(out, now, port)?;
    }
    Ok(())
}

// What the ports have counted that are asked for.
#[tactic(auto, using(crate::proofs::Sizes::stats_short))]
fn put_asked_stats(
    out: &mut Vec<u8>,
    now: u64,
    ports: &Ports,
    which: Option<u32>,
) -> Result<(), AllocError>
    ensures rows { OnOk result (out.new.items ≡ out.old.items ++ flat_map (port_row now) (asked_ports which ports.now)) }
    ensures short { OnOk result (length (flat_map (port_row now) (asked_ports which ports.now)) ≤ 7168) }
{
    let all = ports.as_slice();
    let Some(number) = which else {
        return put_all_stats(out, now, all);
    };
    match ports.port(number) {
        Some(port) => put_stats(out, now, port),
        None => Ok(()),
    }
}

/// What a port has counted, or each port in ascending order, and how long it has existed at that moment in nanoseconds
/// (OpenFlow 1.3.5, 7.3.5.6). `None` is all ports; a port that does not exist has no row.
pub fn port_stats_reply(
    alloc: Global,
    xid: u32,
    ports: &Ports,
    which: Option<u32>,
    now: u64,
) -> Result<MessageBytes, AllocError>
    ensures { IfOk result (λ r. r ≡ port_stats_bytes xid now which ports.now) }
{
    let mut out = begun(alloc)?;
    put_asked_stats(&mut out, now, ports, which)?;
    Ok(sealed(out, xid, PORT_STATS, 0))
}

/// A port as messages describe it (OpenFlow 1.3.5, 7.2.1).
pub fn description_of(port: &Port) -> PortDescription
    ensures { result ≡ described port.now }
{
    PortDescription {
        number: port.number,
        hw: port.hw,
        name: port.name,
        config: port.config.bits(),
        state: port.state_bits(),
    }
}

// What each port is, 64 bytes each.
fn put_descriptions(out: &mut Vec<u8>, ports: &[Port]) -> Result<(), AllocError>
    ensures text { OnOk result (out.new.items ≡ out.old.items ++ flat_map (λ p. port_bytes (described p)) ports.now) }
    ensures size { OnOk result (length (flat_map (λ p. port_bytes (described p)) ports.now) ≡ 64 * length ports.now) }
{
    for port in ports {
        put_port(out, &description_of(port))?;
    }
    Ok(())
}

/// What each port is, in ascending order of number (OpenFlow 1.3.5, 7.3.5.7).
pub fn port_description_reply(
    alloc: Global,
    xid: u32,
    ports: &Ports,
) -> Result<MessageBytes, AllocError>
    ensures { IfOk result (λ r. r ≡ port_description_bytes xid ports.now) }
{
    let mut out = begun(alloc)?;
    put_descriptions(&mut out, ports.as_slice())?;
    Ok(sealed(out, xid, PORT_DESC, 0))
}
