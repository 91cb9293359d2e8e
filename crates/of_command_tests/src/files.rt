//! What files are read as, and the ports of their switches.
use crate::checks::same;
use of_classifier::Scan;
use of_files::{
    Content, content_of, missing_ports, named_ports, play_file, ports_for, read_table, read_text,
};
use of_ovs_lines::Mode;
use of_replay::{Ended, switch_of_config};
use of_values::Origin;
use std::alloc::Global;
use std::process::Abort;
use std::test::Fail;

/// A flow to port 100 for frames of port 7, and a group whose bucket watches port 9; CONTROLLER is no port of the switch.
const TEXT: &[u8] = b"group 1 ff
bucket 0 9 4294967295
output 8 0
flow 2 10 0x0000000000000000 0 0 0
match in_port 0x00000007
apply
output 100 0
output 4294967293 128
";

/// The same flow as ovs-ofctl prints it.
const TABLE: &[u8] =
    b" cookie=0x0, n_packets=3, table=2, priority=10,in_port=7 actions=output:100,CONTROLLER:128\n";

/// Two ports, then a row that is none.
const EVENTS: &[u8] =
    b"port add 1 0200000000a1 p1 up\n# a comment\nport add 70 0200000000a2 p2 up\nno row\n";

const WHOLE: Mode = Mode {
    skip: false,
    renumber: false,
};

#[test]
fn kinds_of_files(rt: HostRuntime) -> Result<(), Fail> {
    assert!(rt; content_of(TEXT) == Content::FlowText);
    assert!(rt; content_of(TABLE) == Content::OvsTable);
    assert!(rt; content_of(EVENTS) == Content::EventFile);
    Ok(())
}

// The first flow of table 2.
fn flow_of_table_2(origins: &[Vec<Origin>]) -> Result<&Origin, Fail> {
    match origins {
        [_, _, flows, ..] => Ok(flows.get(0).ok_or("no flow")?),
        _ => Err("no table 2".into()),
    }
}

// The ports that a flow text names, those of its switch, and those that another switch lacks.
fn has_ports(rt: &impl Abort, alloc: Global) -> Result<(), Fail> {
    let tables = read_text(alloc, TEXT).ok().ok_or("a flow text")?;
    let flow = flow_of_table_2(&tables.origins)?;
    same(rt, "the line of the flow", &flow.line, &4);
    let named = named_ports(alloc, &tables.config)?;
    let (wanted, all, lacking): (&[u32], &[u32], &[u32]) = (
        &[9, 8, 7, 100],
        &[1, 2, 3, 4, 7, 8, 9, 100],
        &[7, 100],
    );
    same(rt, "named", &named.as_slice(), &wanted);
    let ports = ports_for(alloc, &named)?;
    same(rt, "ports", &ports.as_slice(), &all);
    let missing = missing_ports(alloc, &named, &[8, 9])?;
    same(rt, "missing", &missing.as_slice(), &lacking);
    let switch = switch_of_config::<Scan>(alloc, &tables.config, &ports)?;
    same(rt, "how many ports", &switch.datapath().ports.len(), &8);
    Ok(())
}

#[test]
fn ports_of_a_text(rt: HostRuntime) -> Result<(), Fail> {
    has_ports(&rt, rt.alloc())
}

// A table of ovs-ofctl has the counters of its flows.
fn has_counters(rt: &impl Abort, alloc: Global) -> Result<(), Fail> {
    let tables = read_table(alloc, TABLE, WHOLE).ok().ok_or("a table")?;
    let flow = flow_of_table_2(&tables.origins)?;
    same(rt, "the line of the flow", &flow.line, &1);
    same(rt, "its counters", &flow.counters.len(), &1);
    Ok(())
}

#[test]
fn counters_of_a_table(rt: HostRuntime) -> Result<(), Fail> {
    has_counters(&rt, rt.alloc())
}

// The rows before a bad one are played; the bad one is named.
fn plays_first_rows(rt: &impl Abort, alloc: Global) -> Result<(), Fail> {
    for (lines, ports) in [(1, 1), (2, 1), (3, 2)] {
        let switch = play_file::<Scan>(alloc, EVENTS, Some(lines))
            .ok()
            .ok_or("rows")?;
        same(rt, "ports", &switch.datapath().ports.len(), &ports);
    }
    match play_file::<Scan>(alloc, EVENTS, None) {
        Err(ended) => same(rt, "the end", &ended, &Ended::BadRow(4)),
        Ok(_) => return Err("a bad row is played".into()),
    }
    Ok(())
}

#[test]
fn first_rows_of_a_file(rt: HostRuntime) -> Result<(), Fail> {
    plays_first_rows(&rt, rt.alloc())
}
