//! Rows that are printed or come while a switch runs, and messages in words.
use crate::checks::same;
use of_cache::Cached;
use of_explain::say_messages;
use of_live::{RunningRow, read_running_row};
use of_mask_groups::MaskGroups;
use of_replay::memory::{MemorySink, MemorySource};
use of_replay::{Ended, Plain, print_file};
use of_switch::{Event, PortChange};
use std::alloc::Global;
use std::test::Fail;

/// How the running switch looks entries up.
type Lookups = Cached<MaskGroups>;

#[test]
fn reads_are_counted(rt: HostRuntime) -> Result<(), Fail> {
    let mut source = MemorySource::new(rt.alloc(), b"connect\nlost\nconnect\n", 8, 0)?;
    let mut sink = MemorySink::new(rt.alloc(), 65_536, 0);
    let ended = print_file::<Lookups, _, _, _>(rt.alloc(), 1, 1, &Plain, &mut source, &mut sink);
    same(&rt, "its end", &ended, &Ended::ReadFault);
    let greeting: &[u8] = b"a 04000010000000000001000800000010\n";
    same(&rt, "what it prints", &sink.bytes(), &greeting);
    Ok(())
}

/// HELLO of xid 1 and of xid 0x10, with the bitmap of version 4 (7.5.1), and a byte.
const HELLOS: [u8; 25] = [
    4, 0, 0, 8, 0, 0, 0, 1, 4, 0, 0, 16, 0, 0, 0, 16, 0, 1, 0, 8, 0, 0, 0, 16, 4,
];

#[test]
fn messages_are_said(rt: HostRuntime) -> Result<(), Fail> {
    let mut text = Vec::new(rt.alloc());
    let left = say_messages(rt.alloc(), &mut text, &HELLOS)?;
    same(&rt, "bytes that are left", &left, &1);
    let lines: &[u8] = b"HELLO xid 1, 8 bytes\nHELLO xid 16, 16 bytes\n";
    same(&rt, "the messages", &text.as_slice(), &lines);
    Ok(())
}

fn running_row(alloc: Global, line: &[u8]) -> Result<RunningRow, Fail> {
    let mut frame = Vec::new(alloc);
    Ok(read_running_row(alloc, line, &mut frame)?)
}

fn is_link_down(row: &RunningRow) -> bool {
    matches!(
        row,
        RunningRow::Happens(Event::Ports(PortChange::Link {
            number: 3,
            up: false
        }))
    )
}

#[test]
fn rows_come_while_it_runs(rt: HostRuntime) -> Result<(), Fail> {
    assert!(rt; is_link_down(&running_row(rt.alloc(), b"port link 3 down")?));
    let row = running_row(rt.alloc(), b"t 5")?;
    assert!(rt; matches!(row, RunningRow::Bad));
    Ok(())
}
