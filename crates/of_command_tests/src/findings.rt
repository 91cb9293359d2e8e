use crate::checks::same;
use of_check::{Verdict, check, check_entry};
use of_classifier::Scan;
use of_switch::Switch;
use of_text::assemble;
use std::alloc::Global;
use std::process::Abort;
use std::test::Fail;

/// A wider match of a higher priority covers an older one.
const HIGHER: &[u8] = b"flow 0 10 0x0000000000000000 0 0 0
match eth_type 0x0800
match ipv4_dst 0x0a000100 0xffffff00
flow 0 20 0x0000000000000000 0 0 0
match eth_type 0x0800
match ipv4_dst 0x0a000000 0xff000000
";

/// Two halves cover what no one entry does; a third half at a lower priority has no part in it.
const TOGETHER: &[u8] = b"flow 0 7 0x0000000000000000 0 0 0
match eth_type 0x0800
match ipv4_dst 0x00000000 0x80000000
flow 0 7 0x0000000000000000 0 0 0
match eth_type 0x0800
match ipv4_dst 0x80000000 0x80000000
flow 0 5 0x0000000000000000 0 0 0
match eth_type 0x0800
match ipv4_src 0x0a000000 0xff000000
match ipv4_dst 0x0a000000 0xff000000
flow 0 4 0x0000000000000000 0 0 0
match eth_type 0x0800
match ipv4_dst 0x0a000000 0x0f000000
";

// Loads the flows of a text.
fn load(alloc: Global, switch: &mut Switch<Scan>, text: &[u8]) -> Result<(), Fail> {
    let config = assemble(alloc, text).ok().ok_or("a configuration")?;
    Ok(switch.load(&config)?)
}

// Whether an entry of table 0 never wins.
fn is_never(
    alloc: Global,
    switch: &Switch<Scan>,
    entry: usize,
    steps: usize,
) -> Result<bool, Fail> {
    let verdict = check_entry(alloc, switch, 0, entry, steps)?;
    Ok(matches!(verdict, Verdict::Never { .. }))
}

// Whether an entry of table 0 is left open.
fn is_open(alloc: Global, switch: &Switch<Scan>, entry: usize, steps: usize) -> Result<bool, Fail> {
    let verdict = check_entry(alloc, switch, 0, entry, steps)?;
    Ok(matches!(verdict, Verdict::Open))
}

// The third entry is covered without any step, and two steps are too few for the fourth.
fn has_verdicts(rt: &impl Abort, alloc: Global, switch: &mut Switch<Scan>) -> Result<(), Fail> {
    load(alloc, switch, TOGETHER)?;
    same(rt, "never", &is_never(alloc, switch, 2, 0)?, &true);
    same(rt, "open", &is_open(alloc, switch, 3, 2)?, &true);
    Ok(())
}

#[test]
fn too_few_steps(rt: HostRuntime) -> Result<(), Fail> {
    let mut switch = Switch::<Scan>::new(rt.alloc(), 1)?;
    has_verdicts(&rt, rt.alloc(), &mut switch)
}

/// The frame of the packet: IPv4 to 10.0.0.0, whose fields are 0 otherwise; its checksum is right.
const PACKET: &[u8] = b"00000000000000000000000008004500001400000000400070eb000000000a000000";

// The older entry is covered, and the younger one wins a packet of port 1.
fn has_a_packet(rt: &impl Abort, alloc: Global, switch: &mut Switch<Scan>) -> Result<(), Fail> {
    load(alloc, switch, HIGHER)?;
    let findings = check(alloc, switch, 1000)?;
    let [_, younger] = findings.as_slice() else {
        return Err("not two findings".into());
    };
    same(rt, "covered", &is_never(alloc, switch, 0, 1000)?, &true);
    let Verdict::Wins { frame, in_port, .. } = &younger.verdict else {
        return Err("no packet".into());
    };
    same(rt, "the port", in_port, &1);
    same(
        rt,
        "the frame",
        &hex::encode(alloc, frame)?.as_bytes(),
        &PACKET,
    );
    Ok(())
}

#[test]
fn the_packet_of_an_entry(rt: HostRuntime) -> Result<(), Fail> {
    let mut switch = Switch::<Scan>::new(rt.alloc(), 1)?;
    has_a_packet(&rt, rt.alloc(), &mut switch)
}
