use crate::checks::same;
use of_cache::Cached;
use of_classifier::{Lookup, Scan};
use of_headers::{FieldKey, read};
use of_mask_groups::MaskGroups;
use of_replay::memory::MemorySink;
use of_replay::{Ended, push_effects};
use of_switch::{Effect, PortChange, Switch};
use of_trace::{Asked, Form, Output, Style, explain, print, write_trace};
use of_tracing::{Reason, trace, why};
use std::alloc::Global;
use std::process::Abort;
use std::test::Fail;

/// A FLOW_MOD that adds a flow to table 0: of priority 10, for IN_PORT 1, with APPLY of OUTPUT 2.
const TO_PORT_2: [u8; 88] = [
    4, 14, 0, 88, 0, 0, 0, 2, 0, 0, 0, 0, 0, 0, 0, 0, 0, 0, 0, 0, 0, 0, 0, 0, 0, 0, 0, 0, 0, 0, 0,
    10, 255, 255, 255, 255, 255, 255, 255, 255, 255, 255, 255, 255, 0, 0, 0, 0, 0, 1, 0, 12, 128,
    0, 0, 4, 0, 0, 0, 1, 0, 0, 0, 0, 0, 4, 0, 24, 0, 0, 0, 0, 0, 0, 0, 16, 0, 0, 0, 2, 0, 0, 0, 0,
    0, 0, 0, 0,
];

/// A frame of 60 bytes: addresses, the type 0x88b5, and zeros.
const FRAME: [u8; 60] = [
    2, 0, 0, 0, 0, 2, 2, 0, 0, 0, 0, 1, 0x88, 0xb5, 0, 0, 0, 0, 0, 0, 0, 0, 0, 0, 0, 0, 0, 0, 0, 0,
    0, 0, 0, 0, 0, 0, 0, 0, 0, 0, 0, 0, 0, 0, 0, 0, 0, 0, 0, 0, 0, 0, 0, 0, 0, 0, 0, 0, 0, 0,
];

const TRACED: &[u8] = b"lookup 0 entry 0
apply
output 2 0
set
end
s 2 02000000000202000000000188b500000000000000000000000000000000000000000000000000000000000000000000000000000000000000000000
";

/// The same with notes.
const EXPLAINED: &[u8] = b"lookup 0 entry 0
    flow 0 10 0x0000000000000000 0 0 0
    match in_port 0x00000001
    sees in_port 0x00000001
apply
output 2 0
set
    the action set has no output
end
s 2 02000000000202000000000188b500000000000000000000000000000000000000000000000000000000000000000000000000000000000000000000
";

/// By port 2, with the reasons of table 0 and priority 10.
const REASONED: &[u8] = b"lookup 0 miss
    no entry matches in table 0
    sees in_port 0x00000002
    entry 0 (priority 10): in_port is 0x00000002, not 0x00000001
end
";

/// In words, written by hand.
const IN_WORDS: &[u8] = b"in_port 1, eth 02:00:00:00:00:01 > 02:00:00:00:00:02, eth_type 0x88b5
table 0: entry 0, priority 10, in_port 1
apply actions
output 2
run the action set
end
out by port 2: 02000000000202000000000188b500000000000000000000000000000000000000000000000000000000000000000000000000000000000000000000
";

/// As JSON, written by hand.
const AS_JSON: &[u8] =
    b"{\"version\":1,\"command\":\"trace\",\"in_port\":1,\"frame\":\"02000000000202000000000188b500000000000000000000000000000000000000000000000000000000000000000000000000000000000000000000\",\"steps\":[{\"step\":\"entry\",\"table\":0,\"entry\":0,\"priority\":10,\"match\":{\"in_port\":\"1\"}},{\"step\":\"apply\"},{\"step\":\"output\",\"port\":2,\"max_len\":0},{\"step\":\"action set\"},{\"step\":\"end\"}],\"effects\":[{\"effect\":\"frame\",\"port\":2,\"frame\":\"02000000000202000000000188b500000000000000000000000000000000000000000000000000000000000000000000000000000000000000000000\"}]}
";

fn added(number: u32) -> PortChange {
    PortChange::Add {
        number,
        hw: [2, 0, 0, 0, 0, 1],
        name: [0; 16],
        up: true,
    }
}

// The controller sends a message.
fn send<L: Lookup>(switch: &mut Switch<L>, message: &[u8]) -> Result<(), Fail> {
    switch.feed(message)?;
    switch.next()?;
    Ok(())
}

// Two ports are added, and a controller says HELLO.
fn open<L: Lookup>(switch: &mut Switch<L>) -> Result<(), Fail> {
    for number in 1..=2 {
        switch.port_change(added(number))?;
    }
    switch.connected()?;
    send(switch, &[4, 0, 0, 8, 0, 0, 0, 1])
}

/// How a trace becomes a text.
#[derive(Clone, Copy)]
enum Text {
    Printed,
    Explained,
    Written(Output),
}

/// Why an entry won or did not.
#[derive(Clone, Copy)]
enum Why {
    NoEntry,
    Won,
    /// A field of its match differs, of which the packet has this value.
    Has(u128),
}

/// What is done to a switch, and what is seen of it.
#[derive(Clone, Copy)]
enum Step {
    /// The flow to port 2 is added.
    Flow,
    /// A trace of the frame by a port.
    Trace(u32, Text, &'static [u8]),
    /// Why the entry of that place in table 0 won or did not, of the frame by a port.
    Reason(u32, usize, Why),
    /// The frame comes by a port, and has so many effects.
    Frame(u32, usize),
}

/// The reasons of table 0 and priority 10.
const WHY: Form = Form::Why(Asked::Priority {
    table: 0,
    priority: 10,
});

// A trace changes nothing: the second text is the first, and then the frame leaves as they say.
const STEPS: &[Step] = &[
    Step::Trace(1, Text::Printed, b"lookup 0 miss\nend\n"),
    Step::Flow,
    Step::Trace(1, Text::Printed, TRACED),
    Step::Trace(1, Text::Printed, TRACED),
    Step::Trace(1, Text::Explained, EXPLAINED),
    Step::Trace(1, Text::Written(Output::Lines(Form::Plain)), TRACED),
    Step::Trace(1, Text::Written(Output::Words(Form::Plain)), IN_WORDS),
    Step::Trace(1, Text::Written(Output::Json), AS_JSON),
    Step::Trace(2, Text::Written(Output::Lines(WHY)), REASONED),
    Step::Reason(1, 0, Why::Won),
    Step::Reason(1, 1, Why::NoEntry),
    Step::Reason(2, 0, Why::Has(2)),
    Step::Frame(1, 1),
];

fn printed<L: Lookup>(alloc: Global, switch: &Switch<L>, port: u32) -> Result<Vec<u8>, Fail> {
    let traced = trace(alloc, switch, port, &FRAME)?;
    Ok(print(alloc, &traced)?)
}

fn explained<L: Lookup>(alloc: Global, switch: &Switch<L>, port: u32) -> Result<Vec<u8>, Fail> {
    let traced = trace(alloc, switch, port, &FRAME)?;
    Ok(explain(
        alloc,
        switch,
        Style::Lines,
        Asked::Nothing,
        port,
        &FRAME,
        &traced,
    )?)
}

fn written<L: Lookup>(
    alloc: Global,
    switch: &Switch<L>,
    port: u32,
    output: Output,
) -> Result<Vec<u8>, Fail> {
    let mut sink = MemorySink::new(alloc, 100, 0);
    let ended = write_trace(alloc, switch, port, &FRAME, output, &mut sink);
    let text = if ended == Ended::Done {
        sink.bytes()
    } else {
        b"not written"
    };
    Ok(Vec::from_slice(alloc, text)?)
}

fn text_of<L: Lookup>(
    alloc: Global,
    switch: &Switch<L>,
    port: u32,
    text: Text,
) -> Result<Vec<u8>, Fail> {
    match text {
        Text::Printed => printed(alloc, switch, port),
        Text::Explained => explained(alloc, switch, port),
        Text::Written(output) => written(alloc, switch, port, output),
    }
}

fn is_so(reason: Option<Reason>, why: Why) -> bool {
    match (reason, why) {
        (None, Why::NoEntry) | (Some(Reason::Won), Why::Won) => true,
        (Some(Reason::Differs { found, .. }), Why::Has(value)) => found == Some(value),
        _ => false,
    }
}

fn key_of(port: u32) -> Result<FieldKey, Fail> {
    Ok(read(&FRAME, port, 0).ok().ok_or("a frame")?.key())
}

fn play<L: Lookup>(
    rt: &impl Abort,
    alloc: Global,
    switch: &mut Switch<L>,
    step: Step,
) -> Result<(), Fail> {
    match step {
        Step::Flow => send(switch, &TO_PORT_2),
        Step::Trace(port, text, wanted) => {
            let found = text_of(alloc, switch, port, text)?;
            same(rt, "a text", &found.as_slice(), &wanted);
            Ok(())
        }
        Step::Reason(port, entry, reason) => {
            let found = why(switch, 0, &key_of(port)?, entry);
            same(rt, "a reason", &is_so(found, reason), &true);
            Ok(())
        }
        Step::Frame(port, count) => {
            let effects = switch.frame(port, &FRAME)?;
            same(rt, "effects", &effects.len(), &count);
            Ok(())
        }
    }
}

fn play_all<L: Lookup>(rt: &impl Abort, alloc: Global, switch: &mut Switch<L>) -> Result<(), Fail> {
    open(switch)?;
    for step in STEPS {
        play(rt, alloc, switch, *step)?;
    }
    Ok(())
}

fn plays<L: Lookup>(rt: &impl Abort, alloc: Global) -> Result<(), Fail> {
    let mut switch = Switch::<L>::new(alloc, 1)?;
    play_all(rt, alloc, &mut switch)
}

#[test]
fn steps(rt: HostRuntime) -> Result<(), Fail> {
    plays::<Scan>(&rt, rt.alloc())
}

#[test]
fn steps_of_the_running_switch(rt: HostRuntime) -> Result<(), Fail> {
    plays::<Cached<MaskGroups>>(&rt, rt.alloc())
}

/// Numbers of 31 bits by a linear congruence (Knuth, The Art of Computer Programming 2, 3.3.4).
#[derive(Clone, Copy)]
struct Numbers {
    state: u64,
}

impl Numbers {
    fn next(&mut self) -> u64 {
        self.state = self
            .state
            .wrapping_mul(6_364_136_223_846_793_005)
            .wrapping_add(1_442_695_040_888_963_407);
        self.state >> 33
    }
}

fn effects_text(alloc: Global, effects: &[Effect]) -> Result<Vec<u8>, Fail> {
    let mut text = Vec::new(alloc);
    push_effects(alloc, &mut text, effects)?;
    Ok(text)
}

// A trace has the effects that the frame then has.
fn tells<L: Lookup>(
    rt: &impl Abort,
    alloc: Global,
    switch: &mut Switch<L>,
    port: u32,
    frame: &[u8],
) -> Result<(), Fail> {
    let told = effects_text(alloc, &trace(alloc, switch, port, frame)?.effects)?;
    let done = effects_text(alloc, &switch.frame(port, frame)?)?;
    same(rt, "effects", &told.as_slice(), &done.as_slice());
    Ok(())
}

// Frames by any of three ports, of which the third is not there.
fn tells_all<L: Lookup>(
    rt: &impl Abort,
    alloc: Global,
    switch: &mut Switch<L>,
) -> Result<(), Fail> {
    open(switch)?;
    send(switch, &TO_PORT_2)?;
    let mut numbers = Numbers { state: 1 };
    for _ in 0..50 {
        let port = (numbers.next() % 3) as u32 + 1;
        let mut frame = FRAME;
        frame[13] = (numbers.next() % 256) as u8;
        tells(rt, alloc, switch, port, &frame)?;
    }
    Ok(())
}

#[test]
fn traces_tell_what_frames_do(rt: HostRuntime) -> Result<(), Fail> {
    let mut switch = Switch::<Cached<MaskGroups>>::new(rt.alloc(), 1)?;
    tells_all(&rt, rt.alloc(), &mut switch)
}
