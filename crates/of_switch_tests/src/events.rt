//! Events as rows of a text, and what a switch gives for them.
use of_classifier::Lookup;
use of_switch::{Effect, Event, PortChange, Report, Switch};
use of_test_peers::rows::{bytes_of, number_of, sides};
use of_wire::Bytes;
use std::alloc::{AllocError, Global};
use std::test::Fail;

fn port_of(digits: &str) -> Result<u32, Fail> {
    let port = u32::try_from(number_of(digits)?).ok();
    Ok(port.ok_or("a port")?)
}

fn port_added(digits: &str) -> Result<Event, Fail> {
    Ok(Event::Ports(PortChange::Add {
        number: port_of(digits)?,
        hw: [2, 0, 0, 0, 0, 1],
        name: [0; 16],
        up: true,
    }))
}

fn link_changed(words: &str) -> Result<Event, Fail> {
    let (port, state) = words.split_once(' ').ok_or("a port and a state")?;
    Ok(Event::Ports(PortChange::Link {
        number: port_of(port)?,
        up: state == "up",
    }))
}

fn frame_of(alloc: Global, words: &str) -> Result<Event, Fail> {
    let (port, frame) = words.split_once(' ').ok_or("a port and a frame")?;
    Ok(Event::Frame {
        port: port_of(port)?,
        frame: Bytes::new(bytes_of(alloc, frame)?),
    })
}

// The event of a row.
fn event_of(alloc: Global, kind: &str, words: &str) -> Result<Event, Fail> {
    match kind {
        "port" => port_added(words),
        "connect" => Ok(Event::Connect),
        "c" => Ok(Event::Chunk(Bytes::new(bytes_of(alloc, words)?))),
        "f" => frame_of(alloc, words),
        "t" => Ok(Event::Moment(number_of(words)? as u64)),
        "link" => link_changed(words),
        _ => Err("a kind of event".into()),
    }
}

/// The events of the rows.
pub fn events_of(alloc: Global, text: &str) -> Result<Vec<Event>, Fail> {
    let mut events = Vec::new(alloc);
    for line in text.lines() {
        if let Some((kind, words)) = sides(line)? {
            events.push(event_of(alloc, kind, words)?)?;
        }
    }
    Ok(events)
}

fn push_effect(out: &mut Vec<u8>, effect: &Effect) -> Result<(), AllocError> {
    match effect {
        Effect::Answer(bytes) => out.extend_from_slice(bytes.as_slice()),
        Effect::Sent { port, frame } => {
            out.extend_from_slice(&port.to_be_bytes())?;
            out.extend_from_slice(frame.as_slice())
        }
        Effect::Closed => Ok(out.push(0)?),
    }
}

fn push_effects(out: &mut Vec<u8>, effects: &[Effect]) -> Result<(), AllocError> {
    for effect in effects {
        push_effect(out, effect)?;
    }
    Ok(())
}

fn push_report(out: &mut Vec<u8>, report: &Report) -> Result<(), AllocError> {
    match report {
        Report::Gives(effects) => push_effects(out, effects),
        Report::Refused(why) => out.extend_from_slice(&why.number().to_be_bytes()),
    }
}

/// All that was given, one byte after the other: answers, the port and the bytes of each frame, and the number of each refusal.
pub fn given(alloc: Global, reports: &[Report]) -> Result<Vec<u8>, AllocError> {
    let mut out = Vec::new(alloc);
    for report in reports {
        push_report(&mut out, report)?;
    }
    Ok(out)
}

fn run<L: Lookup>(
    alloc: Global,
    switch: &mut Switch<L>,
    text: &str,
    reports: &mut Vec<Report>,
) -> Result<(), Fail> {
    Ok(switch.run(&events_of(alloc, text)?, reports)?)
}

/// What one call of all events gives.
pub fn given_at_once<L: Lookup>(
    alloc: Global,
    switch: &mut Switch<L>,
    text: &str,
) -> Result<Vec<u8>, Fail> {
    let mut reports = Vec::new(alloc);
    run(alloc, switch, text, &mut reports)?;
    Ok(given(alloc, &reports)?)
}
