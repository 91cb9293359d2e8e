//! A switch that serves controllers over sockets.
use crate::beginning::begun_switch;
use crate::files::bytes_of;
use crate::seed::system_seed;
use of_command_line::Serve;
use of_file_reports::Lookups;
use of_replay::Ended;
use of_replay::streams::WriterSink;
use of_serve::serve_on;
use of_sockets::serving::Sockets;
use of_sockets::{Course, Machine, MachineClock, Output, Refusals, Teller, said};
use of_switch::Event;
use of_wire::Bytes;
use std::alloc::{AllocError, Global};
use std::cell::Cell;

// The rows of the file that are refused, unless nothing is to be said. None where the file does not give its lines again, as
// standard input does not.
fn refusals_of(rt: &HostRuntime, asked: &Serve, rows: &[Event]) -> Option<Refusals> {
    let path = asked.events.as_ref()?.as_str();
    if asked.quiet || path == "-" {
        return None;
    }
    let file = bytes_of(rt, path).ok()?;
    Refusals::new::<Lookups>(rt.alloc(), &file, rows).ok()
}

// The same row once more. The rows of an event file are those of frames, ports and times.
fn copied(alloc: Global, row: &Event) -> Result<Event, AllocError> {
    Ok(match row {
        Event::Frame { port, frame } => Event::Frame {
            port: *port,
            frame: Bytes::from_slice(alloc, frame.as_slice())?,
        },
        Event::Moment(nanos) => Event::Moment(*nanos),
        Event::Ports(change) => Event::Ports(*change),
        Event::Connect => Event::Connect,
        Event::Lost => Event::Lost,
        Event::Chunk(bytes) => Event::Chunk(Bytes::from_slice(alloc, bytes.as_slice())?),
    })
}

// The rows once more, for the log; without one only their times matter.
fn course_of(alloc: Global, rows: &[Event], keeps: bool) -> Result<Course, AllocError> {
    let mut all = Vec::new(alloc);
    for row in rows {
        if keeps || matches!(row, Event::Moment(_)) {
            all.push(copied(alloc, row)?)?;
        }
    }
    Ok(Course::new(all))
}

/// Serves controllers on a new switch to which events happened first, with the rows of a file. None, with a line on standard error, if it
/// cannot begin.
pub fn serve_rows(
    teller: &Teller<'_>,
    asked: &Serve,
    first: &[Event],
    rows: Vec<Event>,
) -> Option<Ended> {
    let rt = teller.rt;
    let seed = system_seed(rt)?;
    let machine = Machine::new(rt);
    let has_failed = Cell::new(false);
    let Ok(course) = course_of(rt.alloc(), &rows, asked.log.is_some()) else {
        return Some(Ended::NoMemory);
    };
    let sockets = Sockets::new(teller, &machine, asked, first, course, &has_failed);
    if sockets.is_err() {
        let _ = said(teller, sockets);
        return None;
    }
    let mut peers = sockets.ok()?;
    let mut clock = MachineClock::new(teller, &machine, refusals_of(rt, asked, &rows));
    let mut out = WriterSink::new(Output {
        out: rt.stdout(),
        has_failed: &has_failed,
    });
    let switch = match begun_switch(teller, asked.dpid, seed, first) {
        Ok(switch) => switch,
        Err(AllocError) => return Some(Ended::NoMemory),
    };
    let (ended, _) = serve_on(
        rt.alloc(),
        switch,
        &mut peers,
        &mut clock,
        rows,
        asked.turns,
        &mut out,
    );
    if ended == Ended::Done {
        let _ = eprintln!(teller; "all {} turns are used (--turns)", asked.turns);
    }
    Some(ended)
}
