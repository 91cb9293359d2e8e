//! Traces of frames.
use crate::contents::{NoFile, SwitchRead, has_port, say_missing};
use crate::left_out::say_part;
use crate::lookups::Lookups;
use crate::screen::Screen;
use of_command_line::{Asked, Trace};
use of_files::Described;
use of_hints::Seen;
use of_replay::Ended;
use of_replay::streams::{ReaderSource, WriterSink};
use of_trace::{Form, Output, trace_file, write_trace};

/// Whether a frame was traced.
#[derive(Clone, Copy, PartialEq, Eq)]
pub enum TraceVerdict {
    Traced,
    /// It was, but groups or flows name ports that the switch does not have.
    MissingPorts,
    /// The switch does not have the port, which standard error says.
    NoPort,
}

fn form_of(explain: bool, why: Option<Asked>) -> Form {
    match why {
        Some(Asked::All) => Form::Why(of_trace::Asked::All),
        Some(Asked::Priority { table, priority }) => {
            Form::Why(of_trace::Asked::Priority { table, priority })
        }
        None if explain => Form::Explained,
        None => Form::Plain,
    }
}

fn output_of(asked: &Trace) -> Output {
    let form = form_of(asked.explain, asked.why);
    if asked.json {
        Output::Json
    } else if asked.lines {
        Output::Lines(form)
    } else {
        Output::Words(form)
    }
}

/// Prints the trace of a frame on the switch of a flow text, which has ports 1 to 64.
pub fn traced_on_text(
    screen: &Screen<'_>,
    asked: &Trace,
    bytes: Vec<u8>,
) -> Result<TraceVerdict, NoFile> {
    let (alloc, port, frame) = (screen.rt.alloc(), asked.port, asked.frame.as_slice());
    let mut reader = ReaderSource::new(bytes.as_slice());
    let mut writer = WriterSink::new(screen.report());
    let output = output_of(asked);
    match trace_file::<Lookups, _, _>(alloc, &mut reader, port, frame, output, &mut writer) {
        Ended::Done => Ok(TraceVerdict::Traced),
        ended => Err(NoFile::Ended {
            seen: Seen::whole(bytes),
            ended,
        }),
    }
}

/// Prints the trace of a frame on the switch of a file.
pub fn traced_on_switch(
    screen: &Screen<'_>,
    asked: &Trace,
    read: SwitchRead,
) -> Result<TraceVerdict, NoFile> {
    let rt = screen.rt;
    let SwitchRead { described, left } = read;
    let Described { switch, missing } = described;
    if !has_port(rt, &switch, "--port", asked.port) {
        return Ok(TraceVerdict::NoPort);
    }
    let (alloc, frame, output) = (rt.alloc(), asked.frame.as_slice(), output_of(asked));
    let is_for_programs = asked.json || asked.lines;
    if let Err(ended) = say_part(screen, is_for_programs, asked.of.path.as_str(), left) {
        return Err(NoFile::ended(alloc, ended));
    }
    let some_missing = match say_missing(screen, asked.json, &missing) {
        Ok(some) => some,
        Err(ended) => return Err(NoFile::ended(alloc, ended)),
    };
    let mut writer = WriterSink::new(screen.report());
    match write_trace(alloc, &switch, asked.port, frame, output, &mut writer) {
        Ended::Done if some_missing => Ok(TraceVerdict::MissingPorts),
        Ended::Done => Ok(TraceVerdict::Traced),
        ended => Err(NoFile::ended(alloc, ended)),
    }
}
