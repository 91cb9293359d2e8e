//! `ofswitch`: an OpenFlow 1.3 switch on the command line.
#![tactic(auto)]

ghost use Rattle.std.specs.Prelude.{◌≡◌};

mod asking;
mod assembling;
mod beginning;
mod diffing;
mod encoding;
mod files;
mod folding;
mod history;
mod live;
mod say;
mod seed;
mod serving;

use crate::asking::{check_asked, paths_asked, trace_asked};
use crate::assembling::{assembled, dumped};
use crate::beginning::events_of_tables;
use crate::diffing::diffed;
use crate::encoding::{NotEncoded, encoded};
use crate::files::{Opened, bytes_of, open, read_whole, said_dpid, with_ports};
use crate::folding::Folded;
use crate::history::{HistoryVerdict, recounted};
use live::{are_peers, live_rows};
use of_command_line::{
    Check, CheckOutput, Diff, FileRun, HistoryAsked, Live, NoRequest, OvsReading, PathsAsked,
    ReplayOutput, Request, Run, Serve, SwitchFile, Trace, read_request,
};
use of_diff_report::DiffVerdict;
use of_explain::{Answering, Explaining, ExplainingJson};
use of_file_reports::{
    CheckVerdict, Lookups, NoFile, NoPaths, NotImported, Screen, TraceVerdict, imported,
    imported_as_json, is_table, mode_of, print_fault, say_word,
};
use of_hints::{Seen, Watched, end, end_file};
use of_paths_report::PathsVerdict;
use of_replay::streams::{ReaderSource, WriterSink};
use of_replay::{Ended, Plain, RowPrinter, Sink, Source, asm, dis, print_file, status, write_all};
use of_sockets::{Teller, ended_unopened, read_rows};
use of_switch::Event;
use say::{Unsaid, said};
use serving::serve_rows;
use std::io::{self, Read};
use std::process::ExitCode;

/// The exit status if the arguments are not understood.
const BAD_ARGUMENTS: u8 = 1;

/// The exit status if lines of a table of Open vSwitch, or bytes of messages, are at fault.
const BAD_LINES: u8 = 2;

/// The exit status if a read, a write or a socket fails.
const FAILED: u8 = 3;

/// The exit status if some of its lines are left out.
const LEFT_OUT: u8 = 4;

/// The exit status if `check` found something, or `diff` a difference.
const FOUND: u8 = 4;

/// The exit status if `diff` found no difference, or `paths` found paths, but frames are undecided; or if ports are named that a switch does not
/// have.
const UNDECIDED: u8 = 5;

// Failures to write to standard error are ignored and do not change the exit status.
fn main(rt: HostRuntime) -> ExitCode {
    let arguments = match std::env::args(&rt) {
        Ok(arguments) => arguments,
        Err(error) if error.kind() == io::ErrorKind::InvalidData => {
            let _ = eprintln!(rt; "argument is not UTF-8");
            return ExitCode::from(BAD_ARGUMENTS);
        }
        Err(_) => return end(&rt, &Ended::NoMemory),
    };
    let Ok(words) = arguments.collect::<Vec<String>>(rt.alloc()) else {
        return end(&rt, &Ended::NoMemory);
    };
    match read_request(rt.alloc(), &rt, &words) {
        Ok(line) => carry_out(&Screen::new(&rt, &line), &line.request),
        Err(why) => tell(&rt, &why),
    }
}

// Help goes to standard output with status 0, and what is wrong with the arguments to standard error with status 1.
fn tell(rt: &HostRuntime, why: &NoRequest) -> ExitCode {
    match why {
        NoRequest::NoMemory => end(rt, &Ended::NoMemory),
        NoRequest::Asked(text) => {
            let screen = Screen::plain(rt);
            if write_all(&mut WriterSink::new(screen.report()), text.as_bytes()) {
                ExitCode::SUCCESS
            } else {
                end(rt, &Ended::WriteFault)
            }
        }
        NoRequest::Refused(text) => {
            let _ = eprint!(rt; "{text}");
            ExitCode::from(BAD_ARGUMENTS)
        }
        NoRequest::Words { what, refusal } => {
            say_word(rt, what, refusal);
            ExitCode::from(BAD_ARGUMENTS)
        }
    }
}

fn carry_out(screen: &Screen<'_>, request: &Request) -> ExitCode {
    let rt = screen.rt;
    match request {
        Request::File(asked) => run_file(screen, asked),
        Request::Trace(asked) => run_trace(screen, asked),
        Request::History(asked) => run_history(screen, asked),
        Request::Check(asked) => run_check(screen, asked),
        Request::Diff(asked) => run_diff(screen, asked),
        Request::Paths(asked) => run_paths(screen, asked),
        Request::Import {
            file,
            reading,
            json,
        } => run_import(screen, file.as_str(), reading, *json),
        Request::Assemble(of) => run_assembly(screen, of),
        Request::Dump(of) => run_dump(screen, of),
        Request::Encode { words, xid } => run_encoding(screen, words.as_str(), *xid),
        Request::Say { messages } => run_say(screen, messages.as_str()),
        Request::Serve(asked) => run_serve(rt, asked),
        Request::Live(asked) => run_live(rt, asked),
    }
}

fn run_import(screen: &Screen<'_>, path: &str, reading: &OvsReading, json: bool) -> ExitCode {
    let (rt, mode) = (screen.rt, mode_of(reading));
    let numbered = match bytes_of(rt, path) {
        Ok(bytes) => with_ports(rt, &reading.port_names, bytes),
        Err(why) => Err(why),
    };
    let bytes = match numbered {
        Ok(bytes) => bytes,
        Err(why) => return end_unread(rt, path, why),
    };
    // how many lines of a table are left out or lose an action
    let done = if json {
        imported_as_json(screen, &bytes, mode)
    } else {
        imported(screen, &bytes, mode)
    };
    match done {
        Ok(0) => ExitCode::SUCCESS,
        Ok(_) => ExitCode::from(LEFT_OUT),
        Err(NotImported::Faults) => ExitCode::from(BAD_LINES),
        Err(NotImported::Ended(ended)) => end_file(rt, path, &Seen::nothing(rt.alloc()), &ended),
    }
}

fn run_assembly(screen: &Screen<'_>, of: &SwitchFile) -> ExitCode {
    match assembled(screen, of) {
        Ok(()) => ExitCode::SUCCESS,
        Err(why) => end_unread(screen.rt, of.path.as_str(), why),
    }
}

fn run_dump(screen: &Screen<'_>, of: &SwitchFile) -> ExitCode {
    match dumped(screen, of) {
        Ok(true) => ExitCode::SUCCESS,
        Ok(false) => ExitCode::from(BAD_LINES),
        Err(why) => end_unread(screen.rt, of.path.as_str(), why),
    }
}

fn run_encoding(screen: &Screen<'_>, words: &str, xid: u32) -> ExitCode {
    match encoded(screen, words, xid) {
        Ok(()) => ExitCode::SUCCESS,
        Err(NotEncoded::Refused) => ExitCode::from(BAD_ARGUMENTS),
        Err(NotEncoded::Ended(ended)) => end(screen.rt, &ended),
    }
}

fn run_say(screen: &Screen<'_>, word: &str) -> ExitCode {
    let rt = screen.rt;
    match said(screen, word) {
        Ok(()) => ExitCode::SUCCESS,
        Err(Unsaid::Ended(ended)) => end(rt, &ended),
        Err(Unsaid::Unread(why)) => end_unread(rt, word, why),
        Err(Unsaid::BadHex) => {
            let _ = eprintln!(rt;
                "bad hex: messages are hexadecimal digits, two per byte, or the bytes themselves"
            );
            ExitCode::from(BAD_LINES)
        }
        Err(Unsaid::Left(count)) => {
            let _ = eprintln!(rt; "the last {count} bytes are no whole message");
            ExitCode::from(BAD_LINES)
        }
    }
}

fn run_file(screen: &Screen<'_>, asked: &FileRun) -> ExitCode {
    let (rt, path) = (screen.rt, asked.file.as_str());
    match open(rt, path) {
        Ok(Opened::File(file)) => {
            say_other_switch(rt, path, &asked.run);
            let ended = run(screen, &asked.run, file);
            end_run(rt, asked, &seen_again(rt, path, &ended), &ended)
        }
        Ok(Opened::Input(input)) => run_over(screen, asked, input),
        Err(error) => end_unopened(rt, path, &error),
    }
}

// A log says in its first line how to replay it. If that is with another datapath_id, standard error says so.
fn say_other_switch(rt: &HostRuntime, path: &str, run: &Run) {
    let Run::Replay { dpid, .. } = run else {
        return;
    };
    if let Some(said) = said_dpid(rt, path) {
        if said != *dpid {
            let _ = eprintln!(rt;
                "the first line of {path} says --dpid {said}, and this is --dpid {dpid}"
            );
        }
    }
}

// The lines of a file that a run ended at, read again.
fn seen_again(rt: &HostRuntime, path: &str, ended: &Ended) -> Seen {
    if *ended == Ended::Done {
        return Seen::nothing(rt.alloc());
    }
    match bytes_of(rt, path) {
        Ok(bytes) => Seen::whole(bytes),
        Err(_) => Seen::nothing(rt.alloc()),
    }
}

// How a run over a file ended. If what ovs-ofctl prints was read as flow text, standard error says what reads it.
fn end_run(rt: &HostRuntime, asked: &FileRun, seen: &Seen, ended: &Ended) -> ExitCode {
    let path = asked.file.as_str();
    let code = end_file(rt, path, seen, ended);
    if asked.run == Run::Assemble && *ended != Ended::Done && is_table(seen.bytes()) {
        let _ = eprintln!(rt; "to read what ovs-ofctl prints: asm --ovs {path}");
    }
    code
}

// A file that gives its lines only once. A flow text is read before it is used.
fn run_over<R: Read + Drop>(screen: &Screen<'_>, asked: &FileRun, reader: R) -> ExitCode {
    let (rt, path) = (screen.rt, asked.file.as_str());
    if asked.run != Run::Assemble {
        let mut watched = Watched::new(rt.alloc(), reader);
        let ended = run(screen, &asked.run, &mut watched);
        return end_file(rt, path, &watched.seen, &ended);
    }
    match read_whole(rt.alloc(), reader) {
        Ok(text) => {
            let seen = Seen::whole(text);
            let ended = run(screen, &asked.run, seen.bytes());
            end_run(rt, asked, &seen, &ended)
        }
        Err(ended) => end_file(rt, path, &Seen::nothing(rt.alloc()), &ended),
    }
}

fn run_trace(screen: &Screen<'_>, asked: &Trace) -> ExitCode {
    match trace_asked(screen, asked) {
        Ok(TraceVerdict::Traced) => ExitCode::SUCCESS,
        Ok(TraceVerdict::MissingPorts) => ExitCode::from(UNDECIDED),
        Ok(TraceVerdict::NoPort) => ExitCode::from(BAD_ARGUMENTS),
        Err(why) => end_asked(screen, b"trace", asked.json, asked.of.path.as_str(), why),
    }
}

fn run_history(screen: &Screen<'_>, asked: &HistoryAsked) -> ExitCode {
    match recounted(screen, asked) {
        Ok(HistoryVerdict::Told) => ExitCode::SUCCESS,
        Ok(HistoryVerdict::NoHistory) => ExitCode::from(BAD_ARGUMENTS),
        Err(why) => end_unread(screen.rt, asked.file.as_str(), why),
    }
}

fn run_check(screen: &Screen<'_>, asked: &Check) -> ExitCode {
    match check_asked(screen, asked) {
        Ok(CheckVerdict::Nothing) => ExitCode::SUCCESS,
        Ok(CheckVerdict::Found) => ExitCode::from(FOUND),
        Ok(CheckVerdict::Undecided) => ExitCode::from(UNDECIDED),
        Err(no) => {
            let json = asked.output == CheckOutput::Json;
            end_asked(screen, b"check", json, no.path, no.why)
        }
    }
}

fn run_diff(screen: &Screen<'_>, asked: &Diff) -> ExitCode {
    match diffed(screen, asked) {
        Ok(DiffVerdict::Same) => ExitCode::SUCCESS,
        Ok(DiffVerdict::Differs | DiffVerdict::OtherPorts) => ExitCode::from(FOUND),
        Ok(DiffVerdict::Undecided) => ExitCode::from(UNDECIDED),
        Err(no) => end_asked(screen, b"diff", asked.json, no.path, no.why),
    }
}

fn run_paths(screen: &Screen<'_>, asked: &PathsAsked) -> ExitCode {
    match paths_asked(screen, asked) {
        Ok(PathsVerdict::Complete) => ExitCode::SUCCESS,
        Ok(PathsVerdict::Undecided) => ExitCode::from(UNDECIDED),
        Err(NoPaths::File(why)) => {
            end_asked(screen, b"paths", asked.json, asked.of.path.as_str(), why)
        }
        Err(NoPaths::NoMatch) => ExitCode::from(BAD_LINES),
        Err(NoPaths::NoPort) => ExitCode::from(BAD_ARGUMENTS),
    }
}

// Why a file describes no switch; if JSON is asked for, also as a document.
fn end_asked(screen: &Screen<'_>, command: &[u8], json: bool, path: &str, why: NoFile) -> ExitCode {
    let rt = screen.rt;
    if json && !print_fault(screen, command, path, &why) {
        return end(rt, &Ended::WriteFault);
    }
    end_unread(rt, path, why)
}

// Why a file was not read, or describes no switch.
fn end_unread(rt: &HostRuntime, path: &str, why: NoFile) -> ExitCode {
    match why {
        NoFile::Ended { seen, ended } => end_file(rt, path, &seen, &ended),
        NoFile::Unopened(error) => end_unopened(rt, path, &error),
        NoFile::Faults(_) => ExitCode::from(BAD_LINES),
        NoFile::BadOption => ExitCode::from(BAD_ARGUMENTS),
    }
}

// The rows of an event file, which is read before anything comes; or the status with which the run ends.
fn rows_of(rt: &HostRuntime, events: Option<&str>) -> Result<Vec<Event>, ExitCode> {
    let Some(path) = events else {
        return Ok(Vec::new(rt.alloc()));
    };
    let seen = match bytes_of(rt, path) {
        Ok(bytes) => Seen::whole(bytes),
        Err(why) => return Err(end_unread(rt, path, why)),
    };
    let mut source = ReaderSource::new(seen.bytes());
    match read_rows(rt.alloc(), &mut source) {
        Ok(rows) => Ok(rows),
        Err(ended) => Err(end_file(rt, path, &seen, &ended)),
    }
}

// What happens to a switch: first the events of its tables, and later those of the rows of its event file.
#[derive(Drop)]
struct Given {
    first: Vec<Event>,
    rows: Vec<Event>,
}

// What the files of a switch give; or the status with which the run ends.
fn given_by(
    rt: &HostRuntime,
    tables: &Option<String>,
    reading: &OvsReading,
    events: &Option<String>,
) -> Result<Given, ExitCode> {
    let tables = tables.as_ref().map(|path| path.as_str());
    let first = match events_of_tables(rt, tables, reading) {
        Ok(first) => first,
        Err(why) => return Err(end_unread(rt, tables.unwrap_or("-"), why)),
    };
    let rows = rows_of(rt, events.as_ref().map(|path| path.as_str()))?;
    Ok(Given { first, rows })
}

fn run_serve(rt: &HostRuntime, asked: &Serve) -> ExitCode {
    match given_by(rt, &asked.tables, &asked.reading, &asked.events) {
        Ok(Given { first, rows }) => {
            let teller = Teller::new(rt);
            let ended = serve_rows(&teller, asked, &first, rows);
            end_serving(&teller, ended)
        }
        Err(code) => code,
    }
}

fn run_live(rt: &HostRuntime, asked: &Live) -> ExitCode {
    match given_by(rt, &asked.tables, &asked.reading, &asked.events) {
        Ok(Given { first, rows }) => {
            let teller = Teller::new(rt);
            if !are_peers(&teller, asked, &rows) {
                return ExitCode::from(BAD_ARGUMENTS);
            }
            let ended = live_rows(&teller, asked, &first, rows);
            end_serving(&teller, ended)
        }
        Err(code) => code,
    }
}

// None, if it did not begin, and said why.
fn end_serving(teller: &Teller<'_>, ended: Option<Ended>) -> ExitCode {
    match ended {
        Some(Ended::Done) => ExitCode::SUCCESS,
        Some(ended) => {
            let _ = eprintln!(teller; "{ended}");
            ExitCode::from(status(&ended))
        }
        None => ExitCode::from(FAILED),
    }
}

// A file that does not open: why not is said in the system's words.
fn end_unopened(rt: &HostRuntime, path: &str, error: &io::Error) -> ExitCode {
    let ended = ended_unopened(error.kind());
    let code = end(rt, &ended);
    if ended == Ended::ReadFault {
        let _ = eprintln!(rt; "cannot open {path}: {error}");
    }
    code
}

fn run<R: Read + Drop>(screen: &Screen<'_>, run: &Run, reader: R) -> Ended {
    screen.end(run_to_end(screen, run, reader))
}

fn run_to_end<R: Read + Drop>(screen: &Screen<'_>, run: &Run, reader: R) -> Ended {
    let rt = screen.rt;
    let mut reader = ReaderSource::new(reader);
    let mut writer = WriterSink::new(screen.stream());
    match run {
        Run::Replay {
            dpid,
            output,
            ask,
            reads,
        } => {
            let (dpid, reads, from) = (*dpid, *reads, &mut reader);
            match (*output, *ask) {
                (ReplayOutput::Effects, false) => {
                    play(rt, dpid, reads, &Plain, from, &mut writer)
                }
                (ReplayOutput::Effects, true) => {
                    let rows = Answering { rows: Plain };
                    play(rt, dpid, reads, &rows, from, &mut writer)
                }
                (ReplayOutput::Explained, ask) => explain(rt, dpid, reads, ask, from, writer),
                (ReplayOutput::Json, _) => {
                    play(rt, dpid, reads, &ExplainingJson, from, &mut writer)
                }
            }
        }
        Run::Assemble => asm(rt.alloc(), &mut reader, &mut writer),
        Run::Disassemble => dis::<Lookups, _, _>(rt.alloc(), &mut reader, &mut writer),
    }
}

// Plays the rows of a file on a switch with this datapath_id, and reads it at most so many times.
fn play<T: RowPrinter<Lookups>, S: Source, W: Sink>(
    rt: &HostRuntime,
    dpid: u64,
    reads: u32,
    rows: &T,
    reader: &mut S,
    writer: &mut W,
) -> Ended
    requires reads { S.reads reader.old ≡ 0 }
    requires failures { W.failures writer.old ≡ 0 }
{
    print_file::<Lookups, _, _, _>(rt.alloc(), dpid, reads, rows, reader, writer)
}

// The same in words, without the many time rows of a log.
fn explain<S: Source, W: Sink + Drop>(
    rt: &HostRuntime,
    dpid: u64,
    reads: u32,
    ask: bool,
    reader: &mut S,
    writer: W,
) -> Ended
    requires reads { S.reads reader.old ≡ 0 }
    requires failures { W.failures writer ≡ 0 }
{
    let mut folded = Folded::new(rt.alloc(), writer);
    let ended = if ask {
        let rows = Answering { rows: Explaining };
        play(rt, dpid, reads, &rows, reader, &mut folded)
    } else {
        play(rt, dpid, reads, &Explaining, reader, &mut folded)
    };
    folded.end(ended)
}
