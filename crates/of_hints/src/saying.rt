//! What is wrong with the line that a run ended at, on standard error.
use crate::hint::{Hint, event_row_hint, flow_line_hint};
use crate::marked::{Marked, Place};
use crate::seen::Seen;
use crate::sentences::refusal_sentence;
use of_replay::{Ended, status};
use of_text::TextFault;
use of_wire::Code;
use std::fs::File;
use std::io::Read;
use std::process::ExitCode;

// Says what is wrong with a line, as `FILE:LINE:WORD: what`, and shows the line with a mark below the place.
fn say_line(rt: &HostRuntime, path: &str, number: u64, line: &[u8], hint: &Hint) {
    let _ = match hint.word() {
        Some(word) => eprintln!(rt; "{path}:{number}:{word}: {hint}"),
        None => eprintln!(rt; "{path}:{number}: {hint}"),
    };
    let _ = rt.eprintln(Marked::new(line, hint.place(line)));
}

// The same of the line that a run ended at, if it ended at one.
fn say_hint(rt: &HostRuntime, path: &str, seen: &Seen, ended: &Ended) {
    match ended {
        Ended::BadRow(number) => {
            if let Some(line) = seen.line(*number) {
                say_line(rt, path, *number, line, &event_row_hint(line));
            }
        }
        Ended::Text(TextFault::Syntax(number)) => {
            let number = *number as u64;
            if let Some(line) = seen.line(number) {
                say_line(rt, path, number, line, &flow_line_hint(line));
            }
        }
        Ended::Text(TextFault::Refused { line, code }) => {
            say_refused_line(rt, path, seen, *line, *code);
        }
        _ => {}
    }
}

fn say_name(rt: &HostRuntime, code: Code) {
    if let Some(name) = code.name() {
        let name = std::str::from_utf8(name).unwrap_or("?");
        let _ = eprintln!(rt; "{name}");
    }
}

/// Says the name of an error, and what it means for a line.
pub fn say_refusal(rt: &HostRuntime, code: Code) {
    say_name(rt, code);
    if let Some(sentence) = refusal_sentence(code) {
        let _ = eprintln!(rt; "{sentence}");
    }
}

// The same of a line of a file, which is shown.
fn say_refused_line(rt: &HostRuntime, path: &str, seen: &Seen, number: usize, code: Code) {
    say_name(rt, code);
    let sentence = refusal_sentence(code).unwrap_or("the switch refuses it");
    let _ = eprintln!(rt; "{path}:{number}: {sentence}");
    if let Some(line) = seen.line(number as u64) {
        let _ = rt.eprintln(Marked::new(line, Place::whole(line)));
    }
}

// Says why a file that opens does not give its bytes, as a folder does not.
fn say_unread(rt: &HostRuntime, path: &str) {
    if path == "-" {
        return;
    }
    let Ok(mut file) = File::open(rt, path) else {
        return;
    };
    let mut byte = [0; 1];
    if let Err(error) = file.read(&mut byte) {
        let _ = eprintln!(rt; "cannot read {path}: {error}");
    }
}

// Says how a run ended, where it is a fault.
fn say_ended(rt: &HostRuntime, ended: &Ended) {
    if *ended != Ended::Done {
        let _ = eprintln!(rt; "{ended}");
    }
}

/// Says on standard error how a run ended, where it is a fault, and gives the exit status.
pub fn end(rt: &HostRuntime, ended: &Ended) -> ExitCode {
    say_ended(rt, ended);
    if let Ended::Text(TextFault::Refused { code, .. }) = ended {
        say_refusal(rt, *code);
    }
    ExitCode::from(status(ended))
}

/// The same of a run over a file, with what is wrong with the line that it ended at.
pub fn end_file(rt: &HostRuntime, path: &str, seen: &Seen, ended: &Ended) -> ExitCode {
    say_ended(rt, ended);
    say_hint(rt, path, seen, ended);
    if *ended == Ended::ReadFault {
        say_unread(rt, path);
    }
    ExitCode::from(status(ended))
}
