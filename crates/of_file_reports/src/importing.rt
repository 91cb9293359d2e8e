//! Tables of Open vSwitch as flow text.

use crate::screen::Screen;
use of_hints::{Marked, Place, import_hint, line_in, say_refusal};
use of_import::{ImportError, ImportText, LineFaults, LineRefusal, import_text, name_of};
use of_import_report::{fault_lines, import_as_json, left_out};
use of_ovs_lines::Mode;
use of_replay::streams::WriterSink;
use of_replay::{Ended, write_all};
use of_text::TextFault;
use of_values::push_printable;
use std::alloc::Global;

/// Why nothing was printed, or not all.
#[derive(Drop)]
pub enum NotImported {
    /// Lines are refused, which standard error names.
    Faults,
    /// As other runs over a file end.
    Ended(Ended),
}

/// So many lines that are refused are named at most.
const NAMED: usize = 20;

/// So many of them are shown.
const SHOWN: usize = 5;

/// How often a keyword was refused.
#[derive(Drop)]
struct Tally {
    name: Vec<u8>,
    lines: usize,
    last: usize,
}

// Writes the text whole.
fn print_text(screen: &Screen<'_>, text: &[u8]) -> Result<(), NotImported> {
    let mut writer = WriterSink::new(screen.report());
    if write_all(&mut writer, text) {
        Ok(())
    } else {
        Err(NotImported::Ended(Ended::WriteFault))
    }
}

/// Prints the flow text of a table, and returns how many of its lines were left out or lost an action; standard error names them.
pub fn imported(screen: &Screen<'_>, bytes: &[u8], mode: Mode) -> Result<u128, NotImported> {
    let rt = screen.rt;
    let done = text_of(screen, bytes, mode)?;
    print_text(screen, &done.text)?;
    say_faults(rt, bytes, &done.faults, &done.refused);
    Ok(left_out(&done.faults, &done.refused, done.changed))
}

/// The same as one JSON document, which also says what is refused; standard error names nothing.
pub fn imported_as_json(
    screen: &Screen<'_>,
    bytes: &[u8],
    mode: Mode,
) -> Result<u128, NotImported> {
    screen.progress.say("the lines are read");
    let answer = import_as_json(screen.rt.alloc(), bytes, mode);
    screen.progress.end();
    let Ok(answer) = answer else {
        return Err(NotImported::Ended(Ended::NoMemory));
    };
    print_text(screen, &answer.json)?;
    match answer.left_out {
        Some(count) => Ok(count),
        None => Err(NotImported::Faults),
    }
}

// The flow text of a table; if there is none, standard error says why.
fn text_of(screen: &Screen<'_>, bytes: &[u8], mode: Mode) -> Result<ImportText, NotImported> {
    screen.progress.say("the lines are read");
    let read = import_text(screen.rt.alloc(), bytes, mode);
    screen.progress.end();
    match read {
        Ok(done) => Ok(done),
        Err(error) => Err(say_no_import(screen.rt, bytes, &error)),
    }
}

/// Says on standard error why there is no import.
pub fn say_no_import(rt: &HostRuntime, bytes: &[u8], error: &ImportError) -> NotImported {
    say_import_hint(rt, bytes);
    say_error(rt, bytes, error)
}

// What the whole text is, if it is none of ovs-ofctl.
fn say_import_hint(rt: &HostRuntime, bytes: &[u8]) {
    if let Some(hint) = import_hint(bytes) {
        let _ = eprintln!(rt; "{hint}");
    }
}

// Names what is wrong on standard error, except what other commands print at their end.
fn say_error(rt: &HostRuntime, bytes: &[u8], error: &ImportError) -> NotImported {
    match error {
        ImportError::NoMemory => NotImported::Ended(Ended::NoMemory),
        ImportError::Faults(faults, refused) => {
            say_faults(rt, bytes, faults, refused);
            NotImported::Faults
        }
        ImportError::Refused { line, code } => {
            NotImported::Ended(Ended::Text(TextFault::Refused {
                line: *line,
                code: *code,
            }))
        }
        ImportError::TooMany(count) => {
            let _ = eprintln!(rt; "{count} tables: this switch has 16");
            NotImported::Faults
        }
    }
}

// Shows a line, and a mark below a word, which is one of the first that are refused.
fn say_place(rt: &HostRuntime, bytes: &[u8], line: usize, count: usize, word: &[u8]) {
    if count >= SHOWN {
        return;
    }
    if let Some(line) = line_in(bytes, line as u64) {
        let _ = rt.eprintln(Marked::new(line, Place::of_part(line, word)));
    }
}

// Names the words of a line that are refused. So many lines came before it.
fn say_words(rt: &HostRuntime, bytes: &[u8], count: usize, it: &LineFaults) {
    let Ok(text) = fault_lines(rt.alloc(), 1, std::slice::from_ref(it)) else {
        return;
    };
    let text = std::str::from_utf8(&text).unwrap_or("?");
    for (said, fault) in text.lines().zip(it.faults.iter()) {
        let _ = eprintln!(rt; "{said}");
        say_place(rt, bytes, it.line, count, &fault.word);
    }
}

/// Names the first lines that are refused on standard error, and how often which keyword is.
pub fn say_faults(rt: &HostRuntime, bytes: &[u8], faults: &[LineFaults], refused: &[LineRefusal]) {
    for (count, it) in faults.iter().take(NAMED).enumerate() {
        say_words(rt, bytes, count, it);
    }
    for it in refused.iter().take(NAMED.saturating_sub(faults.len())) {
        let _ = eprintln!(rt;
            "line {}: type {} code {}",
            it.line, it.code.kind, it.code.code
        );
        say_refusal(rt, it.code);
        say_place(rt, bytes, it.line, faults.len(), b"");
    }
    let more = faults
        .len()
        .saturating_add(refused.len())
        .saturating_sub(NAMED);
    if more > 0 {
        let _ = eprintln!(rt; "and {more} more");
    }
    if faults.len() > 1 {
        if let Ok(tallies) = tallies_of(rt.alloc(), faults) {
            say_tallies(rt, tallies);
        }
    }
}

// How often which keyword is refused.
fn tallies_of(alloc: Global, faults: &[LineFaults]) -> Result<Vec<Tally>, std::alloc::AllocError> {
    let mut tallies = Vec::new(alloc);
    for it in faults {
        for fault in it.faults.iter() {
            count_one(alloc, &mut tallies, name_of(&fault.word), it.line)?;
        }
    }
    Ok(tallies)
}

// Counts a line for a keyword, once.
fn count_one(
    alloc: Global,
    tallies: &mut Vec<Tally>,
    name: &[u8],
    line: usize,
) -> Result<(), std::alloc::AllocError> {
    for tally in tallies.iter_mut() {
        if tally.name.as_slice() == name {
            if tally.last != line {
                tally.lines = tally.lines.saturating_add(1);
                tally.last = line;
            }
            return Ok(());
        }
    }
    tallies.push(Tally {
        name: name.to_vec(alloc)?,
        lines: 1,
        last: line,
    })?;
    Ok(())
}

// Names a keyword.
fn say_tally(rt: &HostRuntime, tally: &Tally) {
    let mut name = Vec::new(rt.alloc());
    if push_printable(&mut name, &tally.name).is_ok() {
        let name = std::str::from_utf8(&name).unwrap_or("?");
        let _ = eprintln!(rt; "{name}: {} lines", tally.lines);
    }
}

// Names the keywords, the most frequent first.
fn say_tallies(rt: &HostRuntime, tallies: Vec<Tally>) {
    let mut most = usize::MAX;
    for _ in 0..tallies.len() {
        let next = tallies
            .iter()
            .map(|tally| tally.lines)
            .filter(|lines| *lines < most)
            .max()
            .unwrap_or(0);
        if next == 0 {
            return;
        }
        for tally in tallies.iter().filter(|tally| tally.lines == next) {
            say_tally(rt, tally);
        }
        most = next;
    }
}
