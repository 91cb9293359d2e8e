//! Histories of frames and of flow entries.
use crate::files::bytes_of;
use of_command_line::{EntriesAsked, HistoryAsked, HistoryOf};
use of_file_reports::{Lookups, NoFile, Screen};
use of_frame_words::{frame_words, match_of};
use of_hints::Seen;
use of_history::{
    EntriesView, EntryFilter, FrameView, InJson, InWords, LineByLine, LogHistory, history,
};
use of_replay::streams::WriterSink;
use of_replay::{Ended, Row, read_row, write_all};
use of_switch::SwitchError;
use of_text::cut;
use of_wire::front_part;
use std::alloc::{AllocError, Global};

/// Whether a history was printed.
#[derive(Clone, Copy, PartialEq, Eq)]
pub enum HistoryVerdict {
    Told,
    /// The row that an option names is not that of a frame, or no flow may have the match, which standard error says.
    NoHistory,
}

// The bytes before the line of that number, from 1, and that line, which is empty where there are fewer lines.
fn split_at_row(bytes: &[u8], row: u32) -> (&[u8], &[u8]) {
    let mut rest = bytes;
    for _ in 1..row {
        if rest.is_empty() {
            return (bytes, rest);
        }
        let (_, after) = cut(rest, b'\n');
        rest = after;
    }
    let (line, _) = cut(rest, b'\n');
    (
        front_part(bytes, bytes.len().saturating_sub(rest.len())),
        line,
    )
}

// The frame of the row in a line.
fn frame_in_row(alloc: Global, line: &[u8]) -> Result<Option<FrameView>, AllocError> {
    let mut frame = Vec::new(alloc);
    match read_row(line, &mut frame)? {
        Some(Row::Frame { port }) => Ok(Some(FrameView { port, frame })),
        _ => Ok(None),
    }
}

// The frame of a history in words, or in digits where no words say it.
fn push_asked(alloc: Global, out: &mut Vec<u8>, of: &FrameView) -> Result<(), AllocError> {
    match frame_words(alloc, of.port, &of.frame)? {
        Some(words) => out.extend_from_slice(&words)?,
        None => {
            let digits = hex::encode(alloc, &of.frame)?;
            let text = format!(in alloc; "--port {} {digits}", of.port)?;
            out.extend_from_slice(text.as_bytes())?;
        }
    }
    out.push(b'\n')?;
    Ok(())
}

// The history of a frame over these rows, in words below the frame, or as JSON.
fn frame_history(
    alloc: Global,
    asked: &HistoryAsked,
    view: FrameView,
    rows: &[u8],
) -> Result<LogHistory, SwitchError> {
    if asked.json {
        return history::<Lookups, _, _>(alloc, asked.dpid, view, InJson, rows);
    }
    let mut text = Vec::new(alloc);
    push_asked(alloc, &mut text, &view)?;
    let told = history::<Lookups, _, _>(alloc, asked.dpid, view, InWords, rows)?;
    text.extend_from_slice(&told.text)?;
    Ok(LogHistory {
        text,
        bad: told.bad,
    })
}

fn view_of(of: &EntriesAsked) -> Result<Option<EntriesView>, AllocError> {
    let Some(fields) = match_of(of.fields.clone()?) else {
        return Ok(None);
    };
    let filter = EntryFilter {
        table: of.table,
        priority: of.priority,
        cookie: of.cookie,
        cookie_mask: of.cookie_mask,
    };
    Ok(Some(EntriesView { filter, fields }))
}

// The history of flow entries over these rows, in words or as JSON.
fn entries_history(
    alloc: Global,
    asked: &HistoryAsked,
    view: EntriesView,
    rows: &[u8],
) -> Result<LogHistory, SwitchError> {
    if asked.json {
        return history::<Lookups, _, _>(alloc, asked.dpid, view, LineByLine(InJson), rows);
    }
    history::<Lookups, _, _>(alloc, asked.dpid, view, LineByLine(InWords), rows)
}

// Prints a history.
fn write_history(screen: &Screen<'_>, told: &LogHistory) -> Ended {
    let mut writer = WriterSink::new(screen.report());
    if !write_all(&mut writer, &told.text) {
        return Ended::WriteFault;
    }
    match told.bad {
        Some(number) => Ended::BadRow(number),
        None => Ended::Done,
    }
}

// Prints the history that is asked for; None if a row is no frame, or no flow may have a match.
fn recount(
    screen: &Screen<'_>,
    asked: &HistoryAsked,
    bytes: &[u8],
) -> Result<Option<Ended>, SwitchError> {
    let alloc = screen.rt.alloc();
    screen.progress.say("the rows are run");
    let told = match &asked.of {
        HistoryOf::Frame { port, frame } => {
            let view = FrameView {
                port: *port,
                frame: frame.clone()?,
            };
            frame_history(alloc, asked, view, bytes)?
        }
        HistoryOf::Row(row) => {
            let (rows, line) = split_at_row(bytes, *row);
            let Some(view) = frame_in_row(alloc, line)? else {
                return Ok(None);
            };
            frame_history(alloc, asked, view, rows)?
        }
        HistoryOf::Entries(of) => {
            let Some(view) = view_of(of)? else {
                return Ok(None);
            };
            entries_history(alloc, asked, view, bytes)?
        }
    };
    Ok(Some(write_history(screen, &told)))
}

/// Prints the history of a frame, or of flow entries, in an event file.
pub fn recounted(screen: &Screen<'_>, asked: &HistoryAsked) -> Result<HistoryVerdict, NoFile> {
    let rt = screen.rt;
    let seen = Seen::whole(bytes_of(rt, asked.file.as_str())?);
    let recounted = recount(screen, asked, seen.bytes());
    screen.progress.end();
    match recounted {
        Ok(Some(Ended::Done)) => Ok(HistoryVerdict::Told),
        Ok(Some(ended)) => Err(NoFile::Ended { seen, ended }),
        Ok(None) => {
            let why = match asked.of {
                HistoryOf::Entries(_) => "bad flow: no flow may have this match",
                _ => "bad row: the line is no row of a frame: f PORT HEX",
            };
            let _ = eprintln!(rt; "{why}");
            Ok(HistoryVerdict::NoHistory)
        }
        Err(_) => Err(NoFile::Ended {
            seen,
            ended: Ended::NoMemory,
        }),
    }
}
