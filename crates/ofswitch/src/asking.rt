//! The files that `trace`, `paths` and `check` are asked about, which are read first.
use crate::files::{Unread, bytes_of, content_read, read_switch};
use of_command_line::{Check, FileKind, PathsAsked, Trace};
use of_file_reports::{
    CheckVerdict, NoFile, NoPaths, Screen, TraceVerdict, checked, divided, is_without_options,
    required_in, traced_on_switch, traced_on_text,
};
use of_paths_report::PathsVerdict;
use of_require::Line;

/// Prints the trace of a frame on the switch of a file. A file that an option calls a flow text has ports 1 to 64, unless ports are given.
pub fn trace_asked(screen: &Screen<'_>, asked: &Trace) -> Result<TraceVerdict, NoFile> {
    let (rt, of) = (screen.rt, &asked.of);
    if of.kind == FileKind::Flows && of.ports.is_none() {
        if !is_without_options(rt, &of.reading, of.path.as_str()) {
            return Err(NoFile::BadOption);
        }
        return traced_on_text(screen, asked, bytes_of(rt, of.path.as_str())?);
    }
    // before a line the switch is the one that the lines before it leave
    let lines = asked.at.map(|row| u64::from(row).saturating_sub(1));
    traced_on_switch(screen, asked, read_switch(rt, of, lines, false)?)
}

/// Prints which steps the frames take that the switch of a file receives, and returns whether it is known of all of them.
pub fn paths_asked(screen: &Screen<'_>, asked: &PathsAsked) -> Result<PathsVerdict, NoPaths> {
    match read_switch(screen.rt, &asked.of, None, true) {
        Ok(read) => divided(screen, asked, &read),
        Err(why) => Err(NoPaths::File(why)),
    }
}

// The requirements of a file.
fn read_required(rt: &HostRuntime, path: &str) -> Result<Vec<Line>, NoFile> {
    required_in(rt, path, &bytes_of(rt, path)?)
}

// The requirements that are asked for.
fn lines_asked<'a>(rt: &HostRuntime, asked: &'a Check) -> Result<Vec<Line>, Unread<'a>> {
    let Some(path) = &asked.require else {
        return Ok(Vec::new(rt.alloc()));
    };
    let path = path.as_str();
    match read_required(rt, path) {
        Ok(lines) => Ok(lines),
        Err(why) => Err(Unread { path, why }),
    }
}

// The report on the switch of a file.
fn file_checked(
    screen: &Screen<'_>,
    asked: &Check,
    lines: Vec<Line>,
) -> Result<CheckVerdict, NoFile> {
    let (rt, of) = (screen.rt, &asked.of);
    let (bytes, content) = content_read(rt, of.path.as_str(), of.kind, true, &of.reading)?;
    checked(screen, asked, bytes, content, lines)
}

/// Prints the report on the switch of a file, and on its requirements, which are read before it.
pub fn check_asked<'a>(screen: &Screen<'_>, asked: &'a Check) -> Result<CheckVerdict, Unread<'a>> {
    let lines = lines_asked(screen.rt, asked)?;
    match file_checked(screen, asked, lines) {
        Ok(verdict) => Ok(verdict),
        Err(why) => Err(Unread {
            path: asked.of.path.as_str(),
            why,
        }),
    }
}
