//! What is left out of what ovs-ofctl prints.
use crate::importing::say_faults;
use crate::lookups::Lookups;
use crate::screen::Screen;
use of_files::{Contents, LeftOut};
use of_import_report::left_out;
use of_replay::streams::WriterSink;
use of_replay::{Ended, write_all};
use std::alloc::{AllocError, Global};

/// How many lines of a file are left out, and how many lose actions.
#[derive(Clone, Copy)]
pub struct LeftCount {
    lines: u128,
    changed: usize,
}

impl LeftCount {
    /// Whether what is read is a part of the file.
    pub fn is_part(self) -> bool {
        self.lines > 0 || self.changed > 0
    }

    fn text(self, alloc: Global, path: &str) -> Result<String, AllocError> {
        let LeftCount { lines, changed } = self;
        match (lines, changed) {
            (_, 0) => format!(in alloc; "part of {path}: {lines} lines left out\n"),
            (0, _) => format!(in alloc;
                "part of {path}: {changed} lines without actions to NORMAL or LOCAL\n"
            ),
            _ => format!(in alloc;
                "part of {path}: {lines} lines left out, {changed} without actions to NORMAL or LOCAL\n"
            ),
        }
    }
}

/// Names on standard error what is left out, behind the name of the file if it is given, and returns how much that is.
pub fn say_left_out(
    rt: &HostRuntime,
    name: Option<&str>,
    bytes: &[u8],
    contents: &Contents<Lookups>,
) -> LeftCount {
    let Contents::Tables(tables) = contents else {
        return LeftCount {
            lines: 0,
            changed: 0,
        };
    };
    let LeftOut {
        faults,
        refused,
        changed,
    } = &tables.left_out;
    let lines = left_out(faults, refused, 0);
    if let Some(name) = name {
        if lines > 0 {
            let _ = eprint!(rt; "{name}: ");
        }
    }
    say_faults(rt, bytes, faults, refused);
    LeftCount {
        lines,
        changed: *changed,
    }
}

/// Says that only a part of a file is read, if that is so: in a line of the report, or on standard error if the report is for programs.
pub fn say_part(
    screen: &Screen<'_>,
    is_for_programs: bool,
    path: &str,
    count: LeftCount,
) -> Result<(), Ended> {
    if !count.is_part() {
        return Ok(());
    }
    let Ok(line) = count.text(screen.rt.alloc(), path) else {
        return Err(Ended::NoMemory);
    };
    if is_for_programs {
        let _ = eprint!(screen.rt; "{line}");
        Ok(())
    } else if write_all(&mut WriterSink::new(screen.report()), line.as_bytes()) {
        Ok(())
    } else {
        Err(Ended::WriteFault)
    }
}
