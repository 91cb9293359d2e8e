//! Reports of `check`.
use crate::contents::{FileRead, NoFile, contents_of, mode_of, refused_table, say_missing};
use crate::left_out::say_part;
use crate::lookups::Lookups;
use crate::requiring::{Required, decide_all, missing_on, push_required};
use crate::screen::Screen;
use of_command_line::{Check, CheckOutput};
use of_files::{Content, Contents, FileTables, PortList, port_list, push_named, read_table};
use of_import::ImportError;
use of_ovs_lines::Mode;
use of_replay::streams::WriterSink;
use of_replay::{Ended, switch_of_config, write_all};
use of_report::{Form, write_flow_report, write_report};
use of_require::{Line, Verdict};
use of_shadowing::{Listing, read_listing};
use of_switch::Switch;
use of_text::{Config, cut};
use of_values::Origin;
use std::alloc::{AllocError, Global};

/// What a flow text begins with that is a part of a table, as `import --skip` writes it.
const PART: &[u8] = b"# part of a table";

/// What `check` found.
#[derive(Clone, Copy, PartialEq, Eq)]
pub enum CheckVerdict {
    Nothing,
    Found,
    /// Nothing was found, but a requirement is undecided, or groups, flows or requirements name ports that the switch does not have.
    Undecided,
}

fn form_of(output: CheckOutput) -> Form {
    match output {
        CheckOutput::Report => Form::Findings,
        CheckOutput::All => Form::All,
        CheckOutput::AllInWords => Form::AllInWords,
        CheckOutput::Json => Form::Json,
    }
}

// Prints the first line of a flow text that is a part of a table.
fn print_part(screen: &Screen<'_>, text: &[u8]) -> Result<(), Ended> {
    let (line, _) = cut(text, b'\n');
    if !line.starts_with(PART) {
        return Ok(());
    }
    let mut writer = WriterSink::new(screen.report());
    if write_all(&mut writer, line) && write_all(&mut writer, b"\n") {
        Ok(())
    } else {
        Err(Ended::WriteFault)
    }
}

fn verdict_of(found: bool, missing: bool, required: Verdict) -> CheckVerdict {
    match (found, missing, required) {
        (true, _, _) | (_, _, Verdict::Fails) => CheckVerdict::Found,
        (_, true, _) | (_, _, Verdict::Undecided) => CheckVerdict::Undecided,
        (false, false, Verdict::Holds) => CheckVerdict::Nothing,
    }
}

// The report on a switch and its groups and flows, which come from these lines, and may be a part of a table; and that on requirements.
fn reported(
    screen: &Screen<'_>,
    asked: &Check,
    switch: &Switch<Lookups>,
    config: &Config,
    origins: &[Vec<Origin>],
    part: bool,
    lines: Vec<Line>,
    missing: &[u32],
) -> Result<CheckVerdict, NoFile> {
    let alloc = screen.rt.alloc();
    let Required { text, verdict } = decide_all(screen, asked, switch, lines)?;
    let missing = match say_missing(screen, asked.output == CheckOutput::Json, missing) {
        Ok(missing) => missing,
        Err(ended) => return Err(NoFile::ended(alloc, ended)),
    };
    let (steps, form) = (asked.steps as usize, form_of(asked.output));
    screen.progress.say("the flow entries are checked");
    let mut writer = WriterSink::new(screen.report());
    let written = write_report(
        alloc,
        switch,
        config,
        origins,
        steps,
        form,
        part,
        &text,
        &mut writer,
    );
    screen.progress.end();
    match written {
        Ok(found) => Ok(verdict_of(found, missing, verdict)),
        Err(ended) => Err(NoFile::ended(alloc, ended)),
    }
}

// The report on groups and flows.
fn tables_reported(
    screen: &Screen<'_>,
    asked: &Check,
    tables: &FileTables,
    part: bool,
    list: &PortList,
    lines: Vec<Line>,
) -> Result<CheckVerdict, NoFile> {
    let alloc = screen.rt.alloc();
    let Ok(switch) = switch_of_config::<Lookups>(alloc, &tables.config, &list.ports) else {
        return Err(NoFile::ended(alloc, Ended::NoMemory));
    };
    reported(
        screen,
        asked,
        &switch,
        &tables.config,
        &tables.origins,
        part,
        lines,
        &list.missing,
    )
}

// The report on the switch of an event file.
fn switch_reported(
    screen: &Screen<'_>,
    asked: &Check,
    switch: &Switch<Lookups>,
    lines: Vec<Line>,
) -> Result<CheckVerdict, NoFile> {
    let alloc = screen.rt.alloc();
    let (Ok(config), Ok(missing)) = (switch.config(), missing_on(alloc, switch, &lines)) else {
        return Err(NoFile::ended(alloc, Ended::NoMemory));
    };
    reported(screen, asked, switch, &config, &[], false, lines, &missing)
}

// The ports of the switch of a file, and those that are named and that it does not have.
fn named_list(
    alloc: Global,
    asked: &Check,
    contents: &Contents<Lookups>,
    lines: &[Line],
) -> Result<PortList, AllocError> {
    let mut named = Vec::new(alloc);
    push_named(alloc, &mut named, contents)?;
    push_required(&mut named, lines)?;
    port_list(alloc, &asked.of.ports, &named)
}

fn contents_reported(
    screen: &Screen<'_>,
    asked: &Check,
    read: &FileRead,
    lines: Vec<Line>,
) -> Result<CheckVerdict, NoFile> {
    let alloc = screen.rt.alloc();
    match &read.contents {
        Contents::Tables(tables) => {
            if asked.output != CheckOutput::Json {
                if let Err(ended) = print_part(screen, &read.bytes) {
                    return Err(NoFile::ended(alloc, ended));
                }
            }
            let (json, path) = (asked.output == CheckOutput::Json, asked.of.path.as_str());
            if let Err(ended) = say_part(screen, json, path, read.left) {
                return Err(NoFile::ended(alloc, ended));
            }
            let part = read.left.is_part();
            match named_list(alloc, asked, &read.contents, &lines) {
                Ok(list) => tables_reported(screen, asked, tables, part, &list, lines),
                Err(_) => Err(NoFile::ended(alloc, Ended::NoMemory)),
            }
        }
        Contents::Events(switch) => switch_reported(screen, asked, switch, lines),
    }
}

// Whether the switch cannot have the groups and flows of what ovs-ofctl prints.
fn is_refused(alloc: Global, bytes: &[u8], mode: Mode) -> bool {
    !matches!(
        read_table(alloc, bytes, mode),
        Ok(_) | Err(ImportError::NoMemory)
    )
}

// The report on flows that the switch cannot have. None: there are none, or it is asked for in a form that they do not have.
fn flows_reported(
    screen: &Screen<'_>,
    asked: &Check,
    bytes: &[u8],
) -> Result<Option<CheckVerdict>, NoFile> {
    let rt = screen.rt;
    let alloc = rt.alloc();
    let Ok(Listing { flows, faults }) = read_listing(alloc, bytes) else {
        return Err(NoFile::ended(alloc, Ended::NoMemory));
    };
    if flows.is_empty() || asked.output == CheckOutput::Json {
        return Ok(None);
    }
    if !faults.is_empty() {
        let error = ImportError::Faults(faults, Vec::new(alloc));
        return Err(refused_table(rt, asked.of.kind, bytes, &error));
    }
    let all = asked.output != CheckOutput::Report;
    let words = asked.output == CheckOutput::AllInWords;
    screen.progress.say("the flow entries are checked");
    let mut writer = WriterSink::new(screen.report());
    let steps = asked.steps as usize;
    let written = write_flow_report(alloc, &flows, steps, all, words, &mut writer);
    screen.progress.end();
    match written {
        Ok(found) => Ok(Some(verdict_of(found, false, Verdict::Holds))),
        Err(ended) => Err(NoFile::ended(alloc, ended)),
    }
}

/// Prints the report on the switch of a file whose bytes these are, and on these requirements.
pub fn checked(
    screen: &Screen<'_>,
    asked: &Check,
    bytes: Vec<u8>,
    content: Content,
    lines: Vec<Line>,
) -> Result<CheckVerdict, NoFile> {
    let (rt, path, kind) = (screen.rt, asked.of.path.as_str(), asked.of.kind);
    let mode = mode_of(&asked.of.reading);
    let may_have_conditions = content == Content::OvsTable && asked.require.is_none() && !mode.skip;
    if may_have_conditions && is_refused(rt.alloc(), &bytes, mode) {
        if let Some(verdict) = flows_reported(screen, asked, &bytes)? {
            return Ok(verdict);
        }
    }
    let read = contents_of(rt, path, kind, None, false, mode, bytes, content)?;
    contents_reported(screen, asked, &read, lines)
}
