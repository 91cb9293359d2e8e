//! Differences of two switches.
use crate::files::{Unread, read_file_contents};
use of_alike::Compared;
use of_command_line::{Diff, FileKind, OvsReading};
use of_diff_report::{DiffForm, DiffSide, DiffVerdict, FileFlows, write_differences};
use of_file_reports::{FileRead, Lookups, NoFile, Screen, is_without_options, say_part};
use of_files::{Content, FileSwitch, both_ports, file_switch};
use of_replay::Ended;
use of_replay::streams::WriterSink;

// What a file is read as. The name of one that is at fault comes before what is wrong with it.
fn read_one<'a>(
    rt: &HostRuntime,
    path: &'a str,
    reading: &OvsReading,
) -> Result<FileRead, Unread<'a>> {
    match read_file_contents(rt, path, FileKind::Guessed, None, true, false, reading) {
        Ok(read) => Ok(read),
        Err(why) => Err(Unread { path, why }),
    }
}

// Whether an option is for what ovs-ofctl prints, and neither file is that; standard error says so.
fn has_idle_option(rt: &HostRuntime, asked: &Diff, first: &FileRead, second: &FileRead) -> bool {
    first.content != Content::OvsTable
        && second.content != Content::OvsTable
        && !is_without_options(rt, &asked.reading, asked.second.as_str())
}

fn flows_of(of: &FileSwitch<Lookups>) -> FileFlows<'_> {
    FileFlows {
        config: &of.tables.config,
        origins: &of.tables.origins,
    }
}

fn form_of(json: bool) -> DiffForm {
    if json {
        DiffForm::Json
    } else {
        DiffForm::Words
    }
}

// What is found between two switches.
fn found_between(
    screen: &Screen<'_>,
    asked: &Diff,
    first: &FileSwitch<Lookups>,
    second: &FileSwitch<Lookups>,
    missing: &[u32],
) -> Result<DiffVerdict, Ended> {
    let (left, right) = (
        DiffSide {
            flows: flows_of(first),
            switch: &first.switch,
        },
        DiffSide {
            flows: flows_of(second),
            switch: &second.switch,
        },
    );
    let compared = if asked.frames {
        Compared::Frames
    } else {
        Compared::All
    };
    screen.progress.say("all frames are compared");
    let mut writer = WriterSink::new(screen.report());
    write_differences(
        screen.rt.alloc(),
        &left,
        &right,
        missing,
        compared,
        asked.steps as usize,
        form_of(asked.json),
        &mut writer,
    )
}

// What is found between the switches of two files.
fn found_in_files(
    screen: &Screen<'_>,
    asked: &Diff,
    first: FileRead,
    second: FileRead,
) -> Result<DiffVerdict, Ended> {
    let alloc = screen.rt.alloc();
    say_part(screen, asked.json, asked.first.as_str(), first.left)?;
    say_part(screen, asked.json, asked.second.as_str(), second.left)?;
    let Ok(list) = both_ports(alloc, &asked.ports, &first.contents, &second.contents) else {
        return Err(Ended::NoMemory);
    };
    let (Ok(first), Ok(second)) = (
        file_switch(alloc, first.contents, &list.ports),
        file_switch(alloc, second.contents, &list.ports),
    ) else {
        return Err(Ended::NoMemory);
    };
    found_between(screen, asked, &first, &second, &list.missing)
}

/// Prints which frames the switches of two files treat differently, and returns whether they treat all frames alike. The first file is read
/// before the second.
pub fn diffed<'a>(screen: &Screen<'_>, asked: &'a Diff) -> Result<DiffVerdict, Unread<'a>> {
    let rt = screen.rt;
    let first = read_one(rt, asked.first.as_str(), &asked.reading)?;
    let second = read_one(rt, asked.second.as_str(), &asked.reading)?;
    if has_idle_option(rt, asked, &first, &second) {
        return Err(Unread {
            path: asked.second.as_str(),
            why: NoFile::BadOption,
        });
    }
    let found = found_in_files(screen, asked, first, second);
    screen.progress.end();
    match found {
        Ok(verdict) => Ok(verdict),
        Err(ended) => Err(Unread {
            path: "-",
            why: NoFile::ended(rt.alloc(), ended),
        }),
    }
}
