//! The groups and flows with which a switch begins.
use crate::files::read_file_contents;
use of_command_line::{FileKind, OvsReading};
use of_explain::push_message;
use of_file_reports::{Lookups, NoFile, config_of};
use of_files::{Contents, first_events};
use of_replay::Ended;
use of_sockets::Teller;
use of_switch::{Effect, Event, Report, Seed, Switch};
use std::alloc::{AllocError, Global};

/// The type of an ERROR (OpenFlow 1.3.5, 7.1).
const ERROR: u8 = 1;

fn events_of(alloc: Global, contents: Contents<Lookups>) -> Result<Vec<Event>, AllocError> {
    first_events(alloc, &config_of(contents)?)
}

/// The events that give a switch the groups and flows of a file; of an event file, those that the switch has after its rows. None of them
/// without a file.
pub fn events_of_tables(
    rt: &HostRuntime,
    tables: Option<&str>,
    reading: &OvsReading,
) -> Result<Vec<Event>, NoFile> {
    let Some(path) = tables else {
        return Ok(Vec::new(rt.alloc()));
    };
    let read = read_file_contents(rt, path, FileKind::Guessed, None, false, true, reading)?;
    match events_of(rt.alloc(), read.contents) {
        Ok(events) => Ok(events),
        Err(_) => Err(NoFile::ended(rt.alloc(), Ended::NoMemory)),
    }
}

// Says an ERROR that the switch answers.
fn say_error(teller: &Teller<'_>, answer: &[u8]) -> Result<(), AllocError> {
    if answer.get(1).copied() == Some(ERROR) {
        let mut words = Vec::new(teller.rt.alloc());
        push_message(teller.rt.alloc(), &mut words, answer)?;
        let words = std::str::from_utf8(&words).unwrap_or("?");
        let _ = eprintln!(teller; "a message for --tables is refused: {words}");
    }
    Ok(())
}

fn say_errors(teller: &Teller<'_>, report: &Report) -> Result<(), AllocError> {
    let Report::Gives(effects) = report else {
        return Ok(());
    };
    for effect in effects.as_slice() {
        if let Effect::Answer(bytes) = effect {
            say_error(teller, bytes.as_slice())?;
        }
    }
    Ok(())
}

/// A new switch to which these events happened first. Standard error has the ERRORs that it answers.
pub fn begun_switch(
    teller: &Teller<'_>,
    dpid: u64,
    seed: Seed,
    first: &[Event],
) -> Result<Switch<Lookups>, AllocError> {
    let mut switch = Switch::<Lookups>::with_seed(teller.rt.alloc(), dpid, seed)?;
    let mut reports = Vec::new(teller.rt.alloc());
    switch.run(first, &mut reports)?;
    for report in &reports {
        say_errors(teller, report)?;
    }
    Ok(switch)
}
