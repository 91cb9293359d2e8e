//! Requirements of the switch of a file.
use crate::contents::NoFile;
use crate::faults::requirement_fault;
use crate::lookups::Lookups;
use crate::screen::Screen;
use of_command_line::{Check, CheckOutput};
use of_files::{missing_ports, push_required_port};
use of_hints::{Marked, Place, line_in};
use of_paths_report::Destination;
use of_replay::Ended;
use of_require::{
    Answer, Demand, Line, NoRequirement, NoRequirements, Refusal, Verdict, answer_all,
    read_requirements, requirements_as_json, requirements_as_junit, requirements_in_words, worst,
};
use of_switch::Switch;
use of_values::push_each;
use std::alloc::{AllocError, Global};
use std::fs::File;
use std::io::{self, Write};

/// What is found about requirements: the text of the report, and the worst verdict.
#[derive(Drop)]
pub struct Required {
    pub text: Vec<u8>,
    pub verdict: Verdict,
}

// Says which line is no requirement, and why, and shows it.
fn say_refusal(rt: &HostRuntime, path: &str, bytes: &[u8], line: usize, refusal: &Refusal) {
    let word = match std::str::from_utf8(&refusal.word) {
        Ok("") => "at its end",
        Ok(word) => word,
        Err(_) => "?",
    };
    let _ = eprintln!(rt; "{path}: line {line}: {word}: {}", refusal.why);
    if let Some(line) = line_in(bytes, line as u64) {
        let _ = rt.eprintln(Marked::new(line, Place::of_part(line, &refusal.word)));
    }
}

/// The requirements of a file with these bytes; if it has none, standard error says which line is at fault.
pub fn required_in(rt: &HostRuntime, path: &str, bytes: &[u8]) -> Result<Vec<Line>, NoFile> {
    let NoRequirements { line, why } = match read_requirements(rt.alloc(), bytes) {
        Ok(lines) => return Ok(lines),
        Err(refused) => refused,
    };
    match why {
        NoRequirement::NoMemory => Err(NoFile::ended(rt.alloc(), Ended::NoMemory)),
        NoRequirement::Refused(refusal) => {
            say_refusal(rt, path, bytes, line, &refusal);
            let fault = requirement_fault(rt.alloc(), line, refusal);
            Err(NoFile::Faults(fault.ok()))
        }
    }
}

fn push_places(ports: &mut Vec<u32>, places: &[Destination]) -> Result<(), AllocError> {
    for place in places {
        if let Destination::Port(port) = place {
            ports.push(*port)?;
        }
    }
    Ok(())
}

fn push_line_ports(ports: &mut Vec<u32>, line: &Line) -> Result<(), AllocError> {
    push_each(ports, &line.requirement.within, |ports, field| {
        push_required_port(ports, field)
    })?;
    match &line.requirement.demand {
        Demand::LeavesBy(places) | Demand::LeavesOnlyBy(places) | Demand::Has { places, .. } =>
            push_places(ports, places),
        Demand::PassesTable(_) => Ok(()),
    }
}

/// Appends the ports that requirements name.
pub fn push_required(ports: &mut Vec<u32>, lines: &[Line]) -> Result<(), AllocError> {
    for line in lines {
        push_line_ports(ports, line)?;
    }
    Ok(())
}

/// The ports that requirements name and that a switch does not have.
pub fn missing_on(
    alloc: Global,
    switch: &Switch<Lookups>,
    lines: &[Line],
) -> Result<Vec<u32>, AllocError> {
    let (mut named, mut ports) = (Vec::new(alloc), Vec::new(alloc));
    push_required(&mut named, lines)?;
    for port in switch.datapath().ports.as_slice() {
        ports.push(port.number)?;
    }
    missing_ports(alloc, &named, &ports)
}

// The report in words or as a member of the JSON object; empty if there are no requirements.
fn text_of(
    alloc: Global,
    output: CheckOutput,
    asked: bool,
    found: &[Answer],
) -> Result<Vec<u8>, AllocError> {
    match output {
        _ if !asked => Ok(Vec::new(alloc)),
        CheckOutput::Json => requirements_as_json(alloc, found),
        CheckOutput::Report => requirements_in_words(alloc, false, found),
        CheckOutput::All | CheckOutput::AllInWords => requirements_in_words(alloc, true, found),
    }
}

// Says that a file is not written.
fn unwritten(rt: &HostRuntime, path: &str, error: &io::Error) -> NoFile {
    let _ = eprintln!(rt; "cannot write {path}: {error}");
    NoFile::ended(rt.alloc(), Ended::WriteFault)
}

// Writes the report as XML.
fn write_junit(rt: &HostRuntime, path: &str, found: &[Answer]) -> Result<(), NoFile> {
    let Ok(text) = requirements_as_junit(rt.alloc(), found) else {
        return Err(NoFile::ended(rt.alloc(), Ended::NoMemory));
    };
    let mut file = match File::create(rt, path) {
        Ok(file) => file,
        Err(error) => return Err(unwritten(rt, path, &error)),
    };
    match file.write_all(&text) {
        Ok(()) => Ok(()),
        Err(error) => Err(unwritten(rt, path, &error)),
    }
}

// What is found about each requirement, one after the other.
fn answers_of(
    screen: &Screen<'_>,
    switch: &Switch<Lookups>,
    lines: Vec<Line>,
    steps: usize,
) -> Result<Vec<Answer>, AllocError> {
    let (alloc, count, progress) = (screen.rt.alloc(), lines.len(), &screen.progress);
    let mut answers = Vec::new(alloc);
    for line in lines {
        let number = answers.len().saturating_add(1);
        progress.say(format!(in alloc; "requirement {number} of {count}")?);
        let mut asked = Vec::new(alloc);
        asked.push(line)?;
        let mut found = answer_all(alloc, switch.datapath(), asked, steps)?;
        answers.append(&mut found)?;
    }
    progress.end();
    Ok(answers)
}

/// What is found about requirements of a switch, which is also written as XML if that is asked for.
pub fn decide_all(
    screen: &Screen<'_>,
    asked: &Check,
    switch: &Switch<Lookups>,
    lines: Vec<Line>,
) -> Result<Required, NoFile> {
    let rt = screen.rt;
    let (alloc, steps) = (rt.alloc(), asked.steps as usize);
    let Ok(found) = answers_of(screen, switch, lines, steps) else {
        return Err(NoFile::ended(alloc, Ended::NoMemory));
    };
    if let Some(path) = &asked.junit {
        write_junit(rt, path.as_str(), &found)?;
    }
    match text_of(alloc, asked.output, asked.require.is_some(), &found) {
        Ok(text) => Ok(Required {
            text,
            verdict: worst(&found),
        }),
        Err(_) => Err(NoFile::ended(alloc, Ended::NoMemory)),
    }
}
