//! Paths of the frames of a switch.
use crate::contents::{NoFile, SwitchRead, has_port, say_missing};
use crate::left_out::say_part;
use crate::lookups::Lookups;
use crate::screen::Screen;
use crate::words::say_word;
use of_command_line::{Leading, PathsAsked};
use of_frame_words::{NoFrame, read_conditions};
use of_paths::Merging;
use of_paths_report::{Asked, Destination, PathsForm, PathsVerdict, write_paths};
use of_replay::Ended;
use of_replay::streams::WriterSink;
use of_switch::Switch;

/// Why nothing is found about the frames of a switch.
#[derive(Drop)]
pub enum NoPaths {
    File(NoFile),
    /// Words are no match, which standard error says.
    NoMatch,
    /// The switch does not have a port, which standard error says.
    NoPort,
}

fn destination_of(leading: Leading) -> Destination {
    match leading {
        Leading::Port(port) => Destination::Port(port),
        Leading::Controller => Destination::Controller,
        Leading::Drop => Destination::Nothing,
    }
}

// The place to which paths lead, if one is asked for.
fn asked_place(to: Option<Leading>) -> Option<Destination> {
    match to {
        None => None,
        Some(leading) => Some(destination_of(leading)),
    }
}

fn form_of(json: bool) -> PathsForm {
    if json {
        PathsForm::Json
    } else {
        PathsForm::Words
    }
}

// Whether the switch has the ports that are asked for.
fn has_ports(rt: &HostRuntime, asked: &PathsAsked, switch: &Switch<Lookups>) -> bool {
    let ingress = match asked.port {
        Some(port) => has_port(rt, switch, "--port", port),
        None => true,
    };
    let egress = match asked.to {
        Some(Leading::Port(port)) => has_port(rt, switch, "--to", port),
        _ => true,
    };
    ingress && egress
}

// Says why words are no match.
fn without_match(rt: &HostRuntime, why: &NoFrame) -> NoPaths {
    match why {
        NoFrame::NoMemory => NoPaths::File(NoFile::ended(rt.alloc(), Ended::NoMemory)),
        NoFrame::Refused(refusal) => {
            say_word(rt, "bad match", refusal);
            NoPaths::NoMatch
        }
    }
}

fn unfinished(rt: &HostRuntime, ended: Ended) -> NoPaths {
    NoPaths::File(NoFile::ended(rt.alloc(), ended))
}

// Prints the paths of the frames that a switch receives and that match.
fn paths_within(
    screen: &Screen<'_>,
    asked: &PathsAsked,
    read: &SwitchRead,
) -> Result<PathsVerdict, NoPaths> {
    let rt = screen.rt;
    let within = match read_conditions(rt.alloc(), asked.within.as_bytes()) {
        Ok(within) => within,
        Err(why) => return Err(without_match(rt, &why)),
    };
    if let Err(ended) = say_part(screen, asked.json, asked.of.path.as_str(), read.left) {
        return Err(unfinished(rt, ended));
    }
    let missing = match say_missing(screen, asked.json, &read.described.missing) {
        Ok(missing) => missing,
        Err(ended) => return Err(unfinished(rt, ended)),
    };
    let of_frames = Asked {
        port: asked.port,
        within,
        merging: if asked.each {
            Merging::Each
        } else {
            Merging::SameWay
        },
        to: asked_place(asked.to),
        steps: asked.steps as usize,
    };
    let (alloc, form, mut out) = (
        rt.alloc(),
        form_of(asked.json),
        WriterSink::new(screen.report()),
    );
    screen.progress.say("all frames are followed");
    let written = write_paths(alloc, &read.described.switch, &of_frames, form, &mut out);
    screen.progress.end();
    match written {
        Ok(PathsVerdict::Complete) if missing => Ok(PathsVerdict::Undecided),
        Ok(verdict) => Ok(verdict),
        Err(ended) => Err(unfinished(rt, ended)),
    }
}

/// Prints which steps the frames take that the switch of a file receives, and returns whether it is known of all of them.
pub fn divided(
    screen: &Screen<'_>,
    asked: &PathsAsked,
    read: &SwitchRead,
) -> Result<PathsVerdict, NoPaths> {
    if has_ports(screen.rt, asked, &read.described.switch) {
        paths_within(screen, asked, read)
    } else {
        Err(NoPaths::NoPort)
    }
}
