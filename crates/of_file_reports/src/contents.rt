//! What the bytes of a file are read as, and the switch that they describe.
ghost use Rattle.std.specs.Prelude.{◌≡◌, None, Some, IsTrue};
ghost use Rattle.of_command_line.specs.declared.switch_file.FileKind.TheVariants.{Guessed, Flows, Events, Ovs};
ghost use Rattle.of_files.specs.Contents.{content_of as content_in};
ghost use Rattle.of_files.specs.declared.contents.Content.TheVariants.{EventFile, FlowText, OvsTable};

use crate::faults::{Fault, import_fault};
use crate::importing::{NotImported, say_no_import};
use crate::left_out::{LeftCount, say_left_out};
use crate::lookups::Lookups;
use crate::screen::Screen;
use of_command_line::{FileKind, OvsReading, SwitchFile};
use of_files::{Content, Contents, Described, NoContents, content_of, describe, read_contents};
use of_hints::Seen;
use of_import::ImportError;
use of_ovs_lines::Mode;
use of_ports::find_port;
use of_replay::streams::WriterSink;
use of_replay::{Ended, write_all};
use of_switch::Switch;
use of_text::Config;
use std::alloc::{AllocError, Global};
use std::io;

/// Why a file is not read, or describes no switch.
#[derive(Drop)]
pub enum NoFile {
    /// It does not open.
    Unopened(io::Error),
    /// Lines of a table of Open vSwitch are refused, which standard error names; and what is wrong with the first of them.
    Faults(Option<Fault>),
    /// What was read of it, and how the run ends.
    Ended { seen: Seen, ended: Ended },
    /// An option says what cannot be done, as standard error says.
    BadOption,
}

impl NoFile {
    /// A run that ended without anything to say about lines.
    pub fn ended(alloc: Global, ended: Ended) -> Self {
        NoFile::Ended {
            seen: Seen::nothing(alloc),
            ended,
        }
    }
}

/// A file that was read, for what is still to be said about its lines.
#[derive(Drop)]
pub struct FileRead {
    pub bytes: Vec<u8>,
    pub content: Content,
    pub contents: Contents<Lookups>,
    pub left: LeftCount,
}

/// What an option says that a file is, if one does.
pub fn content_said(kind: FileKind) -> Option<Content>
    ensures guessed { kind ≡ Guessed → result ≡ None }
    ensures flows { kind ≡ Flows → result ≡ Some FlowText }
    ensures events { kind ≡ Events → result ≡ Some EventFile }
    ensures ovs { kind ≡ Ovs → result ≡ Some OvsTable }
{
    match kind {
        FileKind::Guessed => None,
        FileKind::Flows => Some(Content::FlowText),
        FileKind::Events => Some(Content::EventFile),
        FileKind::Ovs => Some(Content::OvsTable),
    }
}

// Whether a text has the word that each flow of Open vSwitch has.
fn has_actions(bytes: &[u8]) -> bool {
    bytes.windows(8).any(|word| word.starts_with(b"actions="))
}

/// Whether a text is what ovs-ofctl prints, and not a flow text with a mistake in its first line.
pub fn is_table(bytes: &[u8]) -> bool
    ensures { IsTrue result → content_in bytes.now ≡ OvsTable }
{
    content_of(bytes) == Content::OvsTable && has_actions(bytes)
}

// A file of another kind with a mistake in its first line is taken for a table of Open vSwitch.
fn say_guess(rt: &HostRuntime, kind: FileKind, bytes: &[u8]) {
    if kind == FileKind::Guessed && !has_actions(bytes) {
        let _ = eprintln!(rt;
            "read as ovs-ofctl output; for flow text or an event file use --flows or --events"
        );
    }
}

/// What ovs-ofctl prints was refused: standard error says why, if memory suffices.
pub fn refused_table(
    rt: &HostRuntime,
    kind: FileKind,
    bytes: &[u8],
    error: &ImportError,
) -> NoFile {
    match say_no_import(rt, bytes, error) {
        NotImported::Ended(ended) => NoFile::ended(rt.alloc(), ended),
        NotImported::Faults => {
            say_guess(rt, kind, bytes);
            NoFile::Faults(import_fault(rt.alloc(), error).unwrap_or(None))
        }
    }
}

/// How a table is read.
pub fn mode_of(reading: &OvsReading) -> Mode
    ensures skip { result.skip ≡ reading.now.skip }
    ensures renumber { result.renumber ≡ reading.now.renumber }
{
    Mode {
        skip: reading.skip,
        renumber: reading.renumber,
    }
}

/// Whether there is no option for what ovs-ofctl prints; if there is one, standard error says which, and that the file is of another kind.
pub fn is_without_options(rt: &HostRuntime, reading: &OvsReading, path: &str) -> bool {
    let Some(option) = reading.own_option() else {
        return true;
    };
    let _ = eprintln!(rt; "bad {option}: {path} is not what ovs-ofctl prints");
    false
}

/// Says on standard error the name of a file, if it is to be `named` before what is wrong with it.
pub fn say_name(rt: &HostRuntime, path: &str, named: bool) {
    if named {
        let _ = eprint!(rt; "{path}: ");
    }
}

/// What the bytes of a file of this content are read as; of an event file only so many first lines, if they are given. Standard error names what
/// is left out, or what is wrong; if the file is `named`, behind its name.
pub fn contents_of(
    rt: &HostRuntime,
    path: &str,
    kind: FileKind,
    lines: Option<u64>,
    named: bool,
    mode: Mode,
    bytes: Vec<u8>,
    content: Content,
) -> Result<FileRead, NoFile> {
    match read_contents(rt.alloc(), &bytes, Some(content), lines, mode) {
        Ok(contents) => Ok(FileRead {
            left: say_left_out(rt, named.then_some(path), &bytes, &contents),
            bytes,
            content,
            contents,
        }),
        Err(NoContents::Ended(ended)) => {
            say_name(rt, path, named);
            Err(NoFile::Ended {
                seen: Seen::whole(bytes),
                ended,
            })
        }
        Err(NoContents::NotImported(error)) => {
            say_name(rt, path, named);
            Err(refused_table(rt, kind, &bytes, &error))
        }
    }
}

/// The groups and flows of what was read; of an event file, those that its switch has.
pub fn config_of(contents: Contents<Lookups>) -> Result<Config, AllocError> {
    match contents {
        Contents::Tables(tables) => Ok(tables.config),
        Contents::Events(switch) => switch.config(),
    }
}

/// The switch of a file, and how much of the file was left out.
#[derive(Drop)]
pub struct SwitchRead {
    pub described: Described<Lookups>,
    pub left: LeftCount,
}

/// The switch of a file that was read, with the ports that the command line gives it.
pub fn switch_read(
    rt: &HostRuntime,
    of: &SwitchFile,
    read: FileRead,
) -> Result<SwitchRead, NoFile> {
    let FileRead { contents, left, .. } = read;
    match describe(rt.alloc(), contents, &of.ports) {
        Ok(described) => Ok(SwitchRead { described, left }),
        Err(_) => Err(NoFile::ended(rt.alloc(), Ended::NoMemory)),
    }
}

/// Whether a switch has a port; if not, standard error says which it has.
pub fn has_port(rt: &HostRuntime, switch: &Switch<Lookups>, option: &str, port: u32) -> bool {
    let ports = switch.datapath().ports.as_slice();
    if find_port(ports, port).is_some() {
        return true;
    }
    let _ = eprint!(rt; "bad {option}: the switch has no port {port}; its ports are");
    for port in ports {
        let _ = eprint!(rt; " {}", port.number);
    }
    let _ = eprintln!(rt; "{}", if ports.is_empty() { " none" } else { "" });
    false
}

/// Says that groups and flows name ports that the switch does not have, and returns whether there are such: in lines of the report, or before a
/// JSON document on standard error.
pub fn say_missing(screen: &Screen<'_>, json: bool, missing: &[u32]) -> Result<bool, Ended> {
    let alloc = screen.rt.alloc();
    for port in missing {
        let Ok(line) = format!(in alloc; "port {port} is named, and the switch does not have it\n")
        else {
            return Err(Ended::NoMemory);
        };
        if json {
            let _ = eprint!(screen.rt; "{line}");
        } else if !write_all(&mut WriterSink::new(screen.report()), line.as_bytes()) {
            return Err(Ended::WriteFault);
        }
    }
    Ok(!missing.is_empty())
}
