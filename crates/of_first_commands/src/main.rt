//! `replay`, `asm` and `dis` of a file, as a program of their own. It prints what `ofswitch` prints, and stands on half of the crates, so it is proved
//! long before the whole program is (./ofswitch).
#![tactic(auto)]

use of_cache::Cached;
use of_hints::{OutputReader, Seen, Stream, end, end_file};
use of_mask_groups::MaskGroups;
use of_replay::streams::{ReaderSource, WriterSink};
use of_replay::{Ended, Plain, asm, dis, print_file};
use std::fs::{self, File};
use std::io::{self, ErrorKind};
use std::process::ExitCode;

/// How the running switch looks entries up.
type Lookups = Cached<MaskGroups>;

/// The datapath_id of a switch if none is given.
const DPID: u64 = 1;

/// How often a file is read at most if no number is given.
const READS: u32 = 1_000_000;

/// The exit status if the arguments are not understood.
const BAD_ARGUMENTS: u8 = 1;

/// What is done with a file.
#[derive(Clone, Copy)]
enum Command {
    Replay,
    Assemble,
    Disassemble,
}

fn command_of(word: &str) -> Option<Command> {
    match word {
        "replay" => Some(Command::Replay),
        "asm" => Some(Command::Assemble),
        "dis" => Some(Command::Disassemble),
        _ => None,
    }
}

fn run(rt: &HostRuntime, command: Command, bytes: &[u8]) -> Ended {
    let alloc = rt.alloc();
    let mut reader = ReaderSource::new(bytes);
    let output = OutputReader::new();
    let mut writer = WriterSink::new(Stream::new(rt.stdout(), &output));
    let ended = match command {
        Command::Replay => {
            print_file::<Lookups, _, _, _>(alloc, DPID, READS, &Plain, &mut reader, &mut writer)
        }
        Command::Assemble => asm(alloc, &mut reader, &mut writer),
        Command::Disassemble => dis::<Lookups, _, _>(alloc, &mut reader, &mut writer),
    };
    output.end(ended)
}

fn run_file(rt: &HostRuntime, command: Command, path: &str) -> ExitCode {
    match fs::read(rt, path) {
        Ok(bytes) => {
            let seen = Seen::whole(bytes);
            let ended = run(rt, command, seen.bytes());
            end_file(rt, path, &seen, &ended)
        }
        Err(error) if error.kind() == ErrorKind::OutOfMemory => end(rt, &Ended::NoMemory),
        Err(error) => end_unread(rt, path, &error),
    }
}

// A file that does not open, or, as a folder, not give its bytes.
fn end_unread(rt: &HostRuntime, path: &str, error: &io::Error) -> ExitCode {
    if File::open(rt, path).is_ok() {
        return end_file(rt, path, &Seen::nothing(rt.alloc()), &Ended::ReadFault);
    }
    let code = end(rt, &Ended::ReadFault);
    let _ = eprintln!(rt; "cannot open {path}: {error}");
    code
}

fn main(rt: HostRuntime) -> ExitCode {
    let words = match std::env::args(&rt) {
        Ok(arguments) => arguments.collect::<Vec<String>>(rt.alloc()),
        Err(_) => return ExitCode::from(BAD_ARGUMENTS),
    };
    let Ok(words) = words else {
        return end(&rt, &Ended::NoMemory);
    };
    if let [_, word, path] = words.as_slice() {
        if let Some(command) = command_of(word.as_str()) {
            return run_file(&rt, command, path.as_str());
        }
    }
    let _ = eprintln!(rt; "this program knows only `replay FILE`, `asm FILE` and `dis FILE`");
    ExitCode::from(BAD_ARGUMENTS)
}
