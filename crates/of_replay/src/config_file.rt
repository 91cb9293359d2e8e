//! Flow text from a source, as a configuration.
ghost use Rattle.std.specs.Prelude.{◌≡◌, ◌≤◌, true};
ghost use Rattle.of_replay.specs.{FileRuns.IsRead, FileRuns.ReadsWhole, FileRuns.ended_as, FileRuns.flow_text, WholeFiles.Faults};

use crate::event_file::{Ended, READ_SIZE, ended_by, zeros};
use crate::io::Source;
use crate::whole_file::{bad_line, read_file};
use of_text::{Config, TextFault, assemble};
use std::alloc::Global;

/// The configuration of a flow text (docs/FLOWTEXT.md) that was read whole; or how a run ends that needs one.
pub fn config_of_text(alloc: Global, file: &[u8]) -> Result<Config, Ended>
    ensures { IsRead flow_text result true file.now }
{
    if let Some(number) = bad_line(file) {
        return Err(Ended::BadRow(number));
    }
    match assemble(alloc, file) {
        Ok(config) => Ok(config),
        Err(TextFault::NoMemory) => Err(Ended::NoMemory),
        Err(fault) => Err(Ended::Text(fault)),
    }
}

/// Reads a whole flow text (docs/FLOWTEXT.md), and returns its configuration; or how a run ends that needs one.
pub fn read_config<S: Source>(alloc: Global, reader: &mut S) -> Result<Config, Ended>
    requires { S.reads reader.old ≡ 0 }
    ensures config { ReadsWhole flow_text result (S.answers reader.old) (S.answers reader.new) (S.ends reader.old) (S.ends reader.new) }
    ensures faults { Faults (ended_as result) (S.reads reader.new) (S.ends reader.old) (S.ends reader.new) (S.failures reader.old) (S.failures reader.new) 0 }
    ensures reads { S.reads reader.new ≤ 1000000 }
{
    let Ok(mut buffer) = zeros(alloc, READ_SIZE) else {
        return Err(Ended::NoMemory);
    };
    let mut file = Vec::new(alloc);
    match read_file(reader, &mut buffer, &mut file) {
        Err(halt) => Err(ended_by(Err(halt))),
        Ok(()) => config_of_text(alloc, &file),
    }
}
