//! Flow text from a source, as event files to a sink.
ghost use Rattle.std.specs.Prelude.{◌≡◌, ◌≤◌, ◌<◌, ◌↔◌};
ghost use Rattle.of_build.specs.Building.{build_text};
ghost use Rattle.of_replay.specs.{FileRuns.Runs, FileRuns.Writes, FileRuns.flow_text, FileRuns.is_text, WholeFiles.Faults};

use crate::config_file::read_config;
use crate::event_file::Ended;
use crate::io::{Sink, Source};
use crate::transfer::write_all;
use of_build::build;
use of_text::Config;
use std::alloc::Global;

// Writes the event file of a configuration.
fn write_built<W: Sink>(alloc: Global, config: &Config, writer: &mut W) -> Ended
    requires { W.failures writer.old ≡ 0 }
    ensures output { Writes (is_text build_text config.now) result (W.taken writer.old) (W.taken writer.new) }
    ensures write_fault { (result ≡ Ended.WriteFault) ↔ (0 < W.failures writer.new) }
{
    let Ok(text) = build(alloc, config) else {
        return Ended::NoMemory;
    };
    if write_all(writer, &text) {
        Ended::Done
    } else {
        Ended::WriteFault
    }
}

/// Reads a flow text (docs/FLOWTEXT.md) and writes an event file that builds its configuration on a new switch: a
/// controller connects, says HELLO, adds each group by a GROUP_MOD, by ascending length of its chains, then by number, and
/// each flow by a FLOW_MOD, by table, then by age.
///
/// The file is read whole, and nothing is written of one that is no configuration.
pub fn asm<S: Source, W: Sink>(alloc: Global, reader: &mut S, writer: &mut W) -> Ended
    requires reads { S.reads reader.old ≡ 0 }
    requires failures { W.failures writer.old ≡ 0 }
    ensures output { Runs flow_text (is_text build_text) result (S.answers reader.old) (S.answers reader.new) (S.ends reader.old) (S.ends reader.new)
        (W.taken writer.old) (W.taken writer.new) }
    ensures faults { Faults result (S.reads reader.new) (S.ends reader.old) (S.ends reader.new) (S.failures reader.old) (S.failures reader.new)
        (W.failures writer.new) }
    ensures reads { S.reads reader.new ≤ 1000000 }
{
    match read_config(alloc, reader) {
        Ok(config) => write_built(alloc, &config, writer),
        Err(ended) => ended,
    }
}
