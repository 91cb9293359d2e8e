//! Frames, traced on the flows of a flow text.
ghost use Rattle.std.specs.Prelude.{◌≡◌, ◌≤◌};
ghost use Rattle.of_replay.specs.{FileRuns.Runs, FileRuns.flow_text, FileRuns.is_text, WholeFiles.Faults};
ghost use Rattle.of_trace.specs.Files.{trace_of};

use crate::form::Output;
use crate::writing::write_trace;
use of_classifier::Lookup;
use of_replay::{Ended, Sink, Source, read_config, switch_of_config};
use std::alloc::Global;

/// The ports of the switch of a flow text.
pub const TRACED_PORTS: [u32; 64] = [
    1, 2, 3, 4, 5, 6, 7, 8, 9, 10, 11, 12, 13, 14, 15, 16, 17, 18, 19, 20, 21, 22, 23, 24, 25, 26,
    27, 28, 29, 30, 31, 32, 33, 34, 35, 36, 37, 38, 39, 40, 41, 42, 43, 44, 45, 46, 47, 48, 49, 50,
    51, 52, 53, 54, 55, 56, 57, 58, 59, 60, 61, 62, 63, 64,
];

/// Reads a flow text (docs/FLOWTEXT.md) and writes what `output` says of the trace of a frame received at a port, on a new switch with ports 1 to
/// 64, whose links are up, and with the groups and flows of the text.
///
/// The file is read whole, and nothing is written of one that is no configuration.
pub fn trace_file<L: Lookup, S: Source, W: Sink>(
    alloc: Global,
    reader: &mut S,
    port: u32,
    frame: &[u8],
    output: Output,
    writer: &mut W,
) -> Ended
    requires reads { S.reads reader.old ≡ 0 }
    requires failures { W.failures writer.old ≡ 0 }
    ensures output { Runs flow_text (is_text (trace_of output port frame.now)) result (S.answers reader.old) (S.answers reader.new)
        (S.ends reader.old) (S.ends reader.new) (W.taken writer.old) (W.taken writer.new) }
    ensures faults { Faults result (S.reads reader.new) (S.ends reader.old) (S.ends reader.new) (S.failures reader.old) (S.failures reader.new)
        (W.failures writer.new) }
    ensures reads { S.reads reader.new ≤ 1000000 }
{
    let config = match read_config(alloc, reader) {
        Ok(config) => config,
        Err(ended) => return ended,
    };
    match switch_of_config::<L>(alloc, &config, &TRACED_PORTS) {
        Ok(switch) => write_trace(alloc, &switch, port, frame, output, writer),
        Err(_) => Ended::NoMemory,
    }
}
