//! Event files from a source, as flow text to a sink.
ghost use Rattle.std.specs.Prelude.{◌≡◌, ◌≤◌, ◌<◌, ◌↔◌, None};
ghost use Rattle.of_replay.specs.FileRuns.{ReadsWhole, Runs, Writes, ended_as, event_file, is_text, switch_text};
ghost use Rattle.of_replay.specs.WholeFiles.{Faults};

use crate::event_file::{Ended, MOST_READS, READ_SIZE, ended_by, zeros};
use crate::io::{Sink, Source, Writing};
use crate::loading::DPID;
use crate::plain::Plain;
use crate::replaying::Replaying;
use crate::transfer::write_all;
use of_classifier::Lookup;
use of_switch::Switch;
use of_text::disassemble;
use std::alloc::Global;

/// A sink that takes all and keeps nothing.
#[derive(Drop)]
struct Nowhere;

impl Sink for Nowhere {
    ghost taken = { λ _. None };

    ghost failures = { λ _. 0 };

    fn write(&mut self, bytes: &[u8]) -> Writing {
        Writing::Wrote(bytes.len())
    }
}

/// A new switch after the rows of a source, which are played as `replay` plays them; what they give is dropped.
///
/// Its datapath_id is 1. Where there is none, how the run of `dis` ends: at the first bad row, at a fault, or without memory.
pub fn read_switch<L: Lookup, S: Source>(alloc: Global, reader: &mut S) -> Result<Switch<L>, Ended>
    requires { S.reads reader.old ≡ 0 }
    ensures played { ReadsWhole event_file result (S.answers reader.old) (S.answers reader.new) (S.ends reader.old) (S.ends reader.new) }
    ensures faults { Faults (ended_as result) (S.reads reader.new) (S.ends reader.old) (S.ends reader.new) (S.failures reader.old) (S.failures reader.new) 0 }
    ensures reads { S.reads reader.new ≤ 1000000 }
{
    let Ok(mut buffer) = zeros(alloc, READ_SIZE) else {
        return Err(Ended::NoMemory);
    };
    let Ok(switch) = Switch::<L>::new(alloc, DPID) else {
        return Err(Ended::NoMemory);
    };
    let mut replaying = Replaying::new(alloc, switch);
    match replaying.play(&Plain, MOST_READS, reader, &mut buffer, &mut Nowhere) {
        Ok(()) => Ok(replaying.into_switch()),
        Err(halt) => Err(ended_by(Err(halt))),
    }
}

// Writes the groups and flows of a switch, as flow text.
fn write_config<L: Lookup, W: Sink>(alloc: Global, switch: &Switch<L>, writer: &mut W) -> Ended
    requires { W.failures writer.old ≡ 0 }
    ensures output { Writes (is_text switch_text switch.now) result (W.taken writer.old) (W.taken writer.new) }
    ensures write_fault { (result ≡ Ended.WriteFault) ↔ (0 < W.failures writer.new) }
{
    let Ok(config) = switch.config() else {
        return Ended::NoMemory;
    };
    let Ok(text) = disassemble(alloc, &config) else {
        return Ended::NoMemory;
    };
    if write_all(writer, &text) {
        Ended::Done
    } else {
        Ended::WriteFault
    }
}

/// Plays the rows of a source as `replay` does, without writing what they give, and writes the groups and flows that
/// the switch has after them as flow text (docs/FLOWTEXT.md): groups by number, flows by table, then by age.
///
/// Of a file with a bad row nothing is written.
pub fn dis<L: Lookup, S: Source, W: Sink>(alloc: Global, reader: &mut S, writer: &mut W) -> Ended
    requires reads { S.reads reader.old ≡ 0 }
    requires failures { W.failures writer.old ≡ 0 }
    ensures output { Runs event_file (is_text switch_text) result (S.answers reader.old) (S.answers reader.new)
        (S.ends reader.old) (S.ends reader.new) (W.taken writer.old) (W.taken writer.new) }
    ensures faults { Faults result (S.reads reader.new) (S.ends reader.old) (S.ends reader.new) (S.failures reader.old) (S.failures reader.new)
        (W.failures writer.new) }
    ensures reads { S.reads reader.new ≤ 1000000 }
{
    match read_switch::<L, S>(alloc, reader) {
        Ok(switch) => write_config(alloc, &switch, writer),
        Err(ended) => ended,
    }
}
