//! Event files from a source, played on a new switch, and what it gives to a sink.
ghost use Rattle.std.specs.Prelude.{◌≡◌, IfOk, replicate};
ghost use Rattle.of_switch.specs.State.{start};
ghost use Rattle.of_replay.specs.{Output.printed_from, Play.PrintsLines, Play.WrittenEarly, RowTexts.told, Rows.rows_of_lines, Ended.status_of, Stepping.ended_so, WholeFiles.RunFaults};

use crate::halt::Halt;
use crate::io::{Sink, Source};
use crate::plain::Plain;
use crate::replaying::Replaying;
use crate::telling::RowPrinter;
use of_classifier::Lookup;
use of_switch::Switch;
use of_text::TextFault;
use std::alloc::{AllocError, Global};
use thiserror::Error;

/// How many bytes a read asks for.
pub const READ_SIZE: usize = 65_536;

/// How often a source is read at most, unless another number is asked for: then no more than 65,536,000,000 bytes are read of it.
pub const MOST_READS: u32 = 1_000_000;

/// How a run ended. Displayed, it is the line on standard error.
#[derive(Clone, Copy, Debug, PartialEq, Eq, Error)]
pub enum Ended {
    /// All rows were played, and what they print was written.
    #[error("done")]
    Done,
    /// The line of this number, from 1, is a bad row; what the rows before it print was written.
    #[error("line {0}: bad row")]
    BadRow(u64),
    /// A flow text is no configuration; nothing was written.
    #[error("{0}")]
    Text(TextFault),
    /// A read failed, or a million reads found no end; what the whole lines that were read print was written.
    #[error("read fault")]
    ReadFault,
    /// A write failed; a prefix of what the rows print was written.
    #[error("write fault")]
    WriteFault,
    /// Memory ran out; what the rows before that print was written, with all that were whole before the last read.
    #[error("no memory")]
    NoMemory,
}

/// The exit status of a run.
pub fn status(ended: &Ended) -> u8
    ensures { result ≡ status_of ended.now }
{
    match ended {
        Ended::Done => 0,
        Ended::BadRow(_) | Ended::Text(_) => 2,
        Ended::ReadFault | Ended::WriteFault | Ended::NoMemory => 3,
    }
}

/// How the run ended that halted so.
pub fn ended_by(played: Result<(), Halt>) -> Ended
    ensures { result ≡ ended_so played }
{
    match played {
        Ok(()) => Ended::Done,
        Err(Halt::Bad(number)) => Ended::BadRow(number),
        Err(Halt::Memory) => Ended::NoMemory,
        Err(Halt::Read) => Ended::ReadFault,
        Err(Halt::Write) => Ended::WriteFault,
    }
}

/// `len` zeros.
pub fn zeros(alloc: Global, len: usize) -> Result<Vec<u8>, AllocError>
    ensures { IfOk result (λ bytes. bytes.items ≡ replicate len 0) }
{
    let mut bytes = Vec::new(alloc);
    bytes.resize(len, 0)?;
    Ok(bytes)
}

/// Plays the rows of a source on a new switch without a connection, flows and ports, and writes what the teller says of them.
///
/// Rows are played as they are read, and what they give is written before the next read. Of the file no more is kept than one
/// read and the line that has begun, up to 1,048,577 bytes. After so many reads without an end it is a read fault.
pub fn print_file<L: Lookup, T: RowPrinter<L>, S: Source, W: Sink>(
    alloc: Global,
    dpid: u64,
    most: u32,
    teller: &T,
    reader: &mut S,
    writer: &mut W,
) -> Ended
    requires reads { S.reads reader.old ≡ 0 }
    requires failures { W.failures writer.old ≡ 0 }
    ensures output { PrintsLines (told (start dpid) T.tale) result (S.answers reader.old) (S.answers reader.new) (S.ends reader.old) (S.ends reader.new)
        (W.taken writer.old) (W.taken writer.new) }
    ensures faults { RunFaults most result (S.reads reader.new) (S.ends reader.old) (S.ends reader.new) (S.failures reader.old) (S.failures reader.new)
        (W.failures writer.new) }
    ensures early { WrittenEarly (told (start dpid) T.tale) (S.answers reader.old) (S.answers reader.new) (W.taken writer.old) (W.taken writer.new) }
{
    let Ok(mut buffer) = zeros(alloc, READ_SIZE) else {
        return Ended::NoMemory;
    };
    let Ok(switch) = Switch::<L>::new(alloc, dpid) else {
        return Ended::NoMemory;
    };
    let mut replaying = Replaying::new(alloc, switch);
    ended_by(replaying.play(teller, most, reader, &mut buffer, writer))
}

/// Plays the rows of a source on a new switch without a connection, flows and ports, and writes what it gives.
///
/// Rows are played as they are read, and what they give is written before the next read. Of the file no more is kept than one
/// read and the line that has begun, up to 1,048,577 bytes.
pub fn replay<L: Lookup, S: Source, W: Sink>(
    alloc: Global,
    dpid: u64,
    reader: &mut S,
    writer: &mut W,
) -> Ended
    requires reads { S.reads reader.old ≡ 0 }
    requires failures { W.failures writer.old ≡ 0 }
    ensures output { PrintsLines (λ lines. printed_from (start dpid) (rows_of_lines lines).events) result (S.answers reader.old) (S.answers reader.new)
        (S.ends reader.old) (S.ends reader.new) (W.taken writer.old) (W.taken writer.new) }
    ensures faults { RunFaults 1000000 result (S.reads reader.new) (S.ends reader.old) (S.ends reader.new) (S.failures reader.old) (S.failures reader.new)
        (W.failures writer.new) }
    ensures early { WrittenEarly (λ lines. printed_from (start dpid) (rows_of_lines lines).events) (S.answers reader.old) (S.answers reader.new)
        (W.taken writer.old) (W.taken writer.new) }
{
    print_file::<L, _, _, _>(alloc, dpid, MOST_READS, &Plain, reader, writer)
}
