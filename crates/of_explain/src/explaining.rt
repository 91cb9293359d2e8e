//! Event files, explained.
ghost use Rattle.std.specs.Prelude.{◌≡◌};
ghost use Rattle.of_switch.specs.State.{start};
ghost use Rattle.of_replay.specs.{Play.PrintsLines, Play.WrittenEarly, RowTexts.told, WholeFiles.RunFaults};
ghost use Rattle.of_explain.specs.{Explained.explained, RowObjects.explained_json};

use crate::json_rows::ExplainingJson;
use crate::rows::Explaining;
use of_classifier::Lookup;
use of_replay::{Ended, MOST_READS, Sink, Source, print_file};
use std::alloc::Global;

/// Plays the rows of a source as `replay` does, and writes each line behind its number, and below it, after four spaces, what it did in
/// words.
///
/// A row that happens has a note for each effect that `replay` would print, in order. Before them come, for a controller's
/// bytes, each message that they complete (OpenFlow 1.3.5, 6.3.2 and 7.1), and for a frame its way: the port at which it is
/// received, or why it is not, and each lookup. A row that is refused has a note that says why. Empty lines are left out. It
/// reads, writes and ends as `replay` does.
pub fn explain<L: Lookup, S: Source, W: Sink>(
    alloc: Global,
    dpid: u64,
    reader: &mut S,
    writer: &mut W,
) -> Ended
    requires reads { S.reads reader.old ≡ 0 }
    requires failures { W.failures writer.old ≡ 0 }
    ensures output { PrintsLines (told (start dpid) explained) result (S.answers reader.old) (S.answers reader.new) (S.ends reader.old) (S.ends reader.new)
        (W.taken writer.old) (W.taken writer.new) }
    ensures faults { RunFaults 1000000 result (S.reads reader.new) (S.ends reader.old) (S.ends reader.new) (S.failures reader.old) (S.failures reader.new)
        (W.failures writer.new) }
    ensures early { WrittenEarly (told (start dpid) explained) (S.answers reader.old) (S.answers reader.new) (W.taken writer.old) (W.taken writer.new) }
{
    print_file::<L, _, _, _>(alloc, dpid, MOST_READS, &Explaining, reader, writer)
}

/// The same as JSON Lines: for each line that is not empty an object, with the number of the line, the line, and the notes below it.
pub fn explain_json<L: Lookup, S: Source, W: Sink>(
    alloc: Global,
    dpid: u64,
    reader: &mut S,
    writer: &mut W,
) -> Ended
    requires reads { S.reads reader.old ≡ 0 }
    requires failures { W.failures writer.old ≡ 0 }
    ensures output { PrintsLines (told (start dpid) explained_json) result (S.answers reader.old) (S.answers reader.new) (S.ends reader.old)
        (S.ends reader.new) (W.taken writer.old) (W.taken writer.new) }
    ensures faults { RunFaults 1000000 result (S.reads reader.new) (S.ends reader.old) (S.ends reader.new) (S.failures reader.old) (S.failures reader.new)
        (W.failures writer.new) }
    ensures early { WrittenEarly (told (start dpid) explained_json) (S.answers reader.old) (S.answers reader.new) (W.taken writer.old) (W.taken writer.new) }
{
    print_file::<L, _, _, _>(alloc, dpid, MOST_READS, &ExplainingJson, reader, writer)
}
