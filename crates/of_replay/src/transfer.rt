//! Whole texts to a sink.
ghost use Rattle.std.specs.{Prelude.◌≡◌, Prelude.◌<◌, Bool.OnTrue, Bool.OnFalse, Io.KnownBytes.Appends};
ghost use Rattle.of_replay.specs.Transfer.{Grows, WrotePrefix};

use crate::io::{Sink, Writing};
use of_wire::rest_from;

/// Writes all of the bytes and returns true, unless a write fails: then a prefix was written.
pub fn write_all<W: Sink>(writer: &mut W, bytes: &[u8]) -> bool
    requires { W.failures writer.old ≡ 0 }
    ensures all { OnTrue result (Appends (W.taken writer.old) (W.taken writer.new) bytes.now) }
    ensures well { OnTrue result (W.failures writer.new ≡ 0) }
    ensures front { OnFalse result (WrotePrefix (W.taken writer.old) bytes.now (W.taken writer.new)) }
    ensures failed { OnFalse result (0 < W.failures writer.new) }
    ensures grows { Grows (W.taken writer.old) (W.taken writer.new) }
{
    let mut at = 0;
    while at < bytes.len() {
        match writer.write(rest_from(bytes, at)) {
            Writing::Wrote(n) => at += n,
            Writing::Fault => return false,
        }
    }
    true
}
