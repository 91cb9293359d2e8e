//! A file that is read whole.
ghost use Rattle.std.specs.Prelude.{◌≡◌, ◌≤◌, ◌<◌, ◌++◌, [], length, OnOk, IfErr};
ghost use Rattle.of_replay.specs.{WholeFiles.ReadsFile, WholeFiles.bad_line as first_bad_line, Stepping.ReadsFail};

use crate::event_file::MOST_READS;
use crate::halt::Halt;
use crate::io::{Reading, Source};
use crate::lexing::is_readable;
use of_text::cut;
use of_wire::front_of;

// Appends these bytes to the file.
fn keep(file: &mut Vec<u8>, part: &[u8]) -> Result<(), Halt>
    ensures kept { OnOk result (file.new.items ≡ file.old.items ++ part.now) }
    ensures memory { IfErr result (λ halt. halt ≡ Halt.Memory) }
{
    file.extend_from_slice(part)?;
    Ok(())
}

/// Reads all bytes of a source.
pub fn read_file<S: Source>(
    reader: &mut S,
    buffer: &mut [u8],
    file: &mut Vec<u8>,
) -> Result<(), Halt>
    requires room { length buffer.old ≡ 65536 }
    requires fresh { S.reads reader.old ≡ 0 }
    requires empty { file.old.items ≡ [] }
    ensures gave { ReadsFile result (S.answers reader.old) (S.answers reader.new) (S.ends reader.old) (S.ends reader.new) file.new.items }
    ensures reads { ReadsFail 1000000 result (S.reads reader.new) (S.ends reader.old) (S.ends reader.new) (S.failures reader.old) (S.failures reader.new) }
    ensures few { S.reads reader.new ≤ 1000000 }
{
    for _ in 0..MOST_READS {
        match reader.read(buffer) {
            Reading::Bytes(n) => keep(file, front_of(buffer, n))?,
            Reading::End => return Ok(()),
            Reading::Fault => return Err(Halt::Read),
            Reading::Nothing => unreachable!(),
        }
    }
    Err(Halt::Read)
}

/// The first line that no file may have, counted from 1.
pub fn bad_line(file: &[u8]) -> Option<u64>
    ensures { result ≡ first_bad_line file.now }
{
    let mut number: u64 = 0;
    let mut rest = file;
    while !rest.is_empty() {
        let (line, after) = cut(rest, b'\n');
        rest = after;
        number += 1;
        if !is_readable(line) {
            return Some(number);
        }
    }
    None
}
