//! What the calls of a socket or of a file mean.
ghost use Rattle.std.specs.Prelude.{◌≡◌, ◌<◌, ◌≤◌, length, take, IfOk, OnErr};
ghost use Rattle.std.specs.Io.KnownBytes.{Appends, Consumes, IsAtEnd, Keeps};
ghost use Rattle.of_replay.specs.Told.{IsReading, answer_of, answer_bytes};
ghost use Rattle.of_sockets.specs.Calls.{ends_with, is_nobody as nobody_came, read_answer, unopened, write_as};

use of_replay::streams::is_passing;
use of_replay::{Ended, Reading};
use std::fmt::{self, Display, Formatter};
use std::io::{self, ErrorKind, Read, Write};

/// Why a connection ended.
#[derive(Clone, Copy, Debug, PartialEq, Eq)]
pub enum Ending {
    /// The switch closed it.
    BySwitch,
    /// The controller closed it.
    ByController,
    /// A read failed.
    ReadFailed,
    /// A write failed.
    WriteFailed,
    /// A write waited for too long: the controller does not read.
    ReadsNothing,
    /// Its first message was not whole in time.
    NoHello,
    /// Nothing was heard of it for as long as the user allows.
    Idle,
    /// Nothing was heard of it for some time, and another one came.
    GaveWay,
}

impl Display for Ending {
    fn fmt<W: fmt::Write>(&self, f: &mut Formatter<W>) -> fmt::Result {
        f.write_str(match self {
            Ending::BySwitch => "closed by the switch",
            Ending::ByController => "by the controller",
            Ending::ReadFailed => "a read failed",
            Ending::WriteFailed => "a write failed",
            Ending::ReadsNothing => "it reads no answers",
            Ending::NoHello => "no HELLO came within 10 s",
            Ending::Idle => "nothing was heard of it for as long as --idle says",
            Ending::GaveWay => "nothing was heard of it, and another one came",
        })
    }
}

/// What one write to a connection came to.
#[derive(Clone, Copy, PartialEq, Eq)]
pub enum Attempt {
    /// This many bytes, one at least, were taken from the start.
    Took(usize),
    /// It was interrupted, and is made again.
    Again,
    /// The connection ends.
    Failed(Ending),
}

/// Whether an accept that fails so found nobody, or one who was gone again.
pub fn is_nobody(kind: ErrorKind) -> bool
    ensures { result ≡ nobody_came kind }
{
    kind == ErrorKind::ConnectionAborted || is_passing(kind)
}

/// What a read of a connection means: no bytes are the end of its stream.
pub fn reading_of(read: &io::Result<usize>) -> Reading
    ensures { result ≡ read_answer read.now }
{
    match read {
        Ok(0) => Reading::End,
        Ok(n) => Reading::Bytes(*n),
        Err(error) if is_passing(error.kind()) => Reading::Nothing,
        Err(_) => Reading::Fault,
    }
}

/// Why a connection ends with a read that answered so; None where it goes on.
pub fn ending_of(reading: Reading) -> Option<Ending>
    ensures { result ≡ ends_with reading }
{
    match reading {
        Reading::Bytes(_) | Reading::Nothing => None,
        Reading::End => Some(Ending::ByController),
        Reading::Fault => Some(Ending::ReadFailed),
    }
}

/// What a write to a connection means. One that was interrupted is made again; one that waited for too long is that of a
/// controller that reads nothing.
pub fn attempt_of(write: &io::Result<usize>) -> Attempt
    ensures { result ≡ write_as write.now }
{
    match write {
        Ok(0) => Attempt::Failed(Ending::WriteFailed),
        Ok(n) => Attempt::Took(*n),
        Err(error) => match error.kind() {
            ErrorKind::Interrupted => Attempt::Again,
            ErrorKind::WouldBlock | ErrorKind::TimedOut => Attempt::Failed(Ending::ReadsNothing),
            _ => Attempt::Failed(Ending::WriteFailed),
        },
    }
}

/// Reads once, into the start of the buffer.
pub fn read_some<R: Read>(reader: &mut R, buffer: &mut [u8]) -> Reading
    requires { 0 < length buffer.old }
    ensures fits { IsReading result (length buffer.new) }
    ensures bytes { Consumes (R.remaining reader.old) (R.remaining reader.new) (answer_bytes (answer_of result buffer.new)) }
    ensures end { result ≡ Reading.End → IsAtEnd (R.remaining reader.new) }
{
    reading_of(&reader.read(buffer))
}

/// Writes some of the bytes, one at least, from the start, and returns how many were taken; or why the connection ends, and
/// then none was.
pub fn write_some<W: Write>(writer: &mut W, bytes: &[u8]) -> Result<usize, Ending>
    requires { 0 < length bytes.now }
    ensures fits { IfOk result (λ n. (0 < n) × (n ≤ length bytes.now)) }
    ensures taken { IfOk result (λ n. Appends (W.contents writer.old) (W.contents writer.new) (take n bytes.now)) }
    ensures err { OnErr result (Keeps (W.contents writer.old) (W.contents writer.new)) }
{
    for _ in 0..u64::MAX {
        match attempt_of(&writer.write(bytes)) {
            Attempt::Took(n) => return Ok(n),
            Attempt::Again => {}
            Attempt::Failed(ending) => return Err(ending),
        }
    }
    Err(Ending::WriteFailed)
}

/// How a run ends whose file does not open.
pub fn ended_unopened(kind: ErrorKind) -> Ended
    ensures { result ≡ unopened kind }
{
    match kind {
        ErrorKind::OutOfMemory => Ended::NoMemory,
        _ => Ended::ReadFault,
    }
}
