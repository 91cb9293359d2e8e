//! Where bytes come from and go to.
ghost use Rattle.std.specs.Prelude.{◌≡◌, ◌≢◌, ◌+◌, ◌<◌, ◌≤◌, ◌^◌, ℕ, List, Option, length, take};
ghost use Rattle.std.specs.Io.KnownBytes.{Appends};
ghost use Rattle.of_replay.specs.Told.{Answers, Known, NoneLeft, answer_of, read_count, read_ends, read_faults, write_count, write_faults, IsReading, IsWriting};

/// What a read answered.
#[derive(Clone, Copy, Debug, PartialEq, Eq)]
pub enum Reading {
    /// This many bytes, one at least, at the start of the buffer.
    Bytes(usize),
    /// No bytes this time. A [`Source`] waits instead.
    Nothing,
    /// There are no more bytes.
    End,
    /// The read failed.
    Fault,
}

/// What a write answered.
#[derive(Clone, Copy, Debug, PartialEq, Eq)]
pub enum Writing {
    /// This many bytes, one at least, were taken from the start.
    Wrote(usize),
    /// The write failed, or took nothing.
    Fault,
}

/// Where bytes come from.
pub trait Source {
    /// What its reads answered, in order, where it records that; else the bytes that it has left, where those are known.
    ghost answers: { Self → Known };

    /// How many reads there were, how many of them found the end, and how many failed.
    ghost reads: { Self → ℕ };

    ghost ends: { Self → ℕ };

    ghost failures: { Self → ℕ };

    /// Reads bytes into the start of the buffer, which has room for 65,536 at each read. Waits until there are some, or the end.
    fn read(&mut self, buffer: &mut [u8]) -> Reading
        requires room { length buffer.old ≡ 65536 }
        requires few { reads self.old < 2 ^ 63 }
        ensures fits { IsReading result (length buffer.new) }
        ensures waits { result ≢ Reading.Nothing }
        ensures answers { Answers (answers self.old) (answers self.new) (answer_of result buffer.new) }
        ensures end { result ≡ Reading.End → NoneLeft (answers self.new) }
        ensures reads { reads self.new ≡ reads self.old + 1 }
        ensures ends { ends self.new ≡ ends self.old + read_ends result }
        ensures failures { failures self.new ≡ failures self.old + read_faults result };
}

/// Where bytes go to.
pub trait Sink {
    /// The bytes that its writes took, in order, behind those that it held before, where they are known.
    ghost taken: { Self → Option (List ℕ) };

    /// How many writes failed.
    ghost failures: { Self → ℕ };

    /// Writes some of the bytes, from the start.
    fn write(&mut self, bytes: &[u8]) -> Writing
        requires some { 0 < length bytes.now }
        requires few { failures self.old < 2 ^ 63 }
        ensures fits { IsWriting result (length bytes.now) }
        ensures taken { Appends (taken self.old) (taken self.new) (take (write_count result) bytes.now) }
        ensures failures { failures self.new ≡ failures self.old + write_faults result };
}
