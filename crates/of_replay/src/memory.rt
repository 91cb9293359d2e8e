//! Sources and sinks in memory, whose reads and writes can be made to fail.
ghost use Rattle.std.specs.Prelude.{◌≡◌, ◌≢◌, ◌+◌, ◌-◌, ◌<◌, ◌≤◌, ◌^◌, ◌++◌, ◌∷◌, ◌↔◌, ℕ, [], Some, IsTrue, length, take, drop, min, vec_len, vec_capacity, IfOk};
ghost use Rattle.std.specs.List.{sum};

use crate::io::{Reading, Sink, Source, Writing};
use std::alloc::{AllocError, Global};

/// A source over bytes in memory, which keeps what its reads answered.
///
/// Its reads give the bytes in chunks, and then each read is `End`. From a chosen read on each read is `Fault`.
#[derive(Drop)]
pub struct MemorySource {
    bytes: Vec<u8>,
    /// How many bytes were given.
    at: usize,
    /// How many bytes a read gives at most.
    chunk: usize,
    /// The first read that fails, counted from 1; 0: none.
    fails_at: u64,
    /// The lengths of the chunks that were given.
    lengths: Vec<usize>,
    ends: u64,
    failures: u64,
    ghost within: { at ≤ length bytes.items },
    ghost some: { 0 < chunk },
    ghost place: { at ≡ sum lengths.items },
    ghost count: { vec_len lengths ≤ at },
    ghost room: { length bytes.items ≤ vec_capacity lengths },
    ghost ended: { at < length bytes.items → ends ≡ 0 },
    ghost failing: { 0 < failures → (0 < fails_at) × (fails_at ≤ vec_len lengths + ends + failures) },
}

impl MemorySource {
    ghost use Rattle.of_replay.specs.{Told.Gave, Memory.source_answers, Memory.reads_of, Memory.CallFails};

    /// A source of these bytes, in chunks of `chunk` bytes at most. From the read `fails_at` on, counted from 1, each
    /// read fails; 0: none does. Fails only where memory runs out.
    pub fn new(
        alloc: Global,
        bytes: &[u8],
        chunk: usize,
        fails_at: u64,
    ) -> Result<MemorySource, AllocError>
        requires { 0 < chunk }
        ensures bytes { IfOk result (λ s. s.bytes.items ≡ bytes.now) }
        ensures settings { IfOk result (λ s. (s.chunk ≡ chunk) × (s.fails_at ≡ fails_at)) }
        ensures told { IfOk result (λ s. source_answers s ≡ []) }
        ensures counts { IfOk result (λ s. (s.at ≡ 0) × (reads_of s ≡ 0) × (s.ends ≡ 0) × (s.failures ≡ 0)) }
    {
        Ok(MemorySource {
            bytes: Vec::from_slice(alloc, bytes)?,
            at: 0,
            chunk,
            fails_at,
            lengths: Vec::with_capacity(alloc, bytes.len())?,
            ends: 0,
            failures: 0,
        })
    }

    /// Whether the next read fails.
    fn fails_now(&self) -> bool
        requires { reads_of self.now < 2 ^ 63 }
        ensures { IsTrue result ↔ CallFails self.now.fails_at (reads_of self.now + 1) }
    {
        let reads = self.lengths.len() as u64 + self.ends + self.failures;
        self.fails_at != 0 && self.fails_at <= reads + 1
    }

    /// Gives the next chunk, and returns its length.
    fn give(&mut self, buffer: &mut [u8]) -> usize
        requires room { 0 < length buffer.old }
        requires left { self.old.at < length self.old.bytes.items }
        requires well { self.old.failures ≡ 0 }
        ensures chunk { result ≡ min self.old.chunk (min (length buffer.old) (length self.old.bytes.items - self.old.at)) }
        ensures told { source_answers self.new ≡ source_answers self.old ++ Gave (take result buffer.new) ∷ [] }
        ensures reads { reads_of self.new ≡ reads_of self.old + 1 }
        ensures ends { self.new.ends ≡ self.old.ends }
        ensures failures { self.new.failures ≡ self.old.failures }
        ensures at { self.new.at ≡ self.old.at + result }
        ensures same { (self.new.bytes.items ≡ self.old.bytes.items) × (self.new.chunk ≡ self.old.chunk) × (self.new.fails_at ≡ self.old.fails_at) }
    {
        let left = self.bytes.len() - self.at;
        let count = self.chunk.min(buffer.len().min(left));
        let end = self.at + count;
        buffer[..count].copy_from_slice(&self.bytes[self.at..end]);
        match self.lengths.push(count) {
            Ok(()) => {}
            Err(_) => unreachable!(),
        }
        self.at = end;
        count
    }
}

impl Source for MemorySource {
    ghost use Rattle.of_replay.specs.Told.{Told, answer_of, read_count, read_ends, read_faults, IsReading, given};
    ghost use Rattle.of_replay.specs.Memory.{source_answers, reads_of, IsNext};

    ghost answers = { λ s. Told (source_answers s) };

    ghost reads = { reads_of };

    ghost ends = { λ s. s.ends };

    ghost failures = { λ s. s.failures };

    /// Reads bytes into the start of the buffer: a chunk of what is left, or as much of it as fits.
    fn read(&mut self, buffer: &mut [u8]) -> Reading
        requires room { 0 < length buffer.old }
        requires few { reads_of self.old < 2 ^ 63 }
        ensures fits { IsReading result (length buffer.new) }
        ensures waits { result ≢ Reading.Nothing }
        ensures answers { source_answers self.new ≡ source_answers self.old ++ answer_of result buffer.new ∷ [] }
        ensures reads { reads_of self.new ≡ reads_of self.old + 1 }
        ensures ends { self.new.ends ≡ self.old.ends + read_ends result }
        ensures failures { self.new.failures ≡ self.old.failures + read_faults result }
        ensures next { IsNext self.old (length buffer.old) result }
        ensures at { self.new.at ≡ self.old.at + read_count result }
        ensures given { given (source_answers self.new) ≡ take self.new.at self.new.bytes.items }
        ensures same { (self.new.bytes.items ≡ self.old.bytes.items) × (self.new.chunk ≡ self.old.chunk) × (self.new.fails_at ≡ self.old.fails_at) }
    {
        if self.fails_now() {
            self.failures += 1;
            return Reading::Fault;
        }
        if self.at == self.bytes.len() {
            self.ends += 1;
            return Reading::End;
        }
        Reading::Bytes(self.give(buffer))
    }
}

/// A sink into memory.
///
/// A write takes some bytes from the start. From a chosen write on each write is `Fault`, and so is a write for which
/// there is no memory: nothing of it is taken.
#[derive(Drop)]
pub struct MemorySink {
    bytes: Vec<u8>,
    /// How many bytes a write takes at most.
    chunk: usize,
    /// The first write that fails, counted from 1; 0: none.
    fails_at: u64,
    /// How many writes there were, or the greatest number where there were more.
    writes: u64,
    failures: u64,
    ghost some: { 0 < chunk },
}

impl MemorySink {
    /// A sink that has taken nothing, and takes `chunk` bytes a write at most. From the write `fails_at` on, counted
    /// from 1, each write fails; 0: none does.
    pub fn new(alloc: Global, chunk: usize, fails_at: u64) -> MemorySink
        requires { 0 < chunk }
        ensures bytes { result.bytes.items ≡ [] }
        ensures settings { (result.chunk ≡ chunk) × (result.fails_at ≡ fails_at) }
        ensures counts { (result.writes ≡ 0) × (result.failures ≡ 0) }
    {
        MemorySink {
            bytes: Vec::new(alloc),
            chunk,
            fails_at,
            writes: 0,
            failures: 0,
        }
    }

    /// The bytes that were taken.
    pub fn bytes(&self) -> &[u8]
        ensures { result.now ≡ self.now.bytes.items }
    {
        &self.bytes
    }
}

impl Sink for MemorySink {
    ghost use Rattle.of_replay.specs.{Told.write_count, Told.write_faults, Told.IsWriting, Memory.IsTaking};

    ghost taken = { λ s. Some s.bytes.items };

    ghost failures = { λ s. s.failures };

    /// Takes the first bytes, as many as a write takes.
    fn write(&mut self, bytes: &[u8]) -> Writing
        requires some { 0 < length bytes.now }
        requires few { self.old.failures < 2 ^ 63 }
        ensures fits { IsWriting result (length bytes.now) }
        ensures taken { self.new.bytes.items ≡ self.old.bytes.items ++ take (write_count result) bytes.now }
        ensures failures { self.new.failures ≡ self.old.failures + write_faults result }
        ensures next { IsTaking self.old (length bytes.now) result }
        ensures writes { self.new.writes ≡ min (self.old.writes + 1) u64.MAX }
        ensures same { (self.new.chunk ≡ self.old.chunk) × (self.new.fails_at ≡ self.old.fails_at) }
    {
        self.writes = self.writes.saturating_add(1);
        let count = self.chunk.min(bytes.len());
        let fails = self.fails_at != 0 && self.fails_at <= self.writes;
        if fails || self.bytes.extend_from_slice(&bytes[..count]).is_err() {
            self.failures += 1;
            return Writing::Fault;
        }
        Writing::Wrote(count)
    }
}
