//! Rows as they are read, played on a switch, and what is printed for them.
ghost use Rattle.std.specs.Prelude.{◌≡◌, ◌+◌, ◌<◌, ◌≤◌, ◌^◌, ◌++◌, ◌≢◌, ℕ, List, [], Option, IfErr, OnOk, length, take, position, ◌==◌};
ghost use Rattle.of_switch.specs.State.{State};
ghost use Rattle.of_replay.specs.Told.{Answers, NoneLeft, answer_of, read_ends, read_faults, IsReading};
ghost use Rattle.of_replay.specs.Stepping.{LineTells, LineGoes, Within, ChunkGoes, PlayedAll, PlaysRead, WritesFail, ReadsFail, ended_so};
ghost use Rattle.of_replay.specs.{Rows.row_of_line, Play.PrintsLines, Play.WrittenEarly, Transfer.Grows, RowTexts.told};

use crate::halt::Halt;
use crate::io::{Reading, Sink, Source};
use crate::open_line::OpenLine;
use crate::output::Printer;
use crate::rows::read_row;
use crate::telling::RowPrinter;
use of_classifier::Lookup;
use of_switch::Switch;
use of_wire::{front_of, rest_from};
use std::alloc::Global;

/// A run of a file's rows, which are played as they are read: of the file, only the line that has begun is kept.
#[derive(Drop)]
pub struct Replaying<L: Lookup> {
    open: OpenLine,
    // the number of the open line, from 1
    number: u64,
    // the bytes of a row
    bytes: Vec<u8>,
    switch: Switch<L>,
    // the text of a row
    text: Vec<u8>,
    printer: Printer,
    alloc: Global,
}

fn line_len(bytes: &[u8]) -> Option<usize>
    ensures { result ≡ position (λ b. b == 10) bytes.now }
{
    bytes.iter().position(|b| *b == b'\n')
}

impl<L: Lookup> Replaying<L> {
    /// A run on a new switch, at the first line.
    pub fn new(alloc: Global, switch: Switch<L>) -> Self
        ensures { (result.open ≡ []) × (result.number ≡ 1) × (result.switch ≡ switch) × (result.printer ≡ []) }
    {
        Replaying {
            open: OpenLine::new(alloc),
            number: 1,
            bytes: Vec::new(alloc),
            switch,
            text: Vec::new(alloc),
            printer: Printer::new(alloc),
            alloc,
        }
    }

    /// The switch, after the lines that were played.
    pub fn into_switch(self) -> Switch<L>
        ensures { result ≡ self.switch }
    {
        self.switch
    }

    // Plays the open line, and prints its text.
    fn tell<T: RowPrinter<L>>(&mut self, teller: &T) -> Result<(), Halt>
        ensures tells { LineTells T.tale result self.old.number self.old.open (row_of_line self.old.open) self.old.switch self.new.switch self.old.printer
            self.new.printer }
        ensures number { self.new.number ≡ self.old.number }
    {
        let Some(row) = read_row(self.open.bytes(), &mut self.bytes)? else {
            return Err(Halt::Bad(self.number));
        };
        self.text.clear();
        let told = teller.tell(
            self.alloc,
            &mut self.switch,
            self.number,
            self.open.bytes(),
            row,
            &self.bytes,
            &mut self.text,
        );
        if told.is_err() {
            return Err(Halt::Memory);
        }
        self.printer.print(&self.text)?;
        Ok(())
    }

    // Plays the open line, and begins another.
    #[tactic(auto, using(crate::proofs::Early::grows_none))]
    fn line<T: RowPrinter<L>, W: Sink>(&mut self, teller: &T, writer: &mut W) -> Result<(), Halt>
        requires few { self.old.number < 2 ^ 63 }
        requires well { W.failures writer.old ≡ 0 }
        ensures goes { LineGoes T.tale result self.old.number self.old.open (row_of_line self.old.open) self.old.switch self.new.switch self.old.printer
            self.new.printer (W.taken writer.old) (W.taken writer.new) }
        ensures open { OnOk result (self.new.open ≡ []) }
        ensures number { OnOk result (self.new.number ≡ self.old.number + 1) }
        ensures waits { OnOk result (length self.new.printer < 65536) }
        ensures writes { WritesFail result (W.failures writer.new) }
        ensures grows { Grows (W.taken writer.old) (W.taken writer.new) }
    {
        self.tell(teller)?;
        if self.printer.has_part() {
            self.printer.flush(writer)?;
        }
        self.open.clear();
        self.number += 1;
        Ok(())
    }

    // Appends these bytes to the open line.
    fn keep(&mut self, part: &[u8]) -> Result<(), Halt>
        ensures open { OnOk result (self.new.open ≡ take 1048577 (self.old.open ++ part.now)) }
        ensures memory { IfErr result (λ halt. halt ≡ Halt.Memory) }
        ensures kept { (self.new.number ≡ self.old.number) × (self.new.switch ≡ self.old.switch) × (self.new.printer ≡ self.old.printer) }
    {
        self.open.extend(part)?;
        Ok(())
    }

    // Bytes are read: plays the lines that they end. Their text is written, or still to be written.
    fn play_chunk<T: RowPrinter<L>, W: Sink>(
        &mut self,
        teller: &T,
        chunk: &[u8],
        writer: &mut W,
    ) -> Result<(), Halt>
        requires few { self.old.number + length chunk.now < 2 ^ 63 }
        requires well { W.failures writer.old ≡ 0 }
        ensures goes { (begun : State) (bytes : List ℕ) (first : Option (List ℕ)) →
            Within begun T.tale bytes [] self.old.open self.old.number self.old.switch self.old.printer first (W.taken writer.old)
            → ChunkGoes begun T.tale result bytes (bytes ++ chunk.now) self.new.open self.new.number self.new.switch self.new.printer first
            (W.taken writer.new) }
        ensures number { OnOk result (self.new.number ≤ self.old.number + length chunk.now) }
        ensures writes { WritesFail result (W.failures writer.new) }
        ensures grows { Grows (W.taken writer.old) (W.taken writer.new) }
    {
        let mut at = 0;
        loop {
            let rest = rest_from(chunk, at);
            let Some(len) = line_len(rest) else {
                return self.keep(rest);
            };
            self.keep(front_of(rest, len))?;
            self.line(teller, writer)?;
            at += len + 1;
        }
    }

    // Bytes are read: plays the lines that they end, and writes all that is still to be written, so that nothing waits for
    // the next read.
    fn chunk<T: RowPrinter<L>, W: Sink>(
        &mut self,
        teller: &T,
        chunk: &[u8],
        writer: &mut W,
    ) -> Result<(), Halt>
        requires few { self.old.number + length chunk.now < 2 ^ 63 }
        requires well { W.failures writer.old ≡ 0 }
        ensures goes { (begun : State) (bytes : List ℕ) (first : Option (List ℕ)) →
            Within begun T.tale bytes [] self.old.open self.old.number self.old.switch self.old.printer first (W.taken writer.old)
            → ChunkGoes begun T.tale result bytes (bytes ++ chunk.now) self.new.open self.new.number self.new.switch self.new.printer first
            (W.taken writer.new) }
        ensures number { OnOk result (self.new.number ≤ self.old.number + length chunk.now) }
        ensures written { OnOk result (self.new.printer ≡ []) }
        ensures writes { WritesFail result (W.failures writer.new) }
        ensures grows { Grows (W.taken writer.old) (W.taken writer.new) }
    {
        self.play_chunk(teller, chunk, writer)?;
        self.printer.flush(writer)
    }

    // Reads once, which may wait: so all that was printed is written.
    fn read_once<S: Source>(&self, reader: &mut S, buffer: &mut [u8]) -> Reading
        requires written { self.now.printer ≡ [] }
        requires room { length buffer.old ≡ 65536 }
        requires few { S.reads reader.old < 2 ^ 63 }
        ensures fits { IsReading result (length buffer.new) }
        ensures waits { result ≢ Reading.Nothing }
        ensures answers { Answers (S.answers reader.old) (S.answers reader.new) (answer_of result buffer.new) }
        ensures end { result ≡ Reading.End → NoneLeft (S.answers reader.new) }
        ensures reads { S.reads reader.new ≡ S.reads reader.old + 1 }
        ensures ends { S.ends reader.new ≡ S.ends reader.old + read_ends result }
        ensures failures { S.failures reader.new ≡ S.failures reader.old + read_faults result }
    {
        reader.read(buffer)
    }

    // Plays the lines of a source as they are read, at most so many times. The text of the last line is still to be written.
    fn read<T: RowPrinter<L>, S: Source, W: Sink>(
        &mut self,
        teller: &T,
        most: u32,
        reader: &mut S,
        buffer: &mut [u8],
        writer: &mut W,
    ) -> Result<(), Halt>
        requires room { length buffer.old ≡ 65536 }
        requires fresh { S.reads reader.old ≡ 0 }
        requires well { W.failures writer.old ≡ 0 }
        requires start { (self.old.open ≡ []) × (self.old.number ≡ 1) × (self.old.printer ≡ []) }
        ensures played { OnOk result (PlayedAll self.old.switch (S.answers reader.old) (S.answers reader.new) self.new.switch) }
        ensures plays { PlaysRead self.old.switch T.tale result (S.answers reader.old) (S.answers reader.new) (S.ends reader.old) (S.ends reader.new)
            self.new.printer (W.taken writer.old) (W.taken writer.new) }
        ensures reads { ReadsFail most result (S.reads reader.new) (S.ends reader.old) (S.ends reader.new) (S.failures reader.old) (S.failures reader.new) }
        ensures few { S.reads reader.new ≤ most }
        ensures writes { WritesFail result (W.failures writer.new) }
        ensures early { WrittenEarly (told self.old.switch T.tale) (S.answers reader.old) (S.answers reader.new) (W.taken writer.old) (W.taken writer.new) }
    {
        for _ in 0..most {
            match self.read_once(reader, buffer) {
                Reading::Bytes(n) => self.chunk(teller, front_of(buffer, n), writer)?,
                Reading::End => return self.line(teller, writer),
                Reading::Fault => return Err(Halt::Read),
                Reading::Nothing => unreachable!(),
            }
        }
        Err(Halt::Read)
    }

    /// Plays the lines of a source as they are read, at most so many times, and writes what the teller says of them.
    pub fn play<T: RowPrinter<L>, S: Source, W: Sink>(
        &mut self,
        teller: &T,
        most: u32,
        reader: &mut S,
        buffer: &mut [u8],
        writer: &mut W,
    ) -> Result<(), Halt>
        requires room { length buffer.old ≡ 65536 }
        requires fresh { S.reads reader.old ≡ 0 }
        requires well { W.failures writer.old ≡ 0 }
        requires start { (self.old.open ≡ []) × (self.old.number ≡ 1) × (self.old.printer ≡ []) }
        ensures played { OnOk result (PlayedAll self.old.switch (S.answers reader.old) (S.answers reader.new) self.new.switch) }
        ensures plays { PrintsLines (told self.old.switch T.tale) (ended_so result) (S.answers reader.old) (S.answers reader.new) (S.ends reader.old)
            (S.ends reader.new) (W.taken writer.old) (W.taken writer.new) }
        ensures reads { ReadsFail most result (S.reads reader.new) (S.ends reader.old) (S.ends reader.new) (S.failures reader.old) (S.failures reader.new) }
        ensures few { S.reads reader.new ≤ most }
        ensures writes { WritesFail result (W.failures writer.new) }
        ensures early { WrittenEarly (told self.old.switch T.tale) (S.answers reader.old) (S.answers reader.new) (W.taken writer.old) (W.taken writer.new) }
    {
        let played = self.read(teller, most, reader, buffer, writer);
        if let Err(Halt::Write) = played {
            return played;
        }
        self.printer.flush(writer)?;
        played
    }
}
