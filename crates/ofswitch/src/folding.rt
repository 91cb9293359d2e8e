//! Rows in words, on their way to standard output.
ghost use Rattle.std.specs.Prelude.{◌≡◌, None as NotTold};

use of_explain::Folding;
use of_replay::{Ended, Sink, Writing, write_all};
use std::alloc::Global;

/// A sink for rows in words, which get to another one without the many time rows of a log.
#[derive(Drop)]
pub struct Folded<W: Sink + Drop> {
    writer: W,
    folding: Folding,
    failures: u64,
    // whether one of these was for want of memory
    is_out_of_memory: bool,
    ghost well: { failures ≡ 0 → W.failures writer ≡ 0 },
}

impl<W: Sink + Drop> Folded<W> {
    pub fn new(alloc: Global, writer: W) -> Self
        requires { W.failures writer ≡ 0 }
        ensures { result.failures ≡ 0 }
    {
        Folded {
            writer,
            folding: Folding::new(alloc),
            failures: 0,
            is_out_of_memory: false,
        }
    }

    /// Writes what is left of the rows of a run that ended so, and says how it ended then.
    pub fn end(&mut self, ended: Ended) -> Ended {
        if self.is_out_of_memory {
            return Ended::NoMemory;
        }
        if self.failures > 0 {
            return ended;
        }
        match self.folding.end() {
            Ok(rest) => {
                if write_all(&mut self.writer, &rest) {
                    ended
                } else {
                    self.failures = 1;
                    Ended::WriteFault
                }
            }
            Err(_) => Ended::NoMemory,
        }
    }
}

impl<W: Sink + Drop> Sink for Folded<W> {
    ghost taken = { λ _. NotTold };

    ghost failures = { λ s. s.failures };

    fn write(&mut self, bytes: &[u8]) -> Writing {
        if self.failures == 0 {
            match self.folding.pass(bytes) {
                Ok(text) => {
                    if write_all(&mut self.writer, &text) {
                        return Writing::Wrote(bytes.len());
                    }
                }
                Err(_) => self.is_out_of_memory = true,
            }
        }
        self.failures += 1;
        Writing::Fault
    }
}
