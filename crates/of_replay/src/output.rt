//! The lines that are printed, and their way to a sink.
ghost use Rattle.std.specs.Prelude.{◌≡◌, ◌++◌, ◌<◌, ◌≤◌, ◌↔◌, [], IfErr, IsTrue, OnOk, OnErr, decimal, length};
ghost use Rattle.std.specs.Io.KnownBytes.{Appends};
ghost use Rattle.of_replay.specs.{Transfer.Grows, Transfer.WrotePrefix, Output.line_of, Output.refused_line, Output.text_of, Stepping.PrintsReport};

use crate::halt::Halt;
use crate::io::Sink;
use crate::transfer::write_all;
use of_build::push_hex;
use of_switch::{Effect, Effects, SwitchError};
use std::alloc::{AllocError, Global};
use std::marker::Model;

/// What is printed is written in parts of at least this many bytes.
const PART: usize = 65_536;

/// Appends a number in decimal.
fn push_number(alloc: Global, out: &mut Vec<u8>, number: u32) -> Result<(), AllocError>
    ensures { OnOk result (out.new.items ≡ out.old.items ++ decimal number) }
{
    let text = number.to_string(alloc)?;
    out.extend_from_slice(text.as_bytes())
}

/// Appends the line of an effect.
fn push_effect(alloc: Global, out: &mut Vec<u8>, effect: &Effect) -> Result<(), AllocError>
    ensures { OnOk result (out.new.items ≡ out.old.items ++ line_of effect.now) }
{
    match effect {
        Effect::Answer(bytes) => {
            out.extend_from_slice(b"a ")?;
            push_hex(alloc, out, bytes.as_slice())?;
            out.push(b'\n')?;
        }
        Effect::Sent { port, frame } => {
            out.extend_from_slice(b"s ")?;
            push_number(alloc, out, *port)?;
            out.push(b' ')?;
            push_hex(alloc, out, frame.as_slice())?;
            out.push(b'\n')?;
        }
        Effect::Closed => out.extend_from_slice(b"closed\n")?,
    }
    Ok(())
}

/// Appends the lines of effects, as an event file's output has them: `a HEX`, `s PORT HEX`, `closed`.
pub fn push_effects(alloc: Global, out: &mut Vec<u8>, effects: &[Effect]) -> Result<(), AllocError>
    ensures { OnOk result (out.new.items ≡ out.old.items ++ text_of effects.now) }
{
    for effect in effects {
        push_effect(alloc, out, effect)?;
    }
    Ok(())
}

/// Appends the line of a refused call.
fn push_refusal(alloc: Global, out: &mut Vec<u8>, refusal: SwitchError) -> Result<(), AllocError>
    ensures { OnOk result (out.new.items ≡ out.old.items ++ refused_line refusal) }
{
    out.extend_from_slice(b"refused ")?;
    push_number(alloc, out, refusal.number())?;
    out.push(b'\n')?;
    Ok(())
}

/// Appends the report of a call. Where memory ran out there is none.
pub fn push_report(
    alloc: Global,
    out: &mut Vec<u8>,
    called: Result<Effects, SwitchError>,
) -> Result<(), SwitchError>
    ensures { PrintsReport called result out.old.items out.new.items }
{
    match called {
        Ok(effects) => Ok(push_effects(alloc, out, &effects)?),
        Err(SwitchError::NoMemory) => Err(SwitchError::NoMemory),
        Err(refusal) => Ok(push_refusal(alloc, out, refusal)?),
    }
}

/// What is printed and not written yet.
#[derive(Drop)]
pub struct Printer {
    out: Vec<u8>,
}

impl Model for Printer {
    ghost use Rattle.std.specs.Prelude.{ℕ, List};

    ghost Value = { List ℕ };

    ghost view = { λ p. p.out.items };
}

impl Printer {
    pub fn new(alloc: Global) -> Self
        ensures { result ≡ [] }
    {
        Printer {
            out: Vec::new(alloc),
        }
    }

    /// Prints a text, all of it or nothing.
    pub fn print(&mut self, text: &[u8]) -> Result<(), AllocError>
        ensures ok { OnOk result (self.new ≡ self.old ++ text.now) }
        ensures err { OnErr result (self.new ≡ self.old) }
    {
        self.out.extend_from_slice(text)
    }

    /// Whether there is a part that is large enough to be written.
    pub fn has_part(&self) -> bool
        ensures { IsTrue result ↔ 65536 ≤ length self.now }
    {
        self.out.len() >= PART
    }

    /// Writes all.
    pub fn flush<W: Sink>(&mut self, writer: &mut W) -> Result<(), Halt>
        requires { W.failures writer.old ≡ 0 }
        ensures before { W.failures writer.old ≡ 0 }
        ensures all { OnOk result (Appends (W.taken writer.old) (W.taken writer.new) self.old × (self.new ≡ [])) }
        ensures well { OnOk result (W.failures writer.new ≡ 0) }
        ensures front { OnErr result (WrotePrefix (W.taken writer.old) self.old (W.taken writer.new)) }
        ensures failed { OnErr result (0 < W.failures writer.new) }
        ensures write { IfErr result (λ halt. halt ≡ Halt.Write) }
        ensures grows { Grows (W.taken writer.old) (W.taken writer.new) }
    {
        if !write_all(writer, &self.out) {
            return Err(Halt::Write);
        }
        self.out.clear();
        Ok(())
    }
}
