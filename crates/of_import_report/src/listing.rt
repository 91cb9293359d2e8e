//! Lines that are refused for their words, for standard error.
ghost use Rattle.std.specs.Prelude.{◌≡◌, ◌++◌, IfOk, OnOk};
ghost use Rattle.of_import_report.specs.FaultLines.{behind_colon, refused_word_line, first_words, words_of_refused_line};

use crate::help::{help_of, reason_of};
use of_import::LineFaults;
use of_ovs_lines::WordFault;
use of_values::{push_decimal, push_each, push_printable};
use std::alloc::{AllocError, Global};

fn push_behind_colon(out: &mut Vec<u8>, words: &[u8]) -> Result<(), AllocError>
    ensures { OnOk result (out.new.items ≡ out.old.items ++ behind_colon words.now) }
{
    if words.is_empty() {
        return Ok(());
    }
    out.extend_from_slice(b": ")?;
    out.extend_from_slice(words)
}

// Appends a word of a line, why it is refused, and what helps.
fn push_fault(out: &mut Vec<u8>, line: usize, fault: &WordFault) -> Result<(), AllocError>
    ensures { OnOk result (out.new.items ≡ out.old.items ++ refused_word_line line fault.now) }
{
    out.extend_from_slice(b"line ")?;
    push_decimal(out, line as u128)?;
    out.extend_from_slice(b": ")?;
    push_printable(out, &fault.word)?;
    out.extend_from_slice(b": ")?;
    out.extend_from_slice(reason_of(fault))?;
    let help = help_of(*out.allocator(), fault)?;
    push_behind_colon(out, &help)?;
    out.push(b'\n')?;
    Ok(())
}

fn push_line(out: &mut Vec<u8>, it: &LineFaults) -> Result<(), AllocError>
    ensures { OnOk result (out.new.items ≡ out.old.items ++ words_of_refused_line it.now) }
{
    push_each(
        out,
        &it.faults,
        |out, fault| push_fault(out, it.line, fault),
    )
}

/// The first lines that are refused for their words, so many at most: each word in a line of ASCII, with why it is refused and what helps.
#[tactic(auto, unfolding(crate::specs::FaultLines::first_words))]
pub fn fault_lines(alloc: Global, most: usize, faults: &[LineFaults]) -> Result<Vec<u8>, AllocError>
    ensures { IfOk result (λ text. text.items ≡ first_words most faults.now) }
{
    let mut out = Vec::new(alloc);
    push_each(&mut out, &faults[..most.min(faults.len())], push_line)?;
    Ok(out)
}
