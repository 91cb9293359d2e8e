//! What is wrong with a file, as a JSON document (docs/JSON.md).
use crate::contents::NoFile;
use crate::screen::Screen;
use of_import::{ImportError, LineFaults, LineRefusal};
use of_import_report::{help_of, reason_of};
use of_json::{push_document_head, push_key, push_number_member, push_string, push_string_member};
use of_replay::streams::WriterSink;
use of_replay::{Ended, write_all};
use of_require::Refusal;
use of_text::TextFault;
use std::alloc::{AllocError, Global};

/// What is wrong with a file, as far as it is known: the line, counted from 1, the word there, and why.
#[derive(Drop)]
pub struct Fault {
    line: Option<usize>,
    word: Option<Vec<u8>>,
    why: String,
    // which values a keyword has, or which may be meant; or nothing
    help: String,
}

fn text_of(alloc: Global, bytes: &[u8]) -> Result<String, AllocError> {
    std::str::from_utf8(bytes).unwrap_or("?").to_string(alloc)
}

// A word that is refused, the first of a line.
fn word_fault(alloc: Global, of: &LineFaults) -> Result<Option<Fault>, AllocError> {
    let Some(first) = of.faults.first() else {
        return Ok(None);
    };
    Ok(Some(Fault {
        line: Some(of.line),
        word: Some(first.word.to_vec(alloc)?),
        why: text_of(alloc, reason_of(first))?,
        help: text_of(alloc, &help_of(alloc, first)?)?,
    }))
}

// A line that the switch refuses.
fn refusal_fault(alloc: Global, of: &LineRefusal) -> Result<Fault, AllocError> {
    Ok(Fault {
        line: Some(of.line),
        word: None,
        why: format!(in alloc; "type {} code {}", of.code.kind, of.code.code)?,
        help: String::new(alloc),
    })
}

/// What is wrong with what ovs-ofctl prints: its first word that is refused, or else its first line. None for what other runs end with, too.
pub fn import_fault(alloc: Global, error: &ImportError) -> Result<Option<Fault>, AllocError> {
    match error {
        ImportError::Faults(faults, refused) => match (faults.first(), refused.first()) {
            (Some(first), _) => word_fault(alloc, first),
            (None, Some(first)) => Ok(Some(refusal_fault(alloc, first)?)),
            (None, None) => Ok(None),
        },
        ImportError::TooMany(count) => Ok(Some(Fault {
            line: None,
            word: None,
            why: format!(in alloc; "{count} tables: this switch has 16")?,
            help: String::new(alloc),
        })),
        ImportError::NoMemory | ImportError::Refused { .. } => Ok(None),
    }
}

/// What is wrong with a requirement.
pub fn requirement_fault(
    alloc: Global,
    line: usize,
    refusal: Refusal,
) -> Result<Fault, AllocError> {
    Ok(Fault {
        line: Some(line),
        why: format!(in alloc; "{}", refusal.why)?,
        word: Some(refusal.word),
        help: String::new(alloc),
    })
}

// How a run over a file ended, if the file is why.
fn ended_fault(alloc: Global, ended: &Ended) -> Result<Option<Fault>, AllocError> {
    let (line, why) = match ended {
        Ended::BadRow(line) => (usize::try_from(*line).ok(), format!(in alloc; "bad row")?),
        Ended::Text(TextFault::Syntax(line)) => (Some(*line), format!(in alloc; "syntax")?),
        Ended::Text(TextFault::Refused { line, code }) => (
            Some(*line),
            format!(in alloc; "type {} code {}", code.kind, code.code)?,
        ),
        Ended::ReadFault => (None, format!(in alloc; "read fault")?),
        Ended::Text(TextFault::NoMemory) | Ended::Done | Ended::WriteFault | Ended::NoMemory => {
            return Ok(None);
        }
    };
    Ok(Some(Fault {
        line,
        word: None,
        why,
        help: String::new(alloc),
    }))
}

// Appends the document on a file that a command was given.
fn push_document(
    out: &mut Vec<u8>,
    command: &[u8],
    path: &str,
    fault: &Fault,
) -> Result<(), AllocError> {
    out.push(b'{')?;
    push_document_head(out, command)?;
    out.extend_from_slice(b",\"error\":{")?;
    push_key(out, b"file")?;
    push_string(out, path.as_bytes())?;
    if let Some(line) = fault.line {
        push_number_member(out, b"line", line as u128)?;
    }
    if let Some(word) = &fault.word {
        push_string_member(out, b"word", word)?;
    }
    push_string_member(out, b"why", fault.why.as_bytes())?;
    if !fault.help.is_empty() {
        push_string_member(out, b"help", fault.help.as_bytes())?;
    }
    out.extend_from_slice(b"}}\n")
}

// The document on why a file describes no switch; None if the file is not why.
fn document_on(
    alloc: Global,
    command: &[u8],
    path: &str,
    why: &NoFile,
) -> Result<Option<Vec<u8>>, AllocError> {
    let other = match why {
        NoFile::Unopened(error) => Some(Fault {
            line: None,
            word: None,
            why: format!(in alloc; "cannot open: {error}")?,
            help: String::new(alloc),
        }),
        NoFile::Ended { ended, .. } => ended_fault(alloc, ended)?,
        NoFile::Faults(_) | NoFile::BadOption => None,
    };
    let fault = match (why, &other) {
        (NoFile::Faults(Some(fault)), _) | (_, Some(fault)) => fault,
        _ => return Ok(None),
    };
    let mut out = Vec::new(alloc);
    push_document(&mut out, command, path, fault)?;
    Ok(Some(out))
}

/// Prints why a file describes no switch, as a document. False: it could not be written.
pub fn print_fault(screen: &Screen<'_>, command: &[u8], path: &str, why: &NoFile) -> bool {
    match document_on(screen.rt.alloc(), command, path, why) {
        Ok(Some(text)) => write_all(&mut WriterSink::new(screen.report()), &text),
        Ok(None) | Err(_) => true,
    }
}
