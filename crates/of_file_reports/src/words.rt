//! Words of frames and matches that are refused.
use of_frame_words::{Refusal, Why};
use of_import_report::{help_of, reason_of};
use of_ovs_lines::WordFault;
use std::alloc::{AllocError, Global};

// Which values the keyword of a word has, or which may be meant; or nothing.
fn help_with(alloc: Global, refusal: &Refusal) -> Result<Vec<u8>, AllocError> {
    match refusal.why {
        Why::Word(why) => {
            let word = refusal.word.to_vec(alloc)?;
            help_of(alloc, &WordFault { word, why })
        }
        Why::Mask | Why::Impossible => Ok(Vec::new(alloc)),
    }
}

// What helps, behind the reason.
fn say_help(rt: &HostRuntime, help: &[u8]) {
    let help = std::str::from_utf8(help).unwrap_or("?");
    let colon = if help.is_empty() { "" } else { ": " };
    let _ = eprint!(rt; "{colon}{help}");
}

/// Says on standard error which word is refused, why, and what helps.
pub fn say_word(rt: &HostRuntime, what: &str, refusal: &Refusal) {
    let word = std::str::from_utf8(&refusal.word).unwrap_or("?");
    let _ = eprint!(rt; "{what}: {word}: {}", refusal.why);
    if let Ok(help) = help_with(rt.alloc(), refusal) {
        say_help(rt, &help);
    }
    let _ = eprintln!(rt; "");
}

/// Says on standard error which word of a flow or a group is refused, why, and what helps.
pub fn say_fault(rt: &HostRuntime, what: &str, fault: &WordFault) {
    let word = std::str::from_utf8(&fault.word).unwrap_or("?");
    let why = std::str::from_utf8(reason_of(fault)).unwrap_or("?");
    let _ = eprint!(rt; "{what}: {word}: {why}");
    if let Ok(help) = help_of(rt.alloc(), fault) {
        say_help(rt, &help);
    }
    let _ = eprintln!(rt; "");
}
