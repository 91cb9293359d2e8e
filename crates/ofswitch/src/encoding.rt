//! The bytes of messages and frames in words.
use of_file_reports::{Screen, say_fault, say_word};
use of_frame_words::{NoFrame, read_frame};
use of_hints::say_refusal;
use of_ovs_text::{NoMessage, message_bytes};
use of_replay::streams::WriterSink;
use of_replay::{Ended, write_all};
use std::alloc::Global;

/// Why no bytes were printed.
#[derive(Drop)]
pub enum NotEncoded {
    /// Words are refused, as standard error says.
    Refused,
    /// As other runs end.
    Ended(Ended),
}

/// The port at which a frame in words is received, which its bytes do not depend on.
const PORT: u32 = 1;

// What is no message of a controller, and what is one.
const KINDS: &str =
    "hello, echo, features, get-config, barrier, flow, group, packet-out, role or set-config; or frame";

fn frame_bytes(rt: &HostRuntime, words: &str) -> Result<Vec<u8>, NotEncoded> {
    match read_frame(rt.alloc(), PORT, words.as_bytes()) {
        Ok(received) => Ok(received.frame),
        Err(NoFrame::NoMemory) => Err(NotEncoded::Ended(Ended::NoMemory)),
        Err(NoFrame::Refused(refusal)) => {
            say_word(rt, "bad frame", &refusal);
            Err(NotEncoded::Refused)
        }
    }
}

// Says on standard error why words are no message.
fn say_no_message(rt: &HostRuntime, words: &str, why: &NoMessage) {
    let (kind, _) = words.split_once(' ').unwrap_or((words, ""));
    match why {
        NoMessage::NoMemory => {}
        NoMessage::Kind => {
            let _ = eprintln!(rt; "bad message: {kind}: a message begins with {}", KINDS);
        }
        NoMessage::Faults(faults) => {
            for fault in faults {
                say_fault(rt, "bad message", fault);
            }
        }
        NoMessage::Refused(code) => {
            let _ = eprintln!(rt; "bad message: type {} code {}", code.kind, code.code);
            say_refusal(rt, *code);
        }
        NoMessage::Word(word) if !word.is_empty() => {
            let word = std::str::from_utf8(word).unwrap_or("?");
            let _ = eprintln!(rt; "bad message: {word}: not a word, or a value, of {kind}");
        }
        NoMessage::Word(_) | NoMessage::Missing => {
            let _ = eprintln!(rt; "bad message: {kind}: a word is missing");
        }
    }
}

fn message_in(rt: &HostRuntime, words: &str, xid: u32) -> Result<Vec<u8>, NotEncoded> {
    let alloc: Global = rt.alloc();
    match message_bytes(alloc, xid, words.as_bytes()) {
        Ok(bytes) => match bytes.as_slice().to_vec(alloc) {
            Ok(bytes) => Ok(bytes),
            Err(_) => Err(NotEncoded::Ended(Ended::NoMemory)),
        },
        Err(NoMessage::NoMemory) => Err(NotEncoded::Ended(Ended::NoMemory)),
        Err(why) => {
            say_no_message(rt, words, &why);
            Err(NotEncoded::Refused)
        }
    }
}

/// Prints the bytes of the message or the frame that words say, in hexadecimal digits.
pub fn encoded(screen: &Screen<'_>, words: &str, xid: u32) -> Result<(), NotEncoded> {
    let rt = screen.rt;
    let bytes = match words.strip_prefix("frame ") {
        Some(frame) => frame_bytes(rt, frame)?,
        None => message_in(rt, words, xid)?,
    };
    let Ok(mut digits) = hex::encode(rt.alloc(), &bytes) else {
        return Err(NotEncoded::Ended(Ended::NoMemory));
    };
    if digits.push('\n').is_err() {
        return Err(NotEncoded::Ended(Ended::NoMemory));
    }
    if write_all(&mut WriterSink::new(screen.report()), digits.as_bytes()) {
        Ok(())
    } else {
        Err(NotEncoded::Ended(Ended::WriteFault))
    }
}
