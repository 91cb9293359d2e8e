//! Frames on the command line, and the ports at which they are received.

use crate::{FileKind, LAST_PORT, NoRequest, number_in, refused};
use of_frame_words::{NoFrame, Received, is_frame_words, read_frame};
use of_wire::limits::OFPP_MAX;
use std::alloc::Global;

/// What a trace without a frame lacks.
pub(crate) const NO_FRAME: &str =
    "no frame: write it behind the file, in words or as hexadecimal digits with --port
  ofswitch trace FILE in_port=1,dl_dst=02:00:00:00:00:a1,ip,nw_dst=10.1.1.9
  ofswitch trace FILE --port 1 0200000000a1020000000001
";

/// What a trace with a frame alone lacks.
pub(crate) const NO_FILE: &str = "no file: write it in front of the frame
  ofswitch trace FILE in_port=1,dl_dst=02:00:00:00:00:a1,ip,nw_dst=10.1.1.9
";

/// How a port is given.
const PORT_WORDS: &str = "the port is --port N, or in_port=N in the words of the frame";

/// A port that frames are traced from.
pub(crate) fn port_of(
    alloc: Global,
    kind: FileKind,
    number: Option<u32>,
) -> Result<u32, NoRequest> {
    let last = if kind == FileKind::Flows {
        LAST_PORT
    } else {
        OFPP_MAX
    };
    match number {
        Some(port) if port >= 1 && port <= last => Ok(port),
        _ => Err(NoRequest::Refused(format!(in alloc; "bad port: a number from 1 to {last}\n")?)),
    }
}

// A port that frames are traced from, which has to be given.
fn given_port_of(alloc: Global, kind: FileKind, port: Option<&str>) -> Result<u32, NoRequest> {
    match (port_of(alloc, kind, number_in(port.unwrap_or(""))), port) {
        (Err(NoRequest::Refused(why)), None) => Err(NoRequest::Refused(format!(in alloc;
            "{why}{}\n",
            PORT_WORDS
        )?)),
        (found, _) => found,
    }
}

/// Whether a word is a frame rather than a file's name: `in_port=1,ip`, or the hexadecimal digits of 14 bytes at least.
pub(crate) fn is_frame(word: &str) -> bool {
    let bytes = word.as_bytes();
    bytes.contains(&b'=') && is_frame_words(bytes)
        || bytes.len() >= 28 && bytes.iter().all(|byte| byte.is_ascii_hexdigit())
}

/// A frame in hexadecimal digits or in words, and the port at which it is received. Words may say the port, too.
pub(crate) fn received_of(
    alloc: Global,
    kind: FileKind,
    port: Option<&str>,
    frame: &str,
) -> Result<Received, NoRequest> {
    if is_frame_words(frame.as_bytes()) {
        return said_of(alloc, kind, port, frame);
    }
    Ok(Received {
        port: given_port_of(alloc, kind, port)?,
        frame: frame_of(alloc, frame)?,
    })
}

// A frame in words. Without a port in them or beside them its port is 0, which is refused.
fn said_of(
    alloc: Global,
    kind: FileKind,
    port: Option<&str>,
    words: &str,
) -> Result<Received, NoRequest> {
    let given = match port {
        Some(word) => port_of(alloc, kind, number_in(word))?,
        None => 0,
    };
    match read_frame(alloc, given, words.as_bytes()) {
        Ok(received) => {
            if received.port == 0 {
                given_port_of(alloc, kind, port)?;
            }
            if given != 0 && received.port != given {
                let said = received.port;
                return Err(NoRequest::Refused(format!(in alloc;
                    "two ports: --port {given}, and in_port={said} in the words of the frame\n"
                )?));
            }
            port_of(alloc, kind, Some(received.port))?;
            Ok(received)
        }
        Err(NoFrame::NoMemory) => Err(NoRequest::NoMemory),
        Err(NoFrame::Refused(refusal)) => Err(NoRequest::Words {
            what: "bad frame",
            refusal,
        }),
    }
}

// One byte at least.
fn frame_of(alloc: Global, word: &str) -> Result<Vec<u8>, NoRequest> {
    match hex::decode(alloc, word) {
        Ok(frame) if !word.is_empty() => Ok(frame),
        _ => Err(refused(
            alloc,
            "bad hex: a frame is hexadecimal digits, two per byte\n",
        )?),
    }
}
