//! Frames in words.
ghost use Rattle.std.specs.Prelude.{◌≡◌};
ghost use Rattle.of_c.specs.{Answers.Gives, Calls.IsFrameTold, Calls.status_of_no_words as status_without};

use crate::answer::{Answer, BAD_FILE, NO_MEMORY, Outcome, give};
use of_frame_words::{NoFrame, read_frame};
use std::alloc::Global;

/// Why words are no frame, or no match.
pub fn status_of_no_words(why: &NoFrame) -> u8
    ensures { result ≡ status_without why.now }
{
    match why {
        NoFrame::NoMemory => NO_MEMORY,
        NoFrame::Refused(_) => BAD_FILE,
    }
}

/// The bytes of the frame that words say, such as `tcp,nw_src=10.0.0.1,tp_dst=80`, as `trace` takes them (docs/TRACE.md), which comes in by the
/// port that they say, or else by this one. Its port is left in `port`.
///
/// Status 2: they say none. 3: memory ran out. With both there are no bytes.
#[unsafe(no_mangle)]
pub extern "C" fn ofswitch_frame_in_words(
    alloc: Global,
    port: &mut u32,
    words: &[u8],
    frame: &mut [u8],
    answer: &mut Answer,
)
    ensures { Gives (IsFrameTold port.old words.now port.new) answer.new frame.old frame.new }
{
    match read_frame(alloc, *port, words) {
        Ok(received) => {
            let status = 0;
            *port = received.port;
            give(&received.frame, Outcome { status, line: 0 }, frame, answer);
        }
        Err(why) => {
            let status = status_of_no_words(&why);
            give(&[], Outcome { status, line: 0 }, frame, answer);
        }
    }
}
