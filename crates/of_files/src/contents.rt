//! What a file is.
ghost use Rattle.std.specs.Prelude.{◌≡◌, Some};
ghost use Rattle.of_files.specs.Contents.{begins_events as is_event_word, begins_text as is_text_word, content_by, content_of as content_in};

use of_text::{cut, is, is_passed_over};

/// What a file is taken for.
#[derive(Clone, Copy, PartialEq, Eq)]
pub enum Content {
    FlowText,
    EventFile,
    /// What ovs-ofctl prints.
    OvsTable,
}

fn begins_text(word: &[u8]) -> bool
    ensures { result ≡ is_text_word word.now }
{
    is(word, b"flow") || is(word, b"group")
}

fn begins_events(word: &[u8]) -> bool
    ensures { result ≡ is_event_word word.now }
{
    is(word, b"port")
        || is(word, b"connect")
        || is(word, b"f")
        || is(word, b"t")
        || is(word, b"c")
        || is(word, b"lost")
}

// By the first line that counts.
#[tactic(auto, unfolding(crate::specs::Contents::content_by))]
fn content_with(line: &[u8]) -> Content
    ensures { result ≡ content_by (Some line.now) }
{
    let (word, _) = cut(line, b' ');
    let (word, _) = cut(word, b'\r');
    if begins_text(word) {
        Content::FlowText
    } else if begins_events(word) {
        Content::EventFile
    } else {
        Content::OvsTable
    }
}

/// What a file is, by the first word of its first line that is neither empty nor a comment.
pub fn content_of(text: &[u8]) -> Content
    ensures { result ≡ content_in text.now }
{
    let mut rest = text;
    while !rest.is_empty() {
        let (line, after) = cut(rest, b'\n');
        rest = after;
        if !is_passed_over(line) {
            return content_with(line);
        }
    }
    Content::FlowText
}
