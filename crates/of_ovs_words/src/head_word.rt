//! The words for a flow beside its match and its actions (ovs-ofctl(8)).
ghost use Rattle.std.specs.Prelude.{◌≡◌};
ghost use Rattle.of_ovs_words.specs.HeadWords.{head_named};

use crate::keywords::{is_keyword, padded};

/// What a word is of a flow.
#[derive(Clone, Copy)]
pub enum Part {
    Cookie,
    Table,
    Priority,
    /// The idle timeout.
    Idle,
    /// The hard timeout.
    Hard,
    /// This bit of its flags (OpenFlow 1.3.5, 7.3.4.1).
    Flag(u16),
    /// Nothing that is kept.
    Passed,
    /// A command other than `add`.
    Command,
}

/// A word for a flow beside its match and its actions: its text, which spaces fill up, and what it is of the flow.
#[derive(Clone, Copy)]
pub struct HeadWord {
    pub text: [u8; 20],
    pub part: Part,
}

macro_rules! head {
    ($text:expr, $part:expr) => {
        HeadWord {
            text: padded!($text),
            part: $part,
        }
    };
}

/// Each word once.
pub const HEAD_WORDS: [HeadWord; 22] = [
    head!(b"cookie", Part::Cookie),
    head!(b"table", Part::Table),
    head!(b"priority", Part::Priority),
    head!(b"idle_timeout", Part::Idle),
    head!(b"hard_timeout", Part::Hard),
    head!(b"send_flow_rem", Part::Flag(1)),
    head!(b"no_packet_counts", Part::Flag(8)),
    head!(b"no_byte_counts", Part::Flag(16)),
    head!(b"check_overlap", Part::Passed),
    head!(b"reset_counts", Part::Passed),
    head!(b"importance", Part::Passed),
    head!(b"allow_hidden_fields", Part::Passed),
    head!(b"duration", Part::Passed),
    head!(b"n_packets", Part::Passed),
    head!(b"n_bytes", Part::Passed),
    head!(b"idle_age", Part::Passed),
    head!(b"hard_age", Part::Passed),
    head!(b"add", Part::Passed),
    head!(b"delete", Part::Command),
    head!(b"delete_strict", Part::Command),
    head!(b"modify", Part::Command),
    head!(b"modify_strict", Part::Command),
];

impl HeadWord {
    /// The word of this text.
    #[tactic(auto, unfolding(crate::specs::HeadWords::head_named))]
    pub fn named(text: &[u8]) -> Option<HeadWord>
        ensures { result ≡ head_named text.now }
    {
        HEAD_WORDS
            .iter()
            .copied()
            .find(|word| is_keyword(&word.text, text))
    }
}
