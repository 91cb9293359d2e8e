//! The names of reserved ports (ovs-ofctl(8)).
ghost use Rattle.std.specs.Prelude.{◌≡◌};
ghost use Rattle.of_ovs_words.specs.PortWords.{port_word_named};

use crate::keywords::{is_keyword_in_any_case, padded};
use of_wire::limits::{OFPP_ALL, OFPP_CONTROLLER, OFPP_FLOOD, OFPP_IN_PORT};

/// The name of a reserved port (OpenFlow 1.3.5, 4.5): its text, which spaces fill up, and its number, if this switch sends packets to it and a flow can
/// name it.
#[derive(Clone, Copy)]
pub struct PortWord {
    pub text: [u8; 20],
    pub number: Option<u32>,
}

macro_rules! port {
    ($text:expr, $number:expr) => {
        PortWord {
            text: padded!($text),
            number: $number,
        }
    };
}

/// Each name once.
pub const PORT_WORDS: [PortWord; 8] = [
    port!(b"in_port", Some(OFPP_IN_PORT)),
    port!(b"flood", Some(OFPP_FLOOD)),
    port!(b"all", Some(OFPP_ALL)),
    port!(b"controller", Some(OFPP_CONTROLLER)),
    port!(b"local", None),
    port!(b"normal", None),
    port!(b"table", None),
    port!(b"any", None),
];

impl PortWord {
    /// The word of this text, in any case.
    #[tactic(auto, unfolding(crate::specs::PortWords::port_word_named))]
    pub fn named(text: &[u8]) -> Option<PortWord>
        ensures { result ≡ port_word_named text.now }
    {
        PORT_WORDS
            .iter()
            .copied()
            .find(|word| is_keyword_in_any_case(&word.text, text))
    }
}
