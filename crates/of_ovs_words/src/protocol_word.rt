//! The words for protocols (ovs-fields(7)).
ghost use Rattle.std.specs.Prelude.{◌≡◌};
ghost use Rattle.of_ovs_words.specs.ProtocolWords.{protocol_named};

use crate::keywords::{is_keyword, padded};

/// A word for a protocol: its text, which spaces fill up, and the ETH_TYPE and the IP_PROTO that it stands for.
#[derive(Clone, Copy)]
pub struct ProtocolWord {
    pub text: [u8; 20],
    pub ethertype: u16,
    pub protocol: Option<u8>,
}

macro_rules! protocol {
    ($text:expr, $ethertype:expr, $protocol:expr) => {
        ProtocolWord {
            text: padded!($text),
            ethertype: $ethertype,
            protocol: $protocol,
        }
    };
}

/// Each word once.
pub const PROTOCOL_WORDS: [ProtocolWord; 17] = [
    protocol!(b"ip", 0x0800, None),
    protocol!(b"ip4", 0x0800, None),
    protocol!(b"ipv4", 0x0800, None),
    protocol!(b"ipv6", 0x86dd, None),
    protocol!(b"ip6", 0x86dd, None),
    protocol!(b"arp", 0x0806, None),
    protocol!(b"rarp", 0x8035, None),
    protocol!(b"mpls", 0x8847, None),
    protocol!(b"mplsm", 0x8848, None),
    protocol!(b"icmp", 0x0800, Some(1)),
    protocol!(b"icmp6", 0x86dd, Some(58)),
    protocol!(b"tcp", 0x0800, Some(6)),
    protocol!(b"tcp6", 0x86dd, Some(6)),
    protocol!(b"udp", 0x0800, Some(17)),
    protocol!(b"udp6", 0x86dd, Some(17)),
    protocol!(b"sctp", 0x0800, Some(132)),
    protocol!(b"sctp6", 0x86dd, Some(132)),
];

impl ProtocolWord {
    /// The word of this text.
    #[tactic(auto, unfolding(crate::specs::ProtocolWords::protocol_named))]
    pub fn named(text: &[u8]) -> Option<ProtocolWord>
        ensures { result ≡ protocol_named text.now }
    {
        PROTOCOL_WORDS
            .iter()
            .copied()
            .find(|word| is_keyword(&word.text, text))
    }
}
