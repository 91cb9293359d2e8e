//! Why words are refused, in words.
ghost use Rattle.std.specs.Prelude.{◌≡◌};
ghost use Rattle.of_import_report.specs.Whys.{why_words as words_why};

use of_ovs_words::Why;

/// Why a word is refused, in words, as `Why` is displayed.
#[tactic(auto, unfolding(crate::specs::Whys::why_words))]
pub fn why_words(why: Why) -> &'static [u8]
    ensures { result.now ≡ words_why why }
{
    match why {
        Why::Unknown => b"not supported by this switch, or not an ovs-ofctl keyword",
        Why::Value => b"invalid value",
        Why::PortName => b"ports must be numbers: dump with --no-names",
        Why::Protocol => b"needs tcp or udp before it",
        Why::Missing => b"missing",
        Why::Again => b"a group with this number already exists",
        Why::Alone => b"drop must be the only action and instruction",
        Why::Order =>
            b"the order is: actions, clear_actions, write_actions, write_metadata, goto_table",
        Why::Twice => b"an instruction can be used only once",
        Why::Truncates => b"OpenFlow 1.3 cannot truncate packets: write output:PORT",
        Why::Command =>
            b"only flows to add can be imported: remove this line and the lines that it changes",
        Why::Table => b"this switch has tables 0 to 15; --renumber gives them numbers",
        Why::Backward => b"resubmit must go to a later table, without a port",
        Why::NeedsTag => b"needs a VLAN tag",
        Why::NeedsIp => b"needs ip or ipv6",
        Why::NeedsIpv4 => b"needs ip",
        Why::NeedsIpv6 => b"needs ipv6",
        Why::NeedsArp => b"needs arp",
        Why::NeedsTcp => b"needs tcp or tcp6",
        Why::NeedsUdp => b"needs udp or udp6",
        Why::NeedsIcmp => b"needs icmp",
        Why::NeedsIcmp6 => b"needs icmp6",
    }
}
