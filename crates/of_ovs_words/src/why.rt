//! Why a word is refused.

use thiserror::Error;

/// Why a word of a line is refused.
#[derive(Clone, Copy, Debug, PartialEq, Eq, Error)]
pub enum Why {
    #[error("not supported by this switch, or not an ovs-ofctl keyword")]
    Unknown,
    #[error("invalid value")]
    Value,
    #[error("ports must be numbers: dump with --no-names")]
    PortName,
    #[error("needs tcp or udp before it")]
    Protocol,
    #[error("missing")]
    Missing,
    #[error("a group with this number already exists")]
    Again,
    /// Beside `drop`.
    #[error("drop must be the only action and instruction")]
    Alone,
    #[error("the order is: actions, clear_actions, write_actions, write_metadata, goto_table")]
    Order,
    #[error("an instruction can be used only once")]
    Twice,
    /// `output(port=N,max_len=N)`.
    #[error("OpenFlow 1.3 cannot truncate packets: write output:PORT")]
    Truncates,
    /// `delete`, `modify` and the like.
    #[error("only flows to add can be imported: remove this line and the lines that it changes")]
    Command,
    /// A table above 15.
    #[error("this switch has tables 0 to 15; --renumber gives them numbers")]
    Table,
    #[error("resubmit must go to a later table, without a port")]
    Backward,
    /// A prerequisite of a field is missing (OpenFlow 1.3.5, 7.2.3.8).
    #[error("needs a VLAN tag")]
    NeedsTag,
    #[error("needs ip or ipv6")]
    NeedsIp,
    #[error("needs ip")]
    NeedsIpv4,
    #[error("needs ipv6")]
    NeedsIpv6,
    #[error("needs arp")]
    NeedsArp,
    #[error("needs tcp or tcp6")]
    NeedsTcp,
    #[error("needs udp or udp6")]
    NeedsUdp,
    #[error("needs icmp")]
    NeedsIcmp,
    #[error("needs icmp6")]
    NeedsIcmp6,
}
