//! What setting a field changes in a frame: the field and its new value, and the bytes that change, each run behind its place.
//!
//! The checksums of the frames here are right before and after: each was computed anew over all that it covers (RFC 1071).

/// An ARP request, with three bytes behind it.
pub const ARP: &str =
    "020000000002020000000001080600010800060400010200000000010a0000010000000000000a000002010203";

pub const SET_IN_ARP: &str = "
EthDst=a0b0c0d0e0f | 0:0a0b0c0d0e0f
EthSrc=ffffffffffff | 6:ffffffffffff
ArpOp=2 | 21:02
ArpSpa=c0a80101 | 28:c0a801
ArpTpa=ffffffff | 38:ffffffff
ArpSha=a0b0c0d0e0f | 22:0a0b0c0d0e0f
ArpTha=112233445566 | 32:112233445566
";

/// An ARP request in a customer tag.
pub const ARP_TAGGED: &str =
    "0200000000020200000000018100b005080600010800060400010200000000010a0000010000000000000a000002";

pub const SET_IN_ARP_TAGGED: &str = "
VlanVid=1fff | 14:bfff
VlanPcp=2 | 14:50
ArpOp=ffff | 24:ffff
ArpSpa=0 | 32:00 35:00
ArpTha=10203040506 | 36:010203040506
";

/// TCP over IPv4, with three bytes of data and two behind the packet.
pub const TCP_OVER_IPV4: &str =
    "020000000002020000000001080045b9002b000740004006260b0a0000010a000002c0010050000000010000000250122000f7150000616263eeff";

pub const SET_IN_TCP_OVER_IPV4: &str = "
EthSrc=60504030201 | 6:0605040302
IpDscp=3f | 15:fd 24:25c7
IpEcn=2 | 15:ba 25:0a
Ipv4Src=ac100001 | 24:83faac10 50:5505
Ipv4Dst=0 | 24:300d 30:00 33:00 50:0118
TcpSrc=0 | 34:0000 50:b717
TcpDst=ffff | 36:ffff 51:65
";

/// UDP over IPv4 with an option, in two tags, with five bytes of data.
pub const UDP_OVER_IPV4: &str =
    "02000000000202000000000188a86abc8100b0050800462a002500074000401103e2c0a80107e00000019404000010000035000d4ae701020304ff";

pub const SET_IN_UDP_OVER_IPV4: &str = "
VlanVid=1001 | 14:6001
VlanPcp=7 | 14:ea
IpDscp=0 | 23:02 32:040a
IpEcn=3 | 23:2b 33:e1
Ipv4Src=7f000001 | 32:46907f000001 52:8d95
Ipv4Dst=8080808 | 32:d3d3 38:08080808 52:1ad9
UdpSrc=35 | 46:0035 52:5ab2
UdpDst=ffff | 48:ffff 52:4b1c
";

/// ICMP over IPv4, in a customer tag, with five bytes of data.
pub const ICMP_OVER_IPV4: &str =
    "0200000000020200000000018100b00508004500001d00074000400126d70a0000010a000002080078fc000100027f";

pub const SET_IN_ICMP_OVER_IPV4: &str = "
VlanVid=1000 | 15:00
Ipv4Dst=c0a8014d | 28:6ee3 34:c0a8014d
Icmpv4Type=0 | 38:00 40:80
Icmpv4Code=ff | 39:ff77fd
";

/// TCP over IPv6, in a customer tag, with a byte of data.
pub const TCP_OVER_IPV6: &str =
    "0200000000020200000000018100b00586dd6b9123450015064020010db800000000000000000000000120010db8000000000000000000000002c00101bb000000010000000250122000f29c000080";

pub const SET_IN_TCP_OVER_IPV6: &str = "
VlanPcp=0 | 14:10
IpDscp=0 | 18:6011
IpEcn=2 | 19:a1
Ipv6Flabel=abcde | 19:9abcde
Ipv6Src=fe80000000000000021122fffe334455 | 26:fe800000 34:021122fffe334455 74:ba3c
Ipv6Dst=0 | 42:00000000 57:00 74:2058
TcpSrc=1 | 58:00 74:b29d
TcpDst=1f90 | 60:1f90 74:d4c7
";

/// UDP over IPv6 behind a header of hop-by-hop options, with three bytes of data.
pub const UDP_OVER_IPV6: &str =
    "02000000000202000000000186dd600fffff0013004020010db800000000000000000000000120010db8000000000000000000000002110001040000000010000035000b7e230a0b0c";

pub const SET_IN_UDP_OVER_IPV6: &str = "
EthDst=0 | 0:00 5:00
IpDscp=1 | 15:4f
Ipv6Flabel=0 | 15:000000
Ipv6Src=fe80000000000000021122fffe334455 | 22:fe800000 30:021122fffe334455 68:45c3
Ipv6Dst=ffffffffffffffffffffffffffffffff | 38:ffffffffffffffffffffffffffffffff 68:abde
UdpSrc=7 | 62:0007 68:8e1c
UdpDst=7b | 65:7b 68:7ddd
";

/// ICMPv6, with five bytes of data.
pub const ICMPV6_OVER_IPV6: &str =
    "02000000000202000000000186dd6230000000093a4020010db800000000000000000000000120010db80000000000000000000000028000cf430001000255";

pub const SET_IN_ICMPV6_OVER_IPV6: &str = "
IpEcn=0 | 15:00
Ipv6Dst=fe80000000000000021122fffe334455 | 38:fe800000 46:021122fffe334455 56:96e4
Icmpv6Type=81 | 54:81 56:ce
Icmpv6Code=1 | 55:01 57:42
";
