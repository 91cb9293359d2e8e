//! One number for all fields of a key.
ghost use Rattle.std.specs.Prelude.{◌≡◌};
ghost use Rattle.of_headers.specs.Digest.{side_by_side, word_pair, place_word_of, link_word_of, internet_word_of, octet_word_of, source_word_of, target_word_of, key_words, digest_of};

use crate::key::FieldKey;
use crate::mixer::Mixer;
use crate::numbers::Numbers;

// Numbers side by side in one: each place is worth `place` times the next one.
#[inline]
#[tactic(auto, unfolding(crate::specs::Digest::side_by_side))]
fn beside(place: u64, numbers: &[u64]) -> u64
    ensures { result ≡ side_by_side place numbers.now }
{
    numbers.iter().fold(0, |sum: u64, number| {
        sum.wrapping_mul(place).wrapping_add(*number)
    })
}

#[inline]
#[tactic(auto, unfolding(crate::specs::Digest::word_pair))]
fn pair(high: u64, low: u64) -> u128
    ensures { result ≡ word_pair high low }
{
    u128::from(high) * 0x1_0000_0000_0000_0000 + u128::from(low)
}

impl FieldKey {
    /// Numbers that depend on all fields, for a hash: to hash the fields one after another takes several times as long.
    #[inline]
    #[tactic(auto, unfolding(crate::specs::Digest::key_words))]
    pub fn words(&self) -> [u128; 6]
        ensures { result ≡ key_words self.now.numbers }
    {
        [
            place_word(&self.numbers),
            link_word(&self.numbers),
            internet_word(&self.numbers),
            octet_word(&self.numbers),
            source_word(&self.numbers),
            target_word(&self.numbers),
        ]
    }

    /// One number that depends on all fields, for a hash: who does not know the secret cannot pick keys that have the same one.
    #[inline]
    #[tactic(auto, unfolding(crate::specs::Digest::key_words, crate::specs::Digest::digest_of))]
    pub fn digest(&self, secret: Mixer) -> u64
        ensures { result ≡ digest_of secret self.now.numbers }
    {
        secret
            .with(place_word(&self.numbers))
            .with(link_word(&self.numbers))
            .with(internet_word(&self.numbers))
            .with(octet_word(&self.numbers))
            .with(source_word(&self.numbers))
            .with(target_word(&self.numbers))
            .number()
    }
}

#[inline]
#[tactic(auto, unfolding(crate::specs::Digest::place_word_of))]
fn place_word(key: &Numbers) -> u128
    ensures { result ≡ place_word_of key.now }
{
    let place = beside(
        0x1_0000_0000,
        &[u64::from(key.in_port), u64::from(key.present)],
    );
    pair(place, key.metadata)
}

#[inline]
#[tactic(auto, unfolding(crate::specs::Digest::link_word_of))]
fn link_word(key: &Numbers) -> u128
    ensures { result ≡ link_word_of key.now }
{
    let target = beside(0x1_0000, &[key.eth_dst, u64::from(key.eth_type)]);
    let source = beside(0x1_0000, &[key.eth_src, u64::from(key.vlan_vid)]);
    pair(target, source)
}

#[inline]
#[tactic(auto, unfolding(crate::specs::Digest::internet_word_of))]
fn internet_word(key: &Numbers) -> u128
    ensures { result ≡ internet_word_of key.now }
{
    let addresses = beside(
        0x1_0000_0000,
        &[u64::from(key.ipv4_src), u64::from(key.ipv4_dst)],
    );
    let ports = beside(
        0x1_0000,
        &[
            u64::from(key.tcp_src),
            u64::from(key.tcp_dst),
            u64::from(key.udp_src),
            u64::from(key.udp_dst),
        ],
    );
    pair(addresses, ports)
}

#[inline]
#[tactic(auto, unfolding(crate::specs::Digest::octet_word_of))]
fn octet_word(key: &Numbers) -> u128
    ensures { result ≡ octet_word_of key.now }
{
    let octets = beside(
        0x100,
        &[
            u64::from(key.icmpv4_type),
            u64::from(key.icmpv4_code),
            u64::from(key.icmpv6_type),
            u64::from(key.icmpv6_code),
            u64::from(key.vlan_pcp),
            u64::from(key.ip_proto),
            u64::from(key.ip_dscp),
            u64::from(key.ip_ecn),
        ],
    );
    pair(octets, u64::from(key.ipv6_flabel))
}

// IPv6 or ARP: the sender.
#[inline]
#[tactic(auto, unfolding(crate::specs::Digest::source_word_of))]
fn source_word(key: &Numbers) -> u128
    ensures { result ≡ source_word_of key.now }
{
    let sender = beside(0x1_0000, &[key.arp_sha, u64::from(key.arp_op)]);
    let addresses = beside(
        0x1_0000_0000,
        &[u64::from(key.arp_spa), u64::from(key.arp_tpa)],
    );
    key.ipv6_src.wrapping_add(pair(sender, addresses))
}

// IPv6 or ARP: the target.
#[inline]
#[tactic(auto, unfolding(crate::specs::Digest::target_word_of))]
fn target_word(key: &Numbers) -> u128
    ensures { result ≡ target_word_of key.now }
{
    key.ipv6_dst.wrapping_add(u128::from(key.arp_tha))
}
