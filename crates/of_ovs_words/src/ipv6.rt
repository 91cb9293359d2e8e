//! IPv6 addresses in words.
ghost use Rattle.std.specs.Prelude.{◌≡◌, ◌≤◌, ◌<◌, ◌^◌, ◌-◌, ◌==◌, ◌&&◌, not, length, IfSome, Some, None};
ghost use Rattle.of_ovs_words.specs.Ipv6.{group_count as count_of, grown as grown_by, address_in_groups as groups_of, ipv6_in as ipv6_of, pieces, with_groups as with_groups_of, with_piece as with_piece_of, with_zeros as with_zeros_of, without_colon as without_one};

use crate::numbers::some_digits;
use of_lines::cut;

// The value with one more group of 16 bits.
fn grown(value: u128, group: u128) -> Option<u128>
    requires { group < 65536 }
    ensures { result ≡ grown_by value group }
{
    value.checked_mul(0x1_0000)?.checked_add(group)
}

// The value with so many groups of zeros.
fn with_zeros(count: usize, value: u128) -> Option<u128>
    ensures { result ≡ with_zeros_of count value }
{
    let mut value = value;
    let mut left = count;
    while left > 0 {
        value = grown(value, 0)?;
        left -= 1;
    }
    Some(value)
}

// How many groups there are.
fn count_groups(word: &[u8]) -> usize
    ensures value { result ≡ count_of (pieces word.now) }
    ensures small { result ≤ length word.now }
{
    let mut count = 0;
    let mut rest = word;
    while !rest.is_empty() {
        let (piece, after) = cut(rest, b':');
        rest = after;
        if !piece.is_empty() {
            count += 1;
        }
    }
    count
}

// One more piece: a group, or zeros where they are still wanted.
fn with_piece(missing: usize, wanted: bool, value: u128, piece: &[u8]) -> Option<u128>
    ensures { result ≡ with_piece_of missing wanted value piece.now }
{
    if !piece.is_empty() {
        grown(value, some_digits(16, 0x1_0000, piece)?)
    } else if wanted {
        with_zeros(missing, value)
    } else {
        None
    }
}

// Whether zeros are wanted after a piece.
fn is_wanted(wanted: bool, piece: &[u8]) -> bool
    ensures { result ≡ (wanted && not (length piece.now == 0)) }
{
    wanted && !piece.is_empty()
}

// The value of groups, of which so many are missing.
fn with_groups(missing: usize, wanted: bool, word: &[u8]) -> Option<u128>
    ensures { result ≡ with_groups_of missing wanted 0 (pieces word.now) }
{
    let mut value: u128 = 0;
    let mut wanted = wanted;
    let mut rest = word;
    while !rest.is_empty() {
        let (piece, after) = cut(rest, b':');
        rest = after;
        match with_piece(missing, wanted, value, piece) {
            Some(next) => value = next,
            None => return None,
        }
        wanted = is_wanted(wanted, piece);
    }
    if wanted { None } else { Some(value) }
}

fn without_colon(word: &[u8]) -> &[u8]
    ensures { result.now ≡ without_one word.now }
{
    let (first, after) = cut(word, b':');
    if first.is_empty() { after } else { word }
}

/// An IPv6 address, as 2001:db8::1.
#[tactic(auto, unfolding(crate::specs::Ipv6::ipv6_in))]
pub fn ipv6_in(word: &[u8]) -> Option<u128>
    ensures { result ≡ ipv6_of word.now }
{
    let groups = without_colon(word);
    let count = count_groups(groups);
    if count <= 8 {
        with_groups(8 - count, count < 8, groups)
    } else {
        None
    }
}
