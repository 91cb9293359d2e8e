//! IPv6 addresses in words.
ghost use Rattle.std.specs.Prelude.{◌≡◌, ◌≤◌, ◌<◌, ◌+◌, ◌++◌, IfSome, OnOk};
ghost use Rattle.of_values.specs.Ipv6.{are_zeros as zeros_are, around, further_groups, group as group_of, group_digits, groups, ipv6_address, longest_run as longest_run_of, run_below};

use crate::digits::push_digits;
use std::alloc::AllocError;

/// A run of groups of zeros.
#[derive(Clone, Copy)]
pub struct Run {
    /// How many groups it has.
    pub size: u32,
    /// How many groups are behind it.
    pub behind: u32,
}

// The group that has so many behind it.
fn group(number: u128, behind: u32) -> u128
    requires { behind < 8 }
    ensures { result ≡ group_of behind number }
{
    (number >> (16 * behind)) % 0x1_0000
}

// Whether so many groups are zeros, of which the last has `behind` behind it.
#[tactic(auto, unfolding(crate::specs::Ipv6::are_zeros))]
fn are_zeros(number: u128, behind: u32, size: u32) -> bool
    requires { behind + size ≤ 8 }
    ensures { result ≡ zeros_are behind size number }
{
    let mut left = size;
    while left > 0 {
        left -= 1;
        if group(number, behind + left) != 0 {
            return false;
        }
    }
    true
}

// How many groups are behind the first run of a size.
#[tactic(auto, unfolding(crate::specs::Ipv6::run_below))]
fn first_run(number: u128, size: u32, limit: u32) -> Option<u32>
    requires { limit + size ≤ 9 }
    ensures value { result ≡ run_below size limit number }
    ensures below { IfSome result (λ behind. behind < limit) }
{
    let mut behind = limit;
    while behind > 0 {
        behind -= 1;
        if are_zeros(number, behind, size) {
            return Some(behind);
        }
    }
    None
}

// The first of the longest runs of at least two groups, and of at most one more than the limit.
#[tactic(auto, unfolding(crate::specs::Ipv6::longest_run))]
fn longest_run(number: u128, limit: u32) -> Option<Run>
    requires { limit ≤ 7 }
    ensures value { result ≡ longest_run_of limit number }
    ensures within { IfSome result (λ run. run.size + run.behind ≤ 8) }
{
    let mut left = limit;
    while left > 0 {
        left -= 1;
        let size = left + 2;
        if let Some(behind) = first_run(number, size, 7 - left) {
            return Some(Run { size, behind });
        }
    }
    None
}

fn push_group(out: &mut Vec<u8>, number: u128, behind: u32) -> Result<(), AllocError>
    requires { behind < 8 }
    ensures { OnOk result (out.new.items ≡ out.old.items ++ group_digits behind number) }
{
    push_digits(out, 1, 4, group(number, behind))
}

// Appends so many groups, of which the last has `low` behind it, each after a colon.
#[tactic(auto, unfolding(crate::specs::Ipv6::further_groups))]
fn push_further_groups(
    out: &mut Vec<u8>,
    number: u128,
    low: u32,
    count: u32,
) -> Result<(), AllocError>
    requires { low + count ≤ 8 }
    ensures { OnOk result (out.new.items ≡ out.old.items ++ further_groups low count number) }
{
    let mut left = count;
    while left > 0 {
        left -= 1;
        out.push(b':')?;
        push_group(out, number, low + left)?;
    }
    Ok(())
}

// The same, with colons between them.
#[tactic(auto, unfolding(crate::specs::Ipv6::groups))]
fn push_groups(out: &mut Vec<u8>, number: u128, low: u32, count: u32) -> Result<(), AllocError>
    requires { low + count ≤ 8 }
    ensures { OnOk result (out.new.items ≡ out.old.items ++ groups low count number) }
{
    if count == 0 {
        return Ok(());
    }
    push_group(out, number, low + (count - 1))?;
    push_further_groups(out, number, low, count - 1)
}

#[tactic(auto, unfolding(crate::specs::Ipv6::around))]
fn push_around(out: &mut Vec<u8>, run: Option<Run>, number: u128) -> Result<(), AllocError>
    requires { IfSome run (λ run. run.size + run.behind ≤ 8) }
    ensures { OnOk result (out.new.items ≡ out.old.items ++ around run number) }
{
    let Some(run) = run else {
        return push_groups(out, number, 0, 8);
    };
    let low = run.size + run.behind;
    push_groups(out, number, low, 8 - low)?;
    out.extend_from_slice(b"::")?;
    push_groups(out, number, 0, run.behind)
}

/// Appends an IPv6 address.
#[tactic(auto, unfolding(crate::specs::Ipv6::ipv6_address))]
pub fn push_ipv6(out: &mut Vec<u8>, number: u128) -> Result<(), AllocError>
    ensures { OnOk result (out.new.items ≡ out.old.items ++ ipv6_address number) }
{
    push_around(out, longest_run(number, 7), number)
}
