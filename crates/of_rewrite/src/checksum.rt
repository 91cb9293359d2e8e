//! Checksums in one's complement (RFC 1624, 3).

ghost use Rattle.std.specs.Prelude.{◌≡◌, ◌+◌, ◌-◌, ◌<◌, ◌≤◌, ◌^◌, ◌∷◌, []};
ghost use Rattle.of_rewrite.specs.Checksum.{fold, change};

/// A sum folded to 16 bits, its carries added until none is left.
#[tactic(auto, using(crate::proofs::Folding::fold_step, crate::proofs::Folding::fold_small))]
fn folded(sum: u32) -> u16
    ensures { result ≡ fold sum }
{
    let once = sum % 65536 + sum / 65536;
    let twice = once % 65536 + once / 65536;
    twice as u16
}

/// A checksum whose covered words changed by this sum.
pub fn renewed_by(checksum: u16, sum: u32) -> u16
    requires { sum < 2 ^ 31 }
    ensures { result ≡ 65535 - fold (65535 - checksum + sum) }
{
    65535 - folded((65535 - checksum) as u32 + sum)
}

/// What the change of one word adds to a sum.
pub fn change_of(old: u16, new: u16) -> u32
    ensures sum { result ≡ change (old ∷ []) (new ∷ []) }
    ensures small { result ≤ 131070 }
{
    if old == new {
        0
    } else {
        (65535 - old) as u32 + new as u32
    }
}
