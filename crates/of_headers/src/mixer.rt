//! Numbers mixed into one, under a secret.
ghost use Rattle.std.specs.Prelude.{◌≡◌, ◌/◌, ◌%◌, ◌^◌};
ghost use Rattle.of_headers.specs.Digest.{folded_product, mixed, mixer_number, scrambled, mixer_of};

/// Mixes numbers into one, for hashes: who does not know the secret with which it begins cannot pick numbers that give the same one.
///
/// That no proof says. Each number of 128 bits is split, both halves are changed by what is secret and multiplied, and the product
/// of 128 bits is folded to 64: so no change of a number has a foreseen effect.
#[derive(Clone, Copy)]
pub struct Mixer {
    next: u64,
    last: u64,
    factor: u64,
}

/// The difference of two numbers that splitmix64 makes one after the other.
const STEP: u64 = 0x9e37_79b9_7f4a_7c15;

pub(crate) fn low(number: u128) -> u64
    ensures { result ≡ number % 2 ^ 64 }
{
    (number % 0x1_0000_0000_0000_0000) as u64
}

pub(crate) fn high(number: u128) -> u64
    ensures { result ≡ number / 2 ^ 64 }
{
    (number / 0x1_0000_0000_0000_0000) as u64
}

// A product of 128 bits, its halves joined.
#[inline]
#[tactic(auto, unfolding(crate::specs::Digest::folded_product))]
fn folded(a: u64, b: u64) -> u64
    ensures { result ≡ folded_product a b }
{
    let product = u128::from(a) * u128::from(b);
    low(product) ^ high(product)
}

#[tactic(auto, unfolding(crate::specs::Digest::scrambled))]
fn scramble(number: u64) -> u64
    ensures { result ≡ scrambled number }
{
    let once = (number ^ (number >> 30)).wrapping_mul(0xbf58_476d_1ce4_e5b9);
    let twice = (once ^ (once >> 27)).wrapping_mul(0x94d0_49bb_1331_11eb);
    twice ^ (twice >> 31)
}

impl Mixer {
    /// The one that begins with the secret that a seed gives. The seed is as secret.
    #[tactic(auto, unfolding(crate::specs::Digest::mixer_of))]
    pub fn new(seed: u64) -> Mixer
        ensures { result ≡ mixer_of seed }
    {
        let first = seed.wrapping_add(STEP);
        let second = first.wrapping_add(STEP);
        Mixer {
            next: scramble(first),
            last: scramble(second),
            factor: scramble(second.wrapping_add(STEP)),
        }
    }

    /// One more number is mixed in.
    #[inline]
    #[tactic(auto, unfolding(crate::specs::Digest::mixed))]
    pub fn with(self, number: u128) -> Mixer
        ensures { result ≡ mixed self number }
    {
        Mixer {
            next: self.last,
            last: folded(low(number) ^ self.next, high(number) ^ self.factor),
            factor: self.factor,
        }
    }

    /// The number that all were mixed into.
    #[inline]
    #[tactic(auto, unfolding(crate::specs::Digest::mixer_number))]
    pub fn number(self) -> u64
        ensures { result ≡ mixer_number self }
    {
        self.next.wrapping_add(self.last)
    }
}
