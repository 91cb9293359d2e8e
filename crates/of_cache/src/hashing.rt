//! The hash by which rows are found, under a secret.
ghost use Rattle.of_headers.specs.Digest.{mixer_number};
ghost use Rattle.of_cache.specs.Hashing.{mixer_written, each_written};
ghost use Rattle.std.specs.Prelude.{◌≡◌};

use of_headers::Mixer;
use std::hash::{BuildHasher, Hasher};

/// Mixes what it is fed, from a secret on.
#[derive(Clone, Copy)]
pub(crate) struct SecretHasher {
    mixer: Mixer,
}

impl SecretHasher {
    pub(crate) fn new(seed: u64) -> SecretHasher {
        SecretHasher {
            mixer: Mixer::new(seed),
        }
    }
}

// Bytes that are no number of 128 bits, one by one.
#[tactic(auto, unfolding(crate::specs::Hashing::each_written))]
fn with_each(mixer: Mixer, bytes: &[u8]) -> Mixer
    ensures { result ≡ each_written mixer bytes.now }
{
    bytes
        .iter()
        .fold(mixer, |mixer: Mixer, byte| mixer.with(u128::from(*byte)))
}

impl Hasher for SecretHasher {
    ghost write = { λ s bytes. record { mixer = mixer_written s.mixer bytes } };

    ghost finish = { λ s. mixer_number s.mixer };

    #[inline]
    fn finish(&self) -> u64 {
        self.mixer.number()
    }

    #[inline]
    fn write(&mut self, bytes: &[u8]) {
        self.mixer = match <[u8; 16]>::try_from(bytes) {
            Ok(number) => self.mixer.with(u128::from_le_bytes(number)),
            Err(_) => with_each(self.mixer, bytes),
        };
    }
}

impl BuildHasher for SecretHasher {
    type Hasher = SecretHasher;

    ghost build_hasher = { λ s. s };

    fn build_hasher(&self) -> SecretHasher {
        *self
    }
}
