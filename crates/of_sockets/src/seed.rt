//! Random numbers.

use of_switch::Seed;
use std::io;
use std::random::RandomSource;

/// A number that only the source knows: who picks flows and frames must not know which hashes they have.
pub fn draw_seed<R: RandomSource>(source: &R) -> io::Result<Seed> {
    let mut bytes = [0; 8];
    source.fill_bytes(&mut bytes)?;
    Ok(Seed(u64::from_le_bytes(bytes)))
}
