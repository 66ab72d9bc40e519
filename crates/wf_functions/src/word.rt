//! Words, from which identifiers and random numbers are made.
ghost use Rattle.std.specs.Prelude.{◌≡◌};
ghost use Rattle.wf_functions.specs.Words.{word_of};

use itoa::Buffer;
use sha2::{Digest, Sha256};
use wf_val::Text;

/// The word of a number at a place: SHA-256 (FIPS 180-4) of the seed, a zero byte, the place, a zero byte and the
/// number in decimal. The same of a seed, a place and a number on every machine and in every run.
pub fn word_of(seed: &Text, place: &Text, n: u64) -> [u8; 32]
    ensures { result ≡ word_of seed.now place.now n }
{
    let mut buffer = Buffer::new();
    let mut hasher = Sha256::new();
    hasher.update(seed.as_str().as_bytes());
    hasher.update(&[0]);
    hasher.update(place.as_str().as_bytes());
    hasher.update(&[0]);
    hasher.update(buffer.format(n).as_bytes());
    hasher.finalize()
}
