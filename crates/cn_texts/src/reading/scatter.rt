//! A hash of numbers, which is drawn at random, for a table whose keys anybody may pick.

ghost use Rattle.std.specs.Prelude.{◌≡◌, ◌+◌, ◌*◌, ◌^◌};
ghost use Rattle.cn_texts.specs.Reading.Scatter.{drawn_by, drawn_word, scattered, word_of};

use std::hash::{BuildHasher, Hasher, RandomState};

/// The numbers by which a number x gets its place: the upper half of `factor * x + term`, modulo 2 ^ 128.
///
/// If both are drawn evenly, two different numbers take any two places with the same chance: so numbers that were
/// picked before the draw share places as random ones do (M. Dietzfelbinger, Universal hashing and k-wise independent
/// random variables via integer arithmetic without primes, STACS 1996).
#[derive(Clone, Copy)]
pub(crate) struct Scatter {
    factor: u128,
    term: u128,
}

/// The word that a random state has for a place.
fn drawn_word(state: &RandomState, place: u64) -> u64
    ensures { result ≡ drawn_word state.now place }
{
    state.hash_one(place)
}

/// The number of two words.
fn joined(upper: u64, lower: u64) -> u128
    ensures { result ≡ upper * 2 ^ 64 + lower }
{
    u128::from(upper) << 64 | u128::from(lower)
}

impl Scatter {
    /// Drawn by a random state: each of the two numbers has two words of it.
    pub(crate) fn drawn(state: RandomState) -> Self
        ensures { result ≡ drawn_by state }
    {
        Scatter {
            factor: joined(drawn_word(&state, 0), drawn_word(&state, 1)),
            term: joined(drawn_word(&state, 2), drawn_word(&state, 3)),
        }
    }
}

/// The number of eight bytes, the lowest first. The numbers of a table have no others.
fn word_of(bytes: &[u8]) -> u64
    ensures { result ≡ word_of bytes.now }
{
    if bytes.len() < 8 {
        return 0;
    }
    u64::from_le_bytes([
        bytes[0], bytes[1], bytes[2], bytes[3], bytes[4], bytes[5], bytes[6], bytes[7],
    ])
}

/// What has been hashed so far.
#[derive(Clone, Copy)]
pub(crate) struct Scattered {
    factor: u128,
    sum: u128,
}

impl Hasher for Scattered {
    ghost use Rattle.std.specs.Prelude.{◌/◌, ◌^◌};

    ghost write = { scattered };

    ghost finish = { λ s. s.sum / 2 ^ 64 };

    fn finish(&self) -> u64 {
        (self.sum >> 64) as u64
    }

    fn write(&mut self, bytes: &[u8]) {
        let product = self.factor.wrapping_mul(u128::from(word_of(bytes)));
        self.sum = self.sum.wrapping_add(product);
    }
}

impl BuildHasher for Scatter {
    type Hasher = Scattered;

    ghost build_hasher = { λ s. record { factor = s.factor; sum = s.term } };

    fn build_hasher(&self) -> Scattered {
        Scattered {
            factor: self.factor,
            sum: self.term,
        }
    }
}
