//! A hasher for keys made of numbers of at most eight bytes, as points and nodes are.

ghost use Rattle.std.specs.Prelude.{◌≡◌};
ghost use Rattle.un_walk.specs.Hashing.{number, folded_product};

use std::hash::Hasher;

/// The golden ratio in 64 bits, as many hash functions multiply by.
const MULTIPLIER: u64 = 0x9e37_79b9_7f4a_7c15;

// The bytes as one number, of which the last eight count.
#[inline(always)]
fn number(bytes: &[u8]) -> u64
    ensures { result ≡ number bytes.now }
{
    let mut number: u64 = 0;
    for byte in bytes {
        number = number.wrapping_mul(256).wrapping_add(*byte as u64);
    }
    number
}

// The two halves of a product of 128 bits, joined by exclusive or.
#[inline(always)]
fn folded_product(a: u64, b: u64) -> u64
    ensures { result ≡ folded_product a b }
{
    let product = a as u128 * b as u128;
    (product & 0xFFFF_FFFF_FFFF_FFFF) as u64 ^ (product >> 64) as u64
}

/// Hashes keys made of numbers of at most eight bytes. Each number is joined to the state by a product; of one that is written with more
/// bytes the last eight count. The seed is fixed.
#[derive(Clone, Copy)]
pub struct NumberHasher {
    state: u64,
}

impl Default for NumberHasher {
    ghost is_default = { λ h. h.state ≡ 0 };

    fn default() -> NumberHasher {
        NumberHasher { state: 0 }
    }
}

impl Hasher for NumberHasher {
    ghost use Rattle.un_walk.specs.Hashing.{write};

    ghost write = { write };

    ghost finish = { λ h. h.state };

    #[inline(always)]
    fn finish(&self) -> u64 {
        self.state
    }

    #[inline(always)]
    fn write(&mut self, bytes: &[u8]) {
        self.state = folded_product(self.state ^ number(bytes), MULTIPLIER);
    }
}
