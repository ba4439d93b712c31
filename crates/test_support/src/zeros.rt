//! Sources of random words that are all 0.

use rand_core::Rng;
use std::sync::atomic::{AtomicU64, Ordering};

/// A source of words that are all 0. It counts the words of 64 bits that it gave, modulo 2^64.
#[derive(Default, Drop)]
pub struct Zeros {
    /// How many words of 64 bits this source gave, modulo 2^64.
    pub given: u64,
}

impl Rng for Zeros {
    ghost use Rattle.test_support.specs.Zeros.{zeros};

    ghost stream = { λ _. zeros };

    fn next_u32(&mut self) -> u32 {
        0
    }

    fn next_u64(&mut self) -> u64 {
        self.given = self.given.wrapping_add(1);
        0
    }

    fn fill_bytes(&mut self, dst: &mut [u8]) {
        dst.fill(0);
    }
}

/// A source of words that are all 0. It counts the words of 64 bits that it gave in a counter that others can see.
#[derive(Drop)]
pub struct SeenZeros<'a> {
    /// The counter of the words of 64 bits.
    pub given: &'a AtomicU64,
}

impl<'a> Rng for SeenZeros<'a> {
    ghost use Rattle.test_support.specs.Zeros.{zeros};

    ghost stream = { λ _. zeros };

    fn next_u32(&mut self) -> u32 {
        0
    }

    fn next_u64(&mut self) -> u64 {
        self.given.fetch_add(1, Ordering::SeqCst);
        0
    }

    fn fill_bytes(&mut self, dst: &mut [u8]) {
        dst.fill(0);
    }
}
