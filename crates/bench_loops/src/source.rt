//! Two sources of words: random words by shifts, and words that are all 0.
ghost use Rattle.std.specs.Prelude.{ℕ};
ghost use Rattle.rand_core.specs.Steps.{stream_of};
ghost use Rattle.bench_loops.specs.Shifts.{shift_steps, word_after};

use rand_core::utils::NextWord;
use rand_core::{Rng, utils};
use std::marker::Model;

/// A source of random words, by shifts. It is cheap, and the same in each run.
#[derive(Drop)]
pub struct Source {
    state: u64,
}

impl Model for Source {
    ghost Value = { ℕ };

    ghost view = { λ s. s.state };
}

impl Source {
    /// The source, at its first word.
    pub fn new() -> Source {
        Source {
            state: 0x9E37_79B9_7F4A_7C15,
        }
    }
}

impl NextWord<u64> for Source {
    ghost step = { word_after };

    #[inline(always)]
    fn next_word(&mut self) -> u64 {
        let mut word = self.state;
        word ^= word.wrapping_shl(13);
        word ^= word >> 7;
        word ^= word.wrapping_shl(17);
        self.state = word;
        word
    }
}

impl Rng for Source {
    ghost stream = { stream_of shift_steps };

    #[inline(always)]
    fn next_u32(&mut self) -> u32 {
        (self.next_word() % 0x1_0000_0000) as u32
    }

    #[inline(always)]
    fn next_u64(&mut self) -> u64 {
        self.next_word()
    }

    fn fill_bytes(&mut self, dst: &mut [u8]) {
        utils::fill_bytes_via_u64(self, dst)
    }
}

/// A source of words that are all 0. A claim that is one exchange draws a word, and does the same whatever the word is.
#[derive(Drop)]
pub struct Zeros;

impl Rng for Zeros {
    ghost use Rattle.bench_loops.specs.Zeros.{zeros};

    ghost stream = { λ _. zeros };

    #[inline(always)]
    fn next_u32(&mut self) -> u32 {
        0
    }

    #[inline(always)]
    fn next_u64(&mut self) -> u64 {
        0
    }

    fn fill_bytes(&mut self, dst: &mut [u8]) {
        dst.fill(0);
    }
}
