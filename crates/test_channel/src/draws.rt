//! What workers draw, and what they send.

use rand_core::{Rng, SeedableRng};
use rand_xoshiro::Xoshiro256PlusPlus;

/// What is sent.
#[derive(Clone, Copy)]
pub enum Sent {
    /// The value of this number.
    Value(u64),
    /// Its receiver stops.
    Pill,
}

/// Which ends are dropped, and not given back.
#[derive(Clone, Copy, PartialEq, Eq)]
pub enum Drops {
    /// All ends are given back.
    Nothing,
    /// Some ends are dropped before they did anything.
    Unused,
    /// Some ends are dropped, wherever they are. Their segments stay.
    Anything,
}

/// What a worker does once it has made a further end.
#[derive(Clone, Copy)]
pub enum Fate {
    /// It goes on with the new end, and gives the old one back.
    Changed,
    /// It gives the new end back.
    Returned,
    /// It drops the new end.
    Dropped,
    /// It goes on with the new end, and drops the old one.
    Left,
}

/// The draws of a worker.
#[derive(Drop)]
pub struct Draws {
    words: Xoshiro256PlusPlus,
    drops: Drops,
}

impl Draws {
    /// The draws of the worker with this number, of this seed.
    pub fn new(seed: u64, worker: u64, drops: Drops) -> Draws {
        let seed = seed.wrapping_mul(1000003).wrapping_add(worker);
        Draws {
            words: Xoshiro256PlusPlus::seed_from_u64(seed),
            drops,
        }
    }

    /// A number below 2^bits, if `bits` is 1 to 16.
    pub fn below(&mut self, bits: u8) -> u64 {
        self.words.next_u64() >> 48 >> 16u8.saturating_sub(bits)
    }

    /// What happens to an end, before one value in 64. Before the others none is made.
    pub fn fate(&mut self) -> Option<Fate> {
        if self.below(6) != 0 {
            return None;
        }
        let fate = match (self.below(2), self.drops) {
            (0, _) => Fate::Changed,
            (2, Drops::Unused | Drops::Anything) => Fate::Dropped,
            (3, Drops::Anything) => Fate::Left,
            _ => Fate::Returned,
        };
        Some(fate)
    }
}
