//! What handles lead to.
use mb_bound::{BoundConsumer, BoundHub, BoundProducer};
use mb_world::Report;
use rand_chacha::ChaCha8Rng;
use rand_core::Rng;
use std::alloc::Global;

/// A source of words that are all 0. A claim that is one exchange draws a word, and does the same whatever the word is.
#[derive(Drop)]
pub struct Zeros;

impl Rng for Zeros {
    ghost use Rattle.hazbultra.specs.Zeros.{zeros};

    ghost stream = { λ _. zeros };

    fn next_u32(&mut self) -> u32 {
        0
    }

    fn next_u64(&mut self) -> u64 {
        0
    }

    fn fill_bytes(&mut self, dst: &mut [u8]) {
        dst.fill(0);
    }
}

/// A consumer with its source of random words.
#[derive(Drop)]
pub struct SeededConsumer {
    pub consumer: BoundConsumer<Global>,
    /// The source from which it draws its words. If there is none, they are those of [`Zeros`].
    pub source: Option<ChaCha8Rng>,
}

/// What a handle leads to.
#[derive(Drop)]
pub enum Thing {
    /// A mailbox with its hub.
    OfHub(BoundHub<Global>),
    OfProducer(BoundProducer<Global>),
    OfConsumer(SeededConsumer),
    OfReport(Report<Global>),
    /// Nothing yet, or nothing any more. No handle that leaves a call leads to it.
    OfNothing,
}

/// Takes each type that may go from thread to thread.
fn crosses_threads<T: Send>() {}

/// A thing may go from thread to thread. The proof is that this function is accepted.
pub fn things_cross_threads() {
    crosses_threads::<Thing>();
}
