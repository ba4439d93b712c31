//! The command `run`: writers that fail, and its sources of random words.

use crate::compare::same;
use crate::devices::NarrowWriter;
use crate::examples::runs::TWO_ITEMS;
use mb_claim::Shape;
use mb_program::{Options, RunFault, run_threads, source_of, workload_of};
use mb_script::CountingIo;
use rand_core::Rng;
use std::alloc::Allocator;
use std::sync::Wait;
use std::thread::Threads;

// The options of the example with two items.
const ALONE: Options = Options {
    producers: 1,
    consumers: 1,
    items: 2,
    pairs: 1,
    budget: 64,
    seed: 0,
    shape: Shape::PLAIN,
};

// Runs the workers of these options, with this allocator for all but what is written. Returns the result, and what was
// written.
pub(crate) fn reported<
    R: AllocGlobal + Threads + Wait + Sync,
    A: Allocator + Copy + Drop + Send + Sync,
>(rt: &R, alloc: A) -> (Result<(), RunFault>, Vec<u8>) {
    let mut writer = CountingIo::new(Vec::<u8>::new(rt.alloc()));
    let result = run_threads(alloc, rt, ALONE, &mut writer);
    (result, writer.device)
}

/// One writer takes all bytes, one takes 10 and then fails, one takes 10 and then none, and one takes none. A case
/// has the room, whether the writer then fails, the result, and what is written, or `None` for the whole report.
const WRITERS: &[(usize, bool, Result<(), RunFault>, Option<&str>)] = &[
    (1000, false, Ok(()), None),
    (10, true, Err(RunFault::WriteFault), Some("lane 0 end")),
    (10, false, Err(RunFault::WriteFault), Some("lane 0 end")),
    (0, false, Err(RunFault::WriteFault), Some("")),
];

#[test]
fn writers_fail(rt: HostRuntime) {
    let example = TWO_ITEMS;
    for &(room, fails, want, written) in WRITERS {
        let mut writer = CountingIo::new(NarrowWriter {
            taken: Vec::new(rt.alloc()),
            room,
            fails,
        });
        let result = run_threads(rt.alloc(), &rt, ALONE, &mut writer);
        let written = written.unwrap_or(example.output);
        let told = (result, writer.device.taken.as_slice());
        same(&rt, &told, &(want, written.as_bytes()));
    }
}

/// The first block of ChaCha with 8 rounds, a key of zeros and stream 0 begins with the bytes 3e 00 ef 2f 89 5f 40 d6.
/// A small program that gives these bytes as the first word gives the other words, too.
const WORDS: &[(u64, u32, u64)] = &[
    (0, 0, 0xd640_5f89_2fef_003e),
    (0, 1, 0xca06_8379_b34b_8f2b),
    (1, 0, 0x61a9_4a49_a0e9_5ecf),
    (u64::MAX, 0, 0xb44e_8639_2271_48c7),
];

// The report of the example has the same items.
#[test]
fn two_items_are_put(rt: HostRuntime) {
    let load = workload_of(rt.alloc(), ALONE).expect(&rt, "no memory");
    let sizes = (load.lists.len(), load.budget, load.rngs.len());
    same(&rt, &sizes, &(1, 64, 1));
    for list in &load.lists {
        same(&rt, &list.as_slice(), &[0, 1].as_slice());
    }
}

#[test]
fn sources_have_known_words(rt: HostRuntime) {
    for &(seed, consumer, word) in WORDS {
        same(&rt, &source_of(seed, consumer).next_u64(), &word);
    }
}
