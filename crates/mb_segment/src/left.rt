//! What is left of a segment that was ended.
ghost use Rattle.std.specs.Prelude.{◌+◌, ◌<◌, ◌≡◌, ◌≤◌};
ghost use Rattle.std.specs.Mem.Slots.{IsFull, slots_len};

use atomic_table::Closed;
use std::alloc::{Allocator, Global};

/// What became of a value: the names of the pass that sent it and of the one that received it. None: the pass has no name,
/// or nobody received the value.
#[derive(Clone, Copy, PartialEq, Eq, Debug, Drop)]
pub struct Fate {
    pub sender: Option<u32>,
    pub receiver: Option<u32>,
}

/// The values that nobody received, in order, and the fate of each value. What is not taken is dropped with it.
pub struct Left<T: Drop, A: Allocator + Drop = Global> {
    pub(crate) closed: Closed<Option<T>, A>,
    pub(crate) at: usize,
    pub(crate) until: usize,
    ghost full: { IsFull closed.slots },
    ghost within: { until ≤ slots_len closed.slots },
    ghost told: { IsFull closed.words },
    ghost wide: { slots_len closed.words ≡ slots_len closed.slots + 17 },
    ghost small: { slots_len closed.slots < 4294967296 },
}

impl<T: Drop, A: Allocator + Drop> Drop for Left<T, A> {
    fn drop(self) {
        let Left {
            mut closed,
            at: _,
            until: _,
        } = self;
        let mut i = 0;
        while i < closed.slot_count() {
            drop(closed.take(i));
            i += 1;
        }
        closed.free();
    }
}
