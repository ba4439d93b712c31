//! What is left of a ring that was ended.
ghost use Rattle.std.specs.Prelude.{◌+◌, ◌<◌, ◌≡◌, ◌≤◌};
ghost use Rattle.std.specs.Mem.Slots.{IsFull, slots_len};

use atomic_table::Closed;
use std::alloc::{Allocator, Global};

/// The values that nobody received, in order. What is not taken is dropped with it.
pub struct Left<T: Drop, A: Allocator + Drop = Global> {
    pub(crate) closed: Closed<Option<T>, A>,
    pub(crate) at: u64,
    pub(crate) until: u64,
    pub(crate) size: u64,
    ghost full: { IsFull closed.slots },
    ghost sized: { size ≡ slots_len closed.slots },
    ghost some: { 0 < size },
    ghost within: { until ≤ at + size },
}

impl<T: Drop, A: Allocator + Drop> Drop for Left<T, A> {
    fn drop(self) {
        let Left {
            mut closed,
            at: _,
            until: _,
            size: _,
        } = self;
        let mut i = 0;
        while i < closed.slot_count() {
            drop(closed.take(i));
            i += 1;
        }
        closed.free();
    }
}
