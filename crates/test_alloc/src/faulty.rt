//! The allocator that refuses chosen requests.
ghost use Rattle.std.specs.Prelude.{◌≡◌};

use crate::counters::{Counters, Refuse};
use std::alloc::{AllocError, Allocator};

/// An allocator over another one. It refuses chosen requests, and hands on the others. Collections hold a `&` to it, in
/// one thread or in many.
#[derive(Drop)]
pub struct FaultyHeap<B: Allocator> {
    inner: B,
    book: Counters,
}

impl<B: Allocator> FaultyHeap<B> {
    /// An allocator from which nothing was requested yet.
    pub fn new(inner: B, refuse: Refuse) -> FaultyHeap<B>
        ensures { result.book.refuse ≡ refuse }
    {
        FaultyHeap {
            inner,
            book: Counters::new(refuse),
        }
    }

    /// How many requests there were, refused ones included.
    pub fn asked(&self) -> u64 {
        self.book.asked()
    }

    /// How many blocks are out: granted, and not given back.
    pub fn out(&self) -> u64 {
        self.book.out()
    }
}

unsafe impl<B: Allocator> Allocator for FaultyHeap<B> {
    ghost dealloc_token = { λ rations ty ptr. B.dealloc_token rations.inner ty ptr };

    fn allocate(&self, size: usize, align: usize) -> Result<*mut u8, AllocError> {
        if self.book.refuses() {
            return Err(AllocError);
        }
        let answer = self.inner.allocate(size, align);
        if let Ok(_) = answer {
            self.book.gives();
        }
        answer
    }

    unsafe fn deallocate(&self, ptr: *mut u8, size: usize, align: usize) {
        self.book.takes_back();
        self.inner.deallocate(ptr, size, align);
    }
}
