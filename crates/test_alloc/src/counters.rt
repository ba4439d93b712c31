//! The count of requests, and of the blocks that are out.
ghost use Rattle.std.specs.Prelude.{◌≡◌};

use std::sync::atomic::{AtomicU64, Ordering};

/// Which requests are refused. They are numbered from 0 on, over all threads.
#[derive(Clone, Copy, PartialEq, Eq, Debug)]
pub enum Refuse {
    /// The request with this number and all later ones.
    From(u64),
    /// The request with this number alone.
    Only(u64),
    /// No request.
    Never,
}

/// Which requests are refused, how many there were, and how many blocks are out.
#[derive(Drop)]
pub(crate) struct Counters {
    refuse: Refuse,
    /// How many requests there were.
    asked: AtomicU64,
    /// How many blocks are out: granted, and not given back.
    out: AtomicU64,
}

impl Counters {
    /// Counters that have counted nothing yet.
    pub(crate) fn new(refuse: Refuse) -> Counters
        ensures { result.refuse ≡ refuse }
    {
        Counters {
            refuse,
            asked: AtomicU64::new(0),
            out: AtomicU64::new(0),
        }
    }

    /// How many requests there were, refused ones included.
    pub(crate) fn asked(&self) -> u64 {
        self.asked.load(Ordering::SeqCst)
    }

    /// How many blocks are out: granted, and not given back.
    pub(crate) fn out(&self) -> u64 {
        self.out.load(Ordering::SeqCst)
    }

    /// Counts a request, and returns whether it is refused.
    pub(crate) fn refuses(&self) -> bool {
        let number = self.asked.fetch_add(1, Ordering::SeqCst);
        match self.refuse {
            Refuse::From(first) => number >= first,
            Refuse::Only(one) => number == one,
            Refuse::Never => false,
        }
    }

    /// Counts a block that goes out.
    pub(crate) fn gives(&self) {
        self.out.fetch_add(1, Ordering::SeqCst);
    }

    /// Counts a block that comes back.
    pub(crate) fn takes_back(&self) {
        self.out.fetch_sub(1, Ordering::SeqCst);
    }
}
