//! What the calls on the list answer.
use crate::home::Shared;
use mb_segment::Pass;

/// What an end finds that comes to a segment.
pub enum Came<T: Drop> {
    /// It has a pass of the segment now.
    Here(Shared<T>, Pass<T>),
    /// The end goes on to the segment of this number: to the oldest that is not freed, or, if it comes to send alone, to
    /// the last one. If all are freed, it goes on to behind them.
    Gone(usize),
    /// There is no such segment yet: the end adds none, or the allocator refused the memory.
    NotYet,
    /// There was no such segment, and the end added it.
    Added,
    /// There is no such segment, and never will be: the list is closed, or no sender is left.
    Closed,
    /// So many ends are in the segment that they cannot be counted.
    Crowded,
    /// The lock is taken.
    Locked,
}

/// What came of counting for one sender less.
#[derive(Clone, Copy, PartialEq, Eq, Debug, Drop)]
pub enum Retired {
    /// It was the last sender: none is left.
    Last,
    /// It was one of several.
    One,
    /// There were not so many senders as were seen, but so many.
    Again(u64),
}
