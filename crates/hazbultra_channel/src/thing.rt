//! What handles lead to.
use mb_channel::Stored;

/// What a handle leads to.
#[derive(Drop)]
pub enum Thing {
    /// A sender or a receiver, whatever it owes.
    OfEnd(Stored<u64>),
    /// Nothing yet, or nothing any more. No handle that leaves a call leads to it.
    OfNothing,
}

/// What a caller has to do for those that sleep.
#[repr(C)]
#[derive(Clone, Copy)]
pub struct WakeOut {
    /// The number of the segment where the threads sleep, or where the receiver is to sleep.
    pub place: u64,
    /// How many threads to wake that sleep there: 0 or 1.
    pub threads: u32,
    /// Whether the end still owes something: 0 or 1. With 1, call `hz_channel_pay` until it is 0.
    pub owes: u32,
}

/// Takes each type that may go from thread to thread.
fn crosses_threads<T: Send>() {}

/// A thing may go from thread to thread. The proof is that this function is accepted.
pub fn things_cross_threads() {
    crosses_threads::<Thing>();
}
