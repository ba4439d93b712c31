//! What an end knows of the desk. No value of it is made: it exists in proofs alone.
use mb_ring::Ring;
use std::alloc::Global;

pub struct Knows<T: Drop> {
    /// The ring of the channel.
    pub ring: Ring<T, Global>,
    /// For how many senders and receivers it counts.
    pub sends: u64,
    pub receives: u64,
    /// Whether it has the lock, and how often it took it.
    pub holds: bool,
    pub looks: u64,
    /// How many senders and receivers it found when it took the lock.
    pub senders: u64,
    pub receivers: u64,
    /// How many it left when it gave the lock back.
    pub left_senders: u64,
    pub left_receivers: u64,
    /// Whether it saw that no sender, or no receiver, is left.
    pub no_sender: bool,
    pub no_receiver: bool,
}
