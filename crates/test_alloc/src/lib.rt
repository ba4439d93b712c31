//! An allocator that refuses chosen requests, and counts the blocks that are out. Threads may share it. With it a test
//! tries a call with its allocations refused one after the other.
#![tactic(auto)]

mod counters;
mod faulty;
mod growths;

pub use counters::Refuse;
pub use faulty::FaultyHeap;
pub use growths::growths_refused;
