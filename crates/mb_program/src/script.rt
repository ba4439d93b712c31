//! What a ratifier script says.

use mb_quorum::TableName;
use std::alloc::Allocator;

/// A run of one ratifier: its quorum table, the inputs of its processes, and their turns.
#[derive(Drop)]
pub struct RatifyScript<A: Allocator + Drop> {
    /// The quorum table of the ratifier.
    pub table: TableName,
    /// How many values the table is for.
    pub values: u64,
    /// The input of each process, from process 0 on.
    pub inputs: Vec<u64, A>,
    /// The process of each turn, in the order of time.
    pub turns: Vec<u64, A>,
}
