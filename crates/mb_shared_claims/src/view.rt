//! What the seats of a table know.
use mb_claim::{ClaimAccess, Layout};
use std::collections::LinkedList;

/// What the rule of a table has to know: the objects of each cell, and how many cells there are.
#[derive(Drop)]
pub struct TableSize {
    /// The objects of each cell.
    pub layout: Layout,
    /// How many cells there are.
    pub cells: u32,
}

/// What one seat knows: the size of its table, and parts of consumers, the newest access first. No value of it is ever
/// made, since only proofs look at it. A *roll* has a place for each number issued: the part of that consumer if its
/// seat was returned, and none if it is out.
pub enum View {
    /// The hub's view, between two of its calls.
    Issuing(TableSize, LinkedList<Option<LinkedList<ClaimAccess>>>),
    /// The hub's view while it issues: the next number was drawn from the roster and is not issued yet.
    Drawing(TableSize, LinkedList<Option<LinkedList<ClaimAccess>>>),
    /// The view of a consumer's seat: its number and its part.
    Standing(TableSize, u32, LinkedList<ClaimAccess>),
    /// The hub's view while it takes a seat back: the number and the part of that seat are beside the roll.
    Taking(TableSize, LinkedList<Option<LinkedList<ClaimAccess>>>, u32, LinkedList<ClaimAccess>),
    /// The view of a seat that was returned.
    Spent,
}
