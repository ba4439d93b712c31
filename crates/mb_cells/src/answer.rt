//! What the calls of a pool return.
use std::alloc::AllocError;

/// Memory ran out.
pub type NoMemory = AllocError;

/// The answer of an offer.
#[derive(Clone, Copy, PartialEq, Eq, Debug)]
pub enum Offer {
    /// The item has this cell. Two pushes then put it.
    Cell(u32),
    /// No cell is left: each has its producer.
    Full,
    /// The item offered before is not linked yet.
    Busy,
    /// The lane has its end mark.
    Closed,
}

/// The answer of a push.
#[derive(Clone, Copy, PartialEq, Eq, Debug)]
pub enum Push {
    /// The item was stored in this cell.
    Item(u32),
    /// This cell was linked: its item is put.
    Link(u32),
    /// There is nothing to push: each item that has a cell is linked.
    Idle,
}

/// The answer of a finish.
#[derive(Clone, Copy, PartialEq, Eq, Debug)]
pub enum Finish {
    /// The end mark was stored.
    Ended,
    /// The item offered before is not linked yet.
    Busy,
    /// The lane has its end mark already.
    Closed,
}

/// The answer of a look: what comes after a cursor.
#[derive(Clone, Copy, PartialEq, Eq, Debug)]
pub enum Look {
    /// Nothing comes after it yet.
    Nothing,
    /// This cell comes next.
    Cell(u32),
    /// The end mark of the lane comes after it.
    Ended,
}
