//! Atomic accesses to the shared words of a pool of cells.

/// The end mark of a lane. It stands in the link of the lane's last cell, or in the head if the lane has no cell.
pub const END: u64 = u64::MAX;

/// Who makes an access.
#[derive(Clone, Copy, PartialEq, Eq, Debug)]
pub enum Process {
    /// The producer of the lane with this number.
    Producer(u32),
    /// The reader with this number. Readers may have any numbers.
    Reader(u32),
}

/// A shared word of a pool. All words are 0 at first.
#[derive(Clone, Copy, PartialEq, Eq, Debug)]
pub enum Word {
    /// The counter: how many fetch-adds were made for cells.
    Counter,
    /// The head of a lane: 0 (nothing yet), k + 1 (cell k is the first), or `END`.
    Head(u32),
    /// The link of a cell: 0 (nothing yet), k + 1 (cell k follows), or `END`.
    Link(u32),
    /// The item of a cell.
    Item(u32),
}

/// What an access does to its word.
#[derive(Clone, Copy, PartialEq, Eq, Debug)]
pub enum PoolAct {
    /// The word was loaded and had this value.
    Load(u64),
    /// This value was stored in the word.
    Store(u64),
    /// One was added to the counter, for an offered item.
    FetchAdd {
        /// The item offered.
        item: u64,
        /// What the counter held before.
        found: u64,
    },
}

/// One atomic access to one word.
#[derive(Clone, Copy, PartialEq, Eq, Debug)]
pub struct PoolAccess {
    /// Who makes it.
    pub process: Process,
    /// Which word it goes to.
    pub word: Word,
    /// What it does, and what it finds.
    pub act: PoolAct,
}
