//! How large a pool is.

/// How many lanes and cells a pool has.
#[derive(Clone, Copy, PartialEq, Eq, Debug)]
pub struct PoolSize {
    /// How many lanes.
    pub lanes: u32,
    /// How many cells.
    pub cells: u32,
}
