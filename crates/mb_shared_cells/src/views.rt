//! What the seats of a table know. Only proofs use these types: no value of them is made.
use mb_cells::{PoolAccess, PoolSize, Process};
use std::collections::LinkedList;

/// For each number that the hub issued: the part of its seat, the newest access first, or `None` if the seat was not
/// returned. The number of a lane or reader is its position in the list, from 0 on.
pub struct Roll {
    /// The parts of the lanes.
    pub lanes: LinkedList<Option<LinkedList<PoolAccess>>>,
    /// The parts of the readers.
    pub readers: LinkedList<Option<LinkedList<PoolAccess>>>,
}

/// What a seat knows, unless it was returned: the size of the table, and more that depends on whose seat it is.
pub enum View {
    /// The hub, and the parts that it has taken back.
    Hub(PoolSize, Roll),
    /// The hub, which has drawn a lane's number from the roster, and has not split the seat off yet.
    HubDraws(PoolSize, Roll),
    /// The hub, which has joined the seat of a process to its own: that process, and its part, not in the roll yet.
    HubJoins(PoolSize, Roll, Process, LinkedList<PoolAccess>),
    /// The seat of a lane or reader: the process, the parts of lanes that it knows, and its own part.
    Member(PoolSize, Process, LinkedList<Option<LinkedList<PoolAccess>>>, LinkedList<PoolAccess>),
    /// A seat that was returned.
    Empty,
}
