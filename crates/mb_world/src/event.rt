//! Events of a world, and their answers.
use mb_cells::{Finish, Look, Offer, Push};
use mb_claim::Stage;
use mb_deciding::Act;

/// What may happen: one step of a producer on its lane, or of a consumer on a lane.
#[derive(Clone, Copy, PartialEq, Eq, Debug)]
pub enum Event {
    /// The producer of this lane takes a cell for this item.
    Offer { lane: u64, item: u64 },
    /// The producer of this lane stores the item that it offered, or links its cell.
    Push { lane: u64 },
    /// The producer of this lane stores the end mark.
    Finish { lane: u64 },
    /// This consumer makes its next access on this lane, with this random word.
    Step { consumer: u64, lane: u64, word: u64 },
}

/// The answer to an event. It names the access that was made, or says why none was.
#[derive(Clone, Copy, PartialEq, Eq, Debug)]
pub enum Answer {
    /// There is no such lane. No access was made.
    NoLane,
    /// There is no such consumer. No access was made.
    NoConsumer,
    /// An offer: the cell that the counter gave, `Full` if it gave none, or a refusal.
    Offered(Offer),
    /// A push: the item or the link that was stored, or `Idle` if there was nothing to store.
    Pushed(Push),
    /// A finish: `Ended` if the end mark was stored, or a refusal.
    Finished(Finish),
    /// A step of a consumer that holds no claim: what the head or link at its cursor says.
    Looked(Look),
    /// A step of a claim on this cell: its act on a word of this object, and the claim's stage after it.
    Claimed {
        cell: u32,
        object: u32,
        act: Act,
        stage: Stage,
    },
    /// A step of a consumer whose claim on this cell is won: the item that it loaded.
    Took {
        cell: u32,
        item: u64,
    },
}
