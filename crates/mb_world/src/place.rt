//! Where a consumer stands on a lane.
use mb_cells::Cursor;
use mb_claim::Claim;

/// Where a consumer stands on a lane, and the claim that it holds there.
#[derive(Clone, Copy, PartialEq, Eq, Debug)]
pub enum Place {
    /// The consumer is before the link at this cursor, and holds no claim.
    Before(Cursor),
    /// The consumer is at this cell, and holds this claim there.
    At { cell: u32, claim: Claim },
}

impl Default for Place {
    fn default() -> Place {
        Place::Before(Cursor::Head(0))
    }
}
