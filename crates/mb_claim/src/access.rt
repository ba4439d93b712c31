//! What a consumer does to the words of the claims.
use mb_deciding::{Op, Turn};

/// A turn of one consumer on one cell, and the number of the object that it went to.
#[derive(Clone, Copy, PartialEq, Eq, Debug)]
pub struct ObjectTurn {
    /// The number of the object in its cell, from 0 on.
    pub object: u32,
    /// The act that was made there, with its random word.
    pub turn: Turn,
}

/// An access in the history of the claims on all cells: a turn, who made it, and on which cell.
#[derive(Clone, Copy, PartialEq, Eq, Debug)]
pub struct ClaimAccess {
    /// The number of the consumer, from 0 on.
    pub consumer: u32,
    /// The number of the cell, from 0 on.
    pub cell: u32,
    /// What the consumer did there.
    pub step: ObjectTurn,
}

/// An access that a claim is about to make, and the number of the object that it goes to.
#[derive(Clone, Copy, PartialEq, Eq, Debug)]
pub struct ClaimOp {
    /// The number of the object in its cell, from 0 on.
    pub object: u32,
    /// The load, store or exchange that comes next.
    pub op: Op,
}

/// An access that a claim has made.
#[derive(Clone, Copy, PartialEq, Eq, Debug)]
pub struct ClaimStep {
    /// What the claim did, and on which object.
    pub step: ObjectTurn,
    /// How far the claim has come with this access.
    pub stage: Stage,
}

/// How far the claim of a consumer on a cell has come.
#[derive(Clone, Copy, PartialEq, Eq, Debug)]
pub enum Stage {
    /// The claim goes on: its next access is still to be made.
    Going,
    /// Won: an object decided the consumer's own number.
    Won,
    /// Lost: an object decided the number of this other consumer.
    Lost(u32),
    /// Undecided: the claim went through all objects, and none decided.
    Undecided,
}

impl Stage {
    ghost use Rattle.std.specs.Prelude.{◌≡◌, ◌↔◌, IsTrue};
    ghost use Rattle.mb_claim.specs.declared.access.Stage.TheVariants.{Going};

    /// Whether the next access is still to be made.
    pub(crate) fn is_going(self) -> bool
        ensures { IsTrue result ↔ (self ≡ Going) }
    {
        matches!(self, Stage::Going)
    }
}
