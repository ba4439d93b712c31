//! Where a producer stands on its lane, as a plain value: what it may do next, and what follows.
ghost use Rattle.std.specs.Prelude.{◌≡◌, None};
ghost use Rattle.mb_cells.specs.{offer_refusal, finish_refusal, offer_by_found, push_store, push_answer, next_link};
ghost use Rattle.mb_cells.specs.{new_lane, lane_after_offer, lane_after_push, lane_after_finish};
ghost use Rattle.mb_cells.specs.declared.lane.LaneStage.TheVariants.{Open};

use crate::access::Word;
use crate::answer::{Finish, Offer, Push};

/// What a producer has done since its last link store.
#[derive(Clone, Copy, PartialEq, Eq, Debug)]
pub enum LaneStage {
    /// It has made no access.
    Open,
    /// Its fetch-add gave this cell for this item.
    Offered {
        /// The cell that the fetch-add gave.
        cell: u32,
        /// The item offered for it.
        item: u64,
    },
    /// The item is stored in this cell, which is not linked yet.
    Stored {
        /// The cell that holds the item.
        cell: u32,
    },
    /// Its fetch-add found no cell.
    Full,
    /// It has stored the end mark.
    Ended {
        /// Whether a fetch-add had found no cell before.
        full: bool,
    },
}

/// A producer's place on its lane: the cell that it linked last, if any, and what it has done since.
#[derive(Clone, Copy, PartialEq, Eq, Debug)]
pub struct Lane {
    last: Option<u32>,
    stage: LaneStage,
}

impl Lane {
    /// The place of a producer that has made no access.
    pub fn new() -> Lane
        ensures { result ≡ new_lane }
    {
        Lane {
            last: None,
            stage: LaneStage::Open,
        }
    }

    /// The answer with which an offer is refused, without an access. If it is `None`, the offer makes its fetch-add.
    pub fn offer_refusal(self) -> Option<Offer>
        ensures { result ≡ offer_refusal self }
    {
        match self.stage {
            LaneStage::Ended { .. } => Some(Offer::Closed),
            LaneStage::Offered { .. } | LaneStage::Stored { .. } => Some(Offer::Busy),
            LaneStage::Full => Some(Offer::Full),
            LaneStage::Open => None,
        }
    }

    /// Moves on to the place after an offer's fetch-add that gave `found`, in a pool of `cells` cells. Returns what the
    /// offer returns. It needs a lane that does not refuse an offer.
    pub fn offered(&mut self, cells: u32, item: u64, found: u64) -> Offer
        requires { offer_refusal self.old ≡ None }
        ensures answer { result ≡ offer_by_found cells found }
        ensures lane { self.new ≡ lane_after_offer cells item found self.old }
    {
        if found < u64::from(cells) {
            let cell = found as u32;
            self.stage = LaneStage::Offered { cell, item };
            Offer::Cell(cell)
        } else {
            self.stage = LaneStage::Full;
            Offer::Full
        }
    }

    /// The word and the value of the store that a push makes on lane `p`. If it is `None`, there is nothing to push.
    pub fn next_push(self, p: u32) -> Option<(Word, u64)>
        ensures { result ≡ push_store p self }
    {
        match self.stage {
            LaneStage::Offered { cell, item } => Some((Word::Item(cell), item)),
            LaneStage::Stored { cell } => Some((self.next_link(p), u64::from(cell) + 1)),
            _ => None,
        }
    }

    /// Moves on to the place after a push's store, and returns the push's answer. An idle push changes nothing.
    pub fn pushed(&mut self) -> Push
        ensures answer { result ≡ push_answer self.old }
        ensures lane { self.new ≡ lane_after_push self.old }
    {
        match self.stage {
            LaneStage::Offered { cell, .. } => {
                self.stage = LaneStage::Stored { cell };
                Push::Item(cell)
            }
            LaneStage::Stored { cell } => {
                self.last = Some(cell);
                self.stage = LaneStage::Open;
                Push::Link(cell)
            }
            _ => Push::Idle,
        }
    }

    /// The answer with which a finish is refused, without an access. If it is `None`, the finish stores the end mark.
    pub fn finish_refusal(self) -> Option<Finish>
        ensures { result ≡ finish_refusal self }
    {
        match self.stage {
            LaneStage::Ended { .. } => Some(Finish::Closed),
            LaneStage::Offered { .. } | LaneStage::Stored { .. } => Some(Finish::Busy),
            LaneStage::Open | LaneStage::Full => None,
        }
    }

    /// Where the next link or the end mark of lane `p` goes: the link of its last cell, or its head if it has none.
    pub fn next_link(self, p: u32) -> Word
        ensures { result ≡ next_link p self }
    {
        match self.last {
            None => Word::Head(p),
            Some(k) => Word::Link(k),
        }
    }

    /// Moves on to the place after the store of the end mark. It needs a lane that does not refuse a finish.
    pub fn finished(&mut self)
        requires { finish_refusal self.old ≡ None }
        ensures { self.new ≡ lane_after_finish self.old }
    {
        self.stage = LaneStage::Ended {
            full: self.stage == LaneStage::Full,
        };
    }
}

impl Default for Lane {
    ghost is_default = { λ lane. lane ≡ new_lane };

    fn default() -> Self {
        Lane::new()
    }
}
