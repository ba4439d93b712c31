//! What a producer does with its lane's seat.
use super::{LaneSeat, SharedCells};
use mb_cells::steps::{accesses_lengthen_one_part, accesses_stay_within, lanes_lead_on};
use mb_cells::{END, Finish, Offer, Push};
use std::alloc::Allocator;
use std::marker::Brand;

impl<A: Allocator + Drop> SharedCells<A> {
    ghost use Rattle.std.specs.Prelude.{◌≡◌};
    ghost use Rattle.mb_shared_cells.specs.{FinishMakes, OfferMakes, PushMakes};

    /// Takes the next cell for item `x`, by one fetch-add of the counter. It is refused as `Pool::offer` of `mb_cells`
    /// is, without an access: `Closed` after the end mark, `Busy` while an item waits for its link. The first `Full`
    /// comes after a fetch-add that found no cell, and each later one without an access.
    pub fn offer(&self, seat: &mut LaneSeat, x: u64) -> Offer
        requires { seat.old.table ≡ self.now }
        ensures makes { OfferMakes seat.old x result seat.new }
        ensures table { seat.new.table ≡ self.now }
        ensures lane { seat.new.lane ≡ seat.old.lane }
    {
        accesses_lengthen_one_part();
        lanes_lead_on();
        if let Some(refusal) = seat.place.offer_refusal() {
            return refusal;
        }
        let found = self.fetch_add::<Brand>(&mut seat.seat, x);
        seat.place.offered(self.size.cells, x, found)
    }

    /// Stores the item that was offered, and at the next call the link to its cell. If each item that has a cell is
    /// linked, the push is idle and makes no access.
    pub fn push(&self, seat: &mut LaneSeat) -> Push
        requires { seat.old.table ≡ self.now }
        ensures makes { PushMakes seat.old result seat.new }
        ensures table { seat.new.table ≡ self.now }
        ensures lane { seat.new.lane ≡ seat.old.lane }
    {
        accesses_lengthen_one_part();
        accesses_stay_within();
        lanes_lead_on();
        let Some((word, value)) = seat.place.next_push(seat.number) else {
            return Push::Idle;
        };

        // The place moves on before the store: after an atomic step the compiler would read it anew.
        let answer = seat.place.pushed();
        self.store::<Brand>(&mut seat.seat, word, value);
        answer
    }

    /// Stores the end mark of the lane. It is refused without an access: `Closed` after the end mark, `Busy` while an
    /// item waits for its link.
    pub fn finish(&self, seat: &mut LaneSeat) -> Finish
        requires { seat.old.table ≡ self.now }
        ensures makes { FinishMakes seat.old result seat.new }
        ensures table { seat.new.table ≡ self.now }
        ensures lane { seat.new.lane ≡ seat.old.lane }
    {
        accesses_lengthen_one_part();
        accesses_stay_within();
        lanes_lead_on();
        if let Some(refusal) = seat.place.finish_refusal() {
            return refusal;
        }
        let word = seat.place.next_link(seat.number);
        self.store::<Brand>(&mut seat.seat, word, END);
        seat.place.finished();
        Finish::Ended
    }
}
