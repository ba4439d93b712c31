//! How a producer moves on by its calls. The functions compute nothing. Their contracts are the laws from which the
//! clauses of the calls follow, and their bodies name the laws from which these follow.
ghost use Rattle.std.specs.Prelude.{ℕ, ◌≡◌, ◌<◌, ◌++◌, ◌∷◌, [], false, length, true};
ghost use Rattle.mb_cells.specs.declared.answer.Finish.TheVariants as finish;
ghost use Rattle.mb_cells.specs.declared.answer.Finish.{Finish};
ghost use Rattle.mb_cells.specs.declared.answer.Offer.TheVariants as offer;
ghost use Rattle.mb_cells.specs.declared.answer.Offer.{Offer};
ghost use Rattle.mb_cells.specs.declared.answer.Push.{Push};
ghost use Rattle.mb_shared_cells.specs.Vocabulary.{FinishMakes, LaneSeatView, OfferMakes, PushMakes};
ghost use Rattle.mb_mailbox.specs.Producers.{FoundNoCell, HasNoCellFor, IsEndOfLane, IsProducer, IsPutInto};
ghost use Rattle.mb_mailbox.specs.Producers.{IsSameLane, ProducerView, is_over};
ghost use Rattle.mb_mailbox.specs.PutLaws.{PutLaws};
ghost use Rattle.mb_mailbox.specs.PartPlaces.{HasPart, with_seat};

use mb_cells::laws::{cells_stand_once, lanes_refuse_by_what_was_done, parts_tell_lanes};
use mb_cells::steps::{
    accesses_lengthen_one_part, history_extends, parts_have_accesses, put_lists_grow,
};

/// What a producer is after a call.
pub(super) fn producers_move_on()
    // An offer that returned a cell, and two pushes after it, put the item. They do not end the lane.
    ensures linked { (s : ProducerView) (x k : ℕ) (one two : Push) (a b now : LaneSeatView)
        → IsProducer s → OfferMakes s.seat x (offer.Cell k) a → PushMakes a one b
        → PushMakes b two now
        → IsPutInto k x s (record { seat = now; items = s.items ++ x ∷ [] }) }
    ensures kept { (s : ProducerView) (x k : ℕ) (one two : Push) (a b now : LaneSeatView)
        → IsProducer s → OfferMakes s.seat x (offer.Cell k) a → PushMakes a one b
        → PushMakes b two now → IsProducer (record { seat = now; items = s.items ++ x ∷ [] }) }
    ensures room { (s : ProducerView) (x k : ℕ) (one two : Push) (a b now : LaneSeatView)
        → IsProducer s → OfferMakes s.seat x (offer.Cell k) a → PushMakes a one b
        → PushMakes b two now → length s.items < s.seat.table.size.cells }
    ensures linked_stays { (s : ProducerView) (x k : ℕ) (one two : Push) (a b now : LaneSeatView)
        → IsProducer s → OfferMakes s.seat x (offer.Cell k) a → PushMakes a one b
        → PushMakes b two now
        → is_over (record { seat = now; items = s.items ++ x ∷ [] }) ≡ is_over s }

    // An offer that returned something else put nothing. `Full` says that no cell was found, and `Closed` that the
    // lane has ended. `Busy` never comes.
    ensures full { (s : ProducerView) (x : ℕ) (now : LaneSeatView) → IsProducer s → HasPart s.seat
        → OfferMakes s.seat x offer.Full now → HasNoCellFor x s (with_seat now s) }
    ensures found { (s : ProducerView) (x : ℕ) (now : LaneSeatView) → HasPart s.seat
        → OfferMakes s.seat x offer.Full now → FoundNoCell (with_seat now s) }
    ensures full_stays { (s : ProducerView) (x : ℕ) (now : LaneSeatView)
        → OfferMakes s.seat x offer.Full now → is_over (with_seat now s) ≡ is_over s }
    ensures stays_full { (s : ProducerView) (x : ℕ) (answer : Offer) (now : LaneSeatView)
        → HasPart s.seat → OfferMakes s.seat x answer now → FoundNoCell s → is_over s ≡ false
        → answer ≡ offer.Full }
    ensures full_kept { (s : ProducerView) (x : ℕ) (now : LaneSeatView) → IsProducer s
        → OfferMakes s.seat x offer.Full now → IsProducer (with_seat now s) }
    ensures full_lane { (s : ProducerView) (x : ℕ) (now : LaneSeatView)
        → OfferMakes s.seat x offer.Full now → IsSameLane s (with_seat now s) }
    ensures refused { (s : ProducerView) (x : ℕ) (now : LaneSeatView)
        → OfferMakes s.seat x offer.Closed now → now ≡ s.seat }
    ensures closed { (s : ProducerView) (x : ℕ) (now : LaneSeatView) → HasPart s.seat
        → OfferMakes s.seat x offer.Closed now → is_over s ≡ true }
    ensures ended { (s : ProducerView) (x : ℕ) (answer : Offer) (now : LaneSeatView)
        → HasPart s.seat → OfferMakes s.seat x answer now
        → is_over s ≡ true → answer ≡ offer.Closed }
    ensures never_busy { (s : ProducerView) (x : ℕ) (now : LaneSeatView) → IsProducer s
        → OfferMakes s.seat x offer.Busy now → ⊥ }

    // A finish ends the lane, or is refused since the lane has ended. `Busy` never comes.
    ensures finished { (s : ProducerView) (now : LaneSeatView)
        → FinishMakes s.seat finish.Ended now → IsEndOfLane s (with_seat now s) }
    ensures finish_kept { (s : ProducerView) (answer : Finish) (now : LaneSeatView) → IsProducer s
        → FinishMakes s.seat answer now → IsProducer (with_seat now s) }
    ensures finish_lane { (s : ProducerView) (answer : Finish) (now : LaneSeatView)
        → FinishMakes s.seat answer now → IsSameLane s (with_seat now s) }
    ensures finish_refused { (s : ProducerView) (now : LaneSeatView)
        → FinishMakes s.seat finish.Closed now → now ≡ s.seat }
    ensures finish_closed { (s : ProducerView) (now : LaneSeatView) → HasPart s.seat
        → FinishMakes s.seat finish.Closed now → is_over s ≡ true }
    ensures finish_ended { (s : ProducerView) (answer : Finish) (now : LaneSeatView)
        → HasPart s.seat → FinishMakes s.seat answer now
        → is_over s ≡ true → answer ≡ finish.Closed }
    ensures finish_idle { (s : ProducerView) (now : LaneSeatView) → IsProducer s
        → FinishMakes s.seat finish.Busy now → ⊥ }
    ensures over { (s : ProducerView) (answer : Finish) (now : LaneSeatView) → IsProducer s
        → HasPart s.seat → FinishMakes s.seat answer now → is_over (with_seat now s) ≡ true }
{
    lanes_keep_to_their_parts();
}

/// The laws of the crates below from which the clauses of a producer's calls follow, in one record.
fn lanes_keep_to_their_parts()
    ensures { PutLaws }
{
    cells_stand_once();
    lanes_refuse_by_what_was_done();
    parts_tell_lanes();
    accesses_lengthen_one_part();
    history_extends();
    parts_have_accesses();
    put_lists_grow();
}
