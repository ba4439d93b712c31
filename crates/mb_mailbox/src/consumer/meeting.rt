//! A load of the link before which a consumer stands on a lane, for a loop that keeps numbers in registers.
ghost use Rattle.std.specs.Prelude.{ℕ, ◌≡◌, ◌≢◌, ◌+◌, ◌<◌, ◌^◌, List, None, Some};
ghost use Rattle.arrayvec.specs.ArrayVec.{array_vec_len};
ghost use Rattle.mb_cells.specs.Vocabulary.{look_of};
ghost use Rattle.mb_cells.specs.declared.answer.Look.TheVariants as look;
ghost use Rattle.mb_mailbox.specs.Imports.{Stream};
ghost use Rattle.mb_mailbox.specs.ConsumerStep.{link_answer};
ghost use Rattle.mb_mailbox.specs.ConsumerWords.{AnswerTells, AreSteps, IsBeforeObject, IsConsumer, IsConsumerOf, at_link, with_fields};
ghost use Rattle.mb_world.specs.declared.place.Place.{Place};

use super::moves::{answers_tell_lanes, consumers_move_on, places_tell_steps};
use super::standing::claims_begin_objects;
use super::{ConsumerFields, Poll};
use crate::mailbox::Mailbox;
use mb_cells::Cursor;
use mb_cells::laws::looks_tell_links;
use std::alloc::Allocator;

/// Loads the link at this cursor, before which the consumer stands on the lane. `places` may be out of date there. The
/// caller passes the number of the mailbox's lanes, so that a loop can keep this number in a register.
#[inline(always)]
pub(super) fn meet<A: Allocator + Drop, B: Allocator + Drop>(
    fields: &mut ConsumerFields<A>,
    mailbox: &Mailbox<B>,
    lane: u32,
    at: Cursor,
    lanes: u32,
) -> u64
    requires is { IsConsumer (at_link lane at (with_fields fields.old)) }
    requires lane { lane < array_vec_len fields.old.places }
    requires belongs { IsConsumerOf mailbox.now (with_fields fields.old) }
    requires lanes { lanes ≡ mailbox.now.cells.size.lanes }

    // The load is one step on the lane, whatever the places are after it.
    ensures looks { (places : List Place) (t : Stream)
        → AreSteps lane 1 (link_answer (look_of result)) t t
        (at_link lane at (with_fields fields.old))
        (record (with_fields fields.new) { places = places }) }

    // If the link leads to no cell, the consumer stays before it, and `AnswerTells` holds of the answer.
    ensures waits { link_answer (look_of result) ≢ None
        → IsConsumer (at_link lane at (with_fields fields.new))
        × AnswerTells lane (link_answer (look_of result)) (at_link lane at (with_fields fields.old))
        (at_link lane at (with_fields fields.new)) }

    // If the link leads to a cell, the consumer is before the first object of a claim there.
    ensures finds { (k : ℕ) → look_of result ≡ look.Cell k
        → IsBeforeObject mailbox.now.claims.layout lane k 0 fields.new.seat.consumer
        (with_fields fields.new) }

    // Such a link is one more than the cell's number, and the mailbox has the cell. Numbers of cells are below 2^32.
    ensures within { (k : ℕ) → look_of result ≡ look.Cell k
        → (result ≡ k + 1) × (k < mailbox.now.cells.size.cells) }
    ensures few { mailbox.now.cells.size.cells < 2 ^ 32 }
    ensures seat { fields.new.seat ≡ fields.old.seat }
    ensures places { fields.new.places.items ≡ fields.old.places.items }
    ensures notes { fields.new.notes ≡ fields.old.notes }
    ensures belongs { IsConsumerOf mailbox.now (with_fields fields.new) }
{
    consumers_move_on();
    places_tell_steps();
    answers_tell_lanes();
    looks_tell_links();
    claims_begin_objects();
    fields.reader.has_history();

    // The contract of `ClaimSeat::consumer` says that the number is one of the mailbox's. So there is a claim for it.
    fields.seat.consumer();
    mailbox.cells.link(&mut fields.reader, at, lanes)
}

/// The answer of a poll at a link that leads to no cell.
#[inline(always)]
pub(super) fn answer_at(link: u64) -> Poll
    requires { (k : ℕ) → look_of link ≢ look.Cell k }
    ensures { link_answer (look_of link) ≡ Some result }
{
    if link == 0 {
        Poll::Nothing
    } else {
        Poll::Ended
    }
}
