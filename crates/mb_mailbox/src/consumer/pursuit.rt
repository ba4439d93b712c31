//! What a poll does with a claim. A claim that the consumer holds goes by steps, and is changed where `places` has it.
//! A new claim goes straight through whole objects, and `places` does not have it meanwhile.
ghost use Rattle.std.specs.Prelude.{ℕ, ◌≡◌, ◌≢◌, ◌+◌, ◌<◌, ◌≤◌, None, length, true};
ghost use Rattle.arrayvec.specs.ArrayVec.{array_vec_len};
ghost use Rattle.mb_claim.specs.declared.access.Stage.TheVariants as stage;
ghost use Rattle.mb_mailbox.specs.Imports.{Claim, IsStanding, Stream, claim_stage, most_accesses, part_on, shape_of};
ghost use Rattle.mb_mailbox.specs.ConsumerWords.{AreSteps, ConsumerView, HasAllRoom, HasPlace, IsBeforeObject, IsConsumer, IsConsumerOf};
ghost use Rattle.mb_mailbox.specs.ConsumerWords.{IsHolding, IsPursuit, holding, with_fields};
ghost use Rattle.mb_mailbox.specs.declared.consumer.Poll.TheVariants as poll;
ghost use Rattle.mb_world.specs.declared.place.Place.TheVariants.{At};

use super::competing::compete;
use super::moves::{consumers_move_on, places_tell_steps};
use super::places::{leave, stay, take};
use super::standing::{accesses_are_counted, claims_begin_objects};
use super::{ConsumerFields, Poll};
use crate::mailbox::Mailbox;
use mb_claim::{Claim, Stage, Stretch};
use mb_world::{Note, Place};
use rand_core::Rng;
use std::alloc::Allocator;

/// Goes on by steps with the claim that the consumer holds on this lane: to the claim's end and, if it is won, the load
/// of the item, or until it has made the accesses that are left. It takes the consumer's fields, not the consumer. The
/// claim is changed where `places` has it.
#[inline(always)]
pub(super) fn run_held<A: Allocator + Drop, B: Allocator + Drop, R: Rng>(
    fields: &mut ConsumerFields<A>,
    mailbox: &Mailbox<B>,
    lane: u32,
    left: &mut u64,
    rng: &mut R,
) -> Poll
    requires is { IsConsumer (with_fields fields.old) }
    requires lane { lane < array_vec_len fields.old.places }
    requires held { IsHolding lane (with_fields fields.old) }
    requires won { (k : ℕ) (claim : Claim) → HasPlace lane (At k claim) (with_fields fields.old)
        → claim_stage claim ≡ stage.Won → 0 < left.old }
    requires belongs { IsConsumerOf mailbox.now (with_fields fields.old) }
    requires wide { HasAllRoom fields.old.reader.table.size.cells fields.old.notes }

    // If the accesses before came to no answer, the poll is these accesses and those made here.
    ensures pursued { (from : ConsumerView) (n : ℕ) (t : Stream)
        → AreSteps lane n None t (R.stream rng.old) from (with_fields fields.old)
        → IsPursuit lane n left.old left.new result t (R.stream rng.new) from
        (with_fields fields.new) }
    ensures wide { HasAllRoom fields.new.reader.table.size.cells fields.new.notes }

    // If the poll is spent, `left` and the accesses made on the cell before are together no more than a claim may make.
    // If each cell has a last object, no claim ends undecided.
    ensures few { (k : ℕ) (claim : Claim) → HasPlace lane (At k claim) (with_fields fields.old)
        → result ≡ poll.Spent
        → left.old + length (part_on fields.old.seat.consumer k fields.old.seat.part)
        ≤ most_accesses mailbox.now.claims.layout }
    ensures decided { (shape_of mailbox.now.claims.layout).last ≡ true → result ≢ poll.Undecided }
{
    consumers_move_on();
    places_tell_steps();
    accesses_are_counted();
    let ConsumerFields {
        reader,
        seat,
        places,
        notes,
    } = fields;
    reader.has_history();
    let (cell, claim) = match &mut places.as_mut_slice()[lane as usize] {
        // This does not come: the consumer is at a cell.
        Place::Before(_) => return Poll::Spent,
        Place::At { cell, claim } => (*cell, claim),
    };
    if let Stage::Won = claim.stage() {
        *left -= 1;
        return Poll::Took(take(places, notes, reader, mailbox, lane, cell));
    }
    let stage = compete(&mailbox.claims, seat, claim, cell, rng, left);
    seat.has_history();
    match stage {
        Stage::Going => Poll::Spent,
        Stage::Won => {
            if *left != 0 {
                *left -= 1;
                return Poll::Took(take(places, notes, reader, mailbox, lane, cell));
            }
            Poll::Spent
        }
        Stage::Lost(w) => {
            leave(places, notes, lane, cell, Note::Lost(w));
            Poll::Lost(w)
        }
        Stage::Undecided => {
            leave(places, notes, lane, cell, Note::Undecided);
            Poll::Undecided
        }
    }
}

/// Makes the accesses of a new claim, with the clauses of [`run_held`]. It goes straight through whole objects as long
/// as the budget is enough for them. [`run_rest`] makes the other accesses. With no budget left the claim is only set
/// in `places`, which costs less here than in [`run_rest`].
#[inline(always)]
pub(super) fn run_new<A: Allocator + Drop, B: Allocator + Drop, R: Rng, const IN_TAKE: bool>(
    fields: &mut ConsumerFields<A>,
    mailbox: &Mailbox<B>,
    lane: u32,
    cell: u32,
    left: &mut u64,
    rng: &mut R,
) -> Poll
    requires held { IsBeforeObject mailbox.now.claims.layout lane cell 0 fields.old.seat.consumer
        (with_fields fields.old) }
    requires belongs { IsConsumerOf mailbox.now (with_fields fields.old) }
    requires wide { HasAllRoom fields.old.reader.table.size.cells fields.old.notes }
    ensures pursued { (from : ConsumerView) (n : ℕ) (t : Stream) (claim : Claim)
        → IsStanding mailbox.now.claims.layout fields.old.seat.consumer 0 fields.old.seat.consumer
        claim
        → AreSteps lane n None t (R.stream rng.old) from
        (holding lane cell claim (with_fields fields.old))
        → IsPursuit lane n left.old left.new result t (R.stream rng.new) from
        (with_fields fields.new) }
    ensures wide { HasAllRoom fields.new.reader.table.size.cells fields.new.notes }
    ensures few { result ≡ poll.Spent → left.old ≤ most_accesses mailbox.now.claims.layout }
    ensures decided { (shape_of mailbox.now.claims.layout).last ≡ true → result ≢ poll.Undecided }
{
    consumers_move_on();
    places_tell_steps();
    accesses_are_counted();
    claims_begin_objects();
    fields.reader.has_history();
    if *left == 0 {
        let consumer = fields.seat.consumer();
        let layout = mailbox.claims.layout();
        let claim = Claim::new(layout, consumer);
        stay(&mut fields.places, lane as usize, cell, claim);
        return Poll::Spent;
    }
    // One access is kept for the item.
    let room = *left - 1;
    let mut end = mailbox.claims.straight(&mut fields.seat, cell, rng, room);
    *left = end.left + 1;
    match end.stage {
        Stage::Won => {
            *left = end.left;
            let places = &mut fields.places;
            let notes = &mut fields.notes;
            Poll::Took(take(places, notes, &mut fields.reader, mailbox, lane, cell))
        }
        Stage::Lost(winner) => {
            let note = Note::Lost(winner);
            leave(&mut fields.places, &mut fields.notes, lane, cell, note);
            Poll::Lost(winner)
        }
        Stage::Undecided => {
            let note = Note::Undecided;
            leave(&mut fields.places, &mut fields.notes, lane, cell, note);
            Poll::Undecided
        }
        Stage::Going => {
            end.left = *left;
            let answer = run_rest(fields, mailbox, lane, cell, &mut end, rng);
            *left = end.left;
            answer
        }
    }
}

/// Goes on with a claim from where its straight accesses ended, with the clauses of [`run_held`]. From there on
/// `places` has the claim. `end.left` is the budget.
#[inline(always)]
fn run_rest<A: Allocator + Drop, B: Allocator + Drop, R: Rng>(
    fields: &mut ConsumerFields<A>,
    mailbox: &Mailbox<B>,
    lane: u32,
    cell: u32,
    end: &mut Stretch,
    rng: &mut R,
) -> Poll
    requires held { IsBeforeObject mailbox.now.claims.layout lane cell end.old.object
        end.old.value (with_fields fields.old) }
    requires belongs { IsConsumerOf mailbox.now (with_fields fields.old) }
    requires wide { HasAllRoom fields.old.reader.table.size.cells fields.old.notes }
    ensures pursued { (from : ConsumerView) (n : ℕ) (t : Stream) (claim : Claim)
        → IsStanding mailbox.now.claims.layout fields.old.seat.consumer end.old.object
        end.old.value claim
        → AreSteps lane n None t (R.stream rng.old) from
        (holding lane cell claim (with_fields fields.old))
        → IsPursuit lane n end.old.left end.new.left result t (R.stream rng.new) from
        (with_fields fields.new) }
    ensures wide { HasAllRoom fields.new.reader.table.size.cells fields.new.notes }
    ensures few { result ≡ poll.Spent
        → end.old.left + length (part_on fields.old.seat.consumer cell fields.old.seat.part)
        ≤ most_accesses mailbox.now.claims.layout }
    ensures decided { (shape_of mailbox.now.claims.layout).last ≡ true → result ≢ poll.Undecided }
{
    consumers_move_on();
    claims_begin_objects();
    fields.reader.has_history();
    let consumer = fields.seat.consumer();
    let layout = mailbox.claims.layout();
    let claim = Claim::standing(layout, consumer, end.object, end.value);
    stay(&mut fields.places, lane as usize, cell, claim);
    run_held(fields, mailbox, lane, &mut end.left, rng)
}
