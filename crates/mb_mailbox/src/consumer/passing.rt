//! Goes past items that are lost, if each cell has a last object alone. Then a claim is one exchange. A variable has
//! the cursor meanwhile, and the consumer's place on the lane is out of date.
ghost use Rattle.std.specs.Prelude.{ℕ, ◌≡◌, ◌≢◌, ◌+◌, ◌<◌, [], ◌∷◌, None};
ghost use Rattle.arrayvec.specs.ArrayVec.{array_vec_len};
ghost use Rattle.mb_cells.specs.declared.cursor.Cursor.TheVariants.{Past};
ghost use Rattle.mb_deciding.specs.declared.object.Kind.TheVariants.{LastObject};
ghost use Rattle.mb_mailbox.specs.Imports.{Claim, IsStanding, Stream, kinds_of};
ghost use Rattle.mb_mailbox.specs.ConsumerWords.{AreSteps, ConsumerView, HasAllRoom, HasPlace, IsBeforeObject, IsConsumer, IsConsumerOf};
ghost use Rattle.mb_mailbox.specs.ConsumerWords.{IsPursuit, at_link, claim_takes, holding, with_fields};
ghost use Rattle.mb_mailbox.specs.Came.{HasGonePast};
ghost use Rattle.mb_mailbox.specs.declared.consumer.Poll.TheVariants as poll;
ghost use Rattle.mb_world.specs.declared.place.Place.TheVariants.{Before};

use super::meeting::{answer_at, meet};
use super::moves::{consumers_move_on, places_tell_steps};
use super::places::stand;
use super::{ConsumerFields, Poll};
use crate::mailbox::Mailbox;
use mb_cells::Cursor;
use mb_claim::Stage;
use mb_world::Note;
use rand_core::Rng;
use std::alloc::Allocator;

/// Makes the exchange of a new claim, and loads the item if the claim is won. It adds the note. The consumer is past
/// the cell then, but `places` is not changed, so its place on the lane is out of date. The caller passes the
/// consumer's number, so that a loop can keep this number in a register.
#[inline(always)]
fn settle<A: Allocator + Drop, B: Allocator + Drop, R: Rng>(
    fields: &mut ConsumerFields<A>,
    mailbox: &Mailbox<B>,
    lane: u32,
    cell: u32,
    number: u32,
    rng: &mut R,
) -> Poll
    requires held { IsBeforeObject mailbox.now.claims.layout lane cell 0 fields.old.seat.consumer
        (with_fields fields.old) }
    requires belongs { IsConsumerOf mailbox.now (with_fields fields.old) }
    requires wide { HasAllRoom fields.old.reader.table.size.cells fields.old.notes }
    requires alone { kinds_of mailbox.now.claims.layout ≡ LastObject ∷ [] }
    requires number { number ≡ fields.old.seat.consumer }
    ensures pursued { (from : ConsumerView) (n left : ℕ) (t : Stream) (claim : Claim)
        → IsStanding mailbox.now.claims.layout fields.old.seat.consumer 0 fields.old.seat.consumer
        claim
        → AreSteps lane n None t (R.stream rng.old) from
        (holding lane cell claim (with_fields fields.old))
        → IsPursuit lane n (claim_takes result + left) left result t (R.stream rng.new) from
        (at_link lane (Past cell) (with_fields fields.new)) }
    ensures wide { HasAllRoom fields.new.reader.table.size.cells fields.new.notes }
    ensures places { fields.new.places.items ≡ fields.old.places.items }
    ensures number { number ≡ fields.new.seat.consumer }
    ensures ends { (result ≢ poll.Spent) × (result ≢ poll.Undecided) }
{
    consumers_move_on();
    places_tell_steps();
    fields.reader.has_history();
    let stage = mailbox
        .claims
        .exchange(&mut fields.seat, number, cell, rng.next_u64());
    match stage {
        Stage::Lost(winner) => {
            fields.notes.push(lane, Note::Lost(winner));
            Poll::Lost(winner)
        }
        _ => {
            let item = mailbox.cells.item(&mut fields.reader, cell);
            fields.notes.push(lane, Note::Took(item));
            Poll::Took(item)
        }
    }
}

/// Goes on past items that the consumer loses, from this cursor on, as long as the most accesses for an item, three,
/// are left. If a poll's answer is no loss, returns that answer. The place on the lane is up to date again at the end.
// After an atomic step the compiler reads memory anew. So variables have the numbers of lanes, of cells and of the
// consumer.
#[inline(always)]
pub(super) fn pass<A: Allocator + Drop, B: Allocator + Drop, R: Rng>(
    fields: &mut ConsumerFields<A>,
    mailbox: &Mailbox<B>,
    lane: u32,
    first: Cursor,
    left: &mut u64,
    rng: &mut R,
) -> Option<Poll>
    requires is { IsConsumer (with_fields fields.old) }
    requires place { HasPlace lane (Before first) (with_fields fields.old) }
    requires lane { lane < array_vec_len fields.old.places }
    requires belongs { IsConsumerOf mailbox.now (with_fields fields.old) }
    requires wide { HasAllRoom fields.old.reader.table.size.cells fields.old.notes }
    requires alone { kinds_of mailbox.now.claims.layout ≡ LastObject ∷ [] }
    ensures gone { HasGonePast lane left.old left.new result (R.stream rng.old) (R.stream rng.new)
        (with_fields fields.old) (with_fields fields.new) }
    ensures is { IsConsumer (with_fields fields.new) }
    ensures belongs { IsConsumerOf mailbox.now (with_fields fields.new) }
    ensures wide { HasAllRoom fields.new.reader.table.size.cells fields.new.notes }
{
    let size = mailbox.cells.size();
    let number = fields.seat.consumer();
    // Each loss takes two accesses. One access is for an item.
    let most = left.saturating_sub(1) / 2;
    let mut more = most;
    let mut at = first;
    'items: while more != 0 {
        let link = meet(fields, mailbox, lane, at, size.lanes);
        // One comparison tells whether the link leads to a cell.
        let cell = link.wrapping_sub(1);
        if cell >= u64::from(size.cells) {
            return Some(stop(fields, lane, at, answer_at(link)));
        }
        let cell = cell as u32;
        at = Cursor::past(cell);
        match settle(fields, mailbox, lane, cell, number, rng) {
            Poll::Lost(_) => more -= 1,
            answer => return Some(stop(fields, lane, at, answer)),
        }
    }
    stand(&mut fields.places, lane as usize, at);
    *left -= 2 * most;
    None
}

/// Makes the place on the lane be before the link at this cursor, and returns the answer.
#[inline(always)]
fn stop<A: Allocator + Drop>(
    fields: &mut ConsumerFields<A>,
    lane: u32,
    at: Cursor,
    answer: Poll,
) -> Poll
    requires { lane < array_vec_len fields.old.places }
    ensures answer { result ≡ answer }
    ensures view { with_fields fields.new ≡ at_link lane at (with_fields fields.old) }
    ensures notes { fields.new.notes ≡ fields.old.notes }
    ensures lane { lane < array_vec_len fields.new.places }
{
    stand(&mut fields.places, lane as usize, at);
    answer
}
