//! The calls of a producer and of a consumer.
ghost use Rattle.std.specs.Prelude.{◌≡◌, ◌≢◌, ◌↔◌, ◌⊎◌, ◌<◌, ◌≤◌, ◌+◌, ◌*◌, ℕ, Some, false, true};
ghost use Rattle.mb_claim.specs.Vocabulary.{most_accesses};
ghost use Rattle.mb_mailbox.specs.declared.consumer.Poll.{Poll};
ghost use Rattle.mb_mailbox.specs.declared.consumer.Poll.TheVariants.{NoLane, Spent, Undecided};
ghost use Rattle.mb_mailbox.specs.Came.{PollCameTo, TakeCameTo};
ghost use Rattle.mb_mailbox.specs.Producers.{FoundNoCell, HasNoCellFor, IsEndOfLane};
ghost use Rattle.mb_mailbox.specs.Producers.{IsPutInto, is_over};
ghost use Rattle.hazbultra.specs.Calls.{ConsumerAnswered, ConsumerMade, ConsumerWent, IsProducer};
ghost use Rattle.hazbultra.specs.Calls.{ProducerMade, ProducerWent, answer_told, words_of};
ghost use Rattle.hazbultra.specs.declared.codes.TheConstants.{BAD_HANDLE, CLOSED, DONE};
ghost use Rattle.hazbultra.specs.declared.codes.TheConstants.{FULL, LINKED, LOST, NO_LANE};
ghost use Rattle.hazbultra.specs.declared.codes.TheConstants.{SPENT, TOOK, UNDECIDED};

use crate::codes::{
    BAD_HANDLE, CLOSED, DONE, ENDED, FULL, LINKED, LOST, NO_LANE, NOTHING, SPENT, TOOK, UNDECIDED,
};
use crate::handle::Handle;
use crate::thing::{Thing, Zeros};
use mb_cells::Finish;
use mb_mailbox::{Poll, Put};

/// Puts an item. The call returns `LINKED` if it was put, `FULL` if there was no cell for it, `CLOSED` if the lane had
/// ended, and `BAD_HANDLE` if the handle leads to no producer.
#[unsafe(no_mangle)]
pub extern "C" fn hz_put(producer: &mut Handle, item: u64) -> u32
    ensures linked { result ≡ LINKED
        → ProducerWent (λ p q. (k : ℕ) × IsPutInto k item p.producer q.producer)
        producer.old.block.thing producer.new.block.thing }
    ensures full { result ≡ FULL
        → ProducerWent (λ p q. HasNoCellFor item p.producer q.producer)
        producer.old.block.thing producer.new.block.thing }
    ensures closed { result ≡ CLOSED
        → ProducerWent (λ p q. (q ≡ p) × (is_over p.producer ≡ true))
        producer.old.block.thing producer.new.block.thing }
    ensures over { ProducerMade (λ p. is_over p.producer ≡ true) producer.old.block.thing
        → result ≡ CLOSED }
    ensures stays_full { ProducerMade (λ p. FoundNoCell p.producer × (is_over p.producer ≡ false))
        producer.old.block.thing → result ≡ FULL }
    ensures bad { result ≡ BAD_HANDLE → IsProducer producer.old.block.thing → ⊥ }
    ensures same { result ≡ BAD_HANDLE → producer.new.block.thing ≡ producer.old.block.thing }
    ensures codes { (result ≡ LINKED) ⊎ (result ≡ FULL) ⊎ (result ≡ CLOSED)
        ⊎ (result ≡ BAD_HANDLE) }
{
    let Some(opened) = producer.lend() else {
        return BAD_HANDLE;
    };
    match opened {
        Thing::OfProducer(bound) => match bound.put(item) {
            Put::Linked => LINKED,
            Put::Full => FULL,
            Put::Closed => CLOSED,
        },
        _ => BAD_HANDLE,
    }
}

/// Ends the lane. The call returns `DONE` if it did so, `CLOSED` if the lane had ended before, and `BAD_HANDLE` if the
/// handle leads to no producer.
#[unsafe(no_mangle)]
pub extern "C" fn hz_finish(producer: &mut Handle) -> u32
    ensures done { result ≡ DONE → ProducerWent (λ p q. IsEndOfLane p.producer q.producer)
        producer.old.block.thing producer.new.block.thing }
    ensures closed { result ≡ CLOSED
        → ProducerWent (λ p q. (q ≡ p) × (is_over p.producer ≡ true))
        producer.old.block.thing producer.new.block.thing }
    ensures over { ProducerMade (λ p. is_over p.producer ≡ true) producer.old.block.thing
        → result ≡ CLOSED }
    ensures bad { result ≡ BAD_HANDLE → IsProducer producer.old.block.thing → ⊥ }
    ensures same { result ≡ BAD_HANDLE → producer.new.block.thing ≡ producer.old.block.thing }
    ensures codes { (result ≡ DONE) ⊎ (result ≡ CLOSED) ⊎ (result ≡ BAD_HANDLE) }
{
    let Some(opened) = producer.lend() else {
        return BAD_HANDLE;
    };
    match opened {
        Thing::OfProducer(bound) => match bound.finish() {
            Finish::Ended => DONE,
            Finish::Closed => CLOSED,
            Finish::Busy => unreachable!(),
        },
        _ => BAD_HANDLE,
    }
}

/// Polls a lane, with at most `budget` accesses. `value` becomes the item taken, or the number of the consumer to which
/// the item is lost. Else `value` is not written. The code is that of the result, or `BAD_HANDLE` if the handle leads
/// to no consumer.
#[unsafe(no_mangle)]
pub extern "C" fn hz_poll(consumer: &mut Handle, lane: u64, budget: u64, value: &mut u64) -> u32
    // What the code and `value` tell is the result of a poll with the next random words of the consumer's source.
    ensures came { (answer : Poll) → answer_told result value.new ≡ Some answer
        → ConsumerWent (λ c d. PollCameTo c.consumer.mailbox lane budget answer
        (words_of c.source) (words_of d.source) c.consumer.consumer d.consumer.consumer)
        consumer.old.block.thing consumer.new.block.thing }
    ensures unspent { result ≡ SPENT → ConsumerMade (λ c.
        budget < most_accesses c.consumer.mailbox.claims.layout + 2) consumer.old.block.thing }
    ensures answered { ConsumerAnswered result value.new lane consumer.old.block.thing
        consumer.new.block.thing }
    ensures kept { result ≢ TOOK → result ≢ LOST → value.new ≡ value.old }
{
    let Some(opened) = consumer.lend() else {
        return BAD_HANDLE;
    };
    match opened {
        Thing::OfConsumer(seeded) => match &mut seeded.source {
            Some(source) => tell(seeded.consumer.poll(lane, budget, source), value),
            None => tell(seeded.consumer.poll(lane, budget, &mut Zeros), value),
        },
        _ => BAD_HANDLE,
    }
}

/// Takes an item of a lane, past those that the consumer loses, with at most `most` accesses. `value` becomes the item
/// taken. Else it is not written. The code is that of the result, or `BAD_HANDLE` if the handle leads to no consumer.
/// It is never `LOST`.
#[unsafe(no_mangle)]
pub extern "C" fn hz_take(consumer: &mut Handle, lane: u64, most: u64, value: &mut u64) -> u32
    // What the code and `value` tell is the result of a take with the next random words of the consumer's source.
    ensures came { (answer : Poll) → answer_told result value.new ≡ Some answer
        → ConsumerWent (λ c d. TakeCameTo c.consumer.mailbox lane most answer
        (words_of c.source) (words_of d.source) c.consumer.consumer d.consumer.consumer)
        consumer.old.block.thing consumer.new.block.thing }
    ensures unspent { result ≡ SPENT → ConsumerMade (λ c.
        most ≤ (most_accesses c.consumer.mailbox.claims.layout + 1)
        * (c.consumer.mailbox.cells.size.cells + 1)) consumer.old.block.thing }
    ensures answered { ConsumerAnswered result value.new lane consumer.old.block.thing
        consumer.new.block.thing }
    ensures kept { result ≢ TOOK → value.new ≡ value.old }
    ensures not_lost { result ≢ LOST }
{
    let Some(opened) = consumer.lend() else {
        return BAD_HANDLE;
    };
    match opened {
        Thing::OfConsumer(seeded) => match &mut seeded.source {
            Some(source) => tell(seeded.consumer.take(lane, most, source), value),
            None => tell(seeded.consumer.take(lane, most, &mut Zeros), value),
        },
        _ => BAD_HANDLE,
    }
}

/// Writes the value of a poll's result, if it has one, and returns the result's code.
#[inline(always)]
fn tell(answer: Poll, value: &mut u64) -> u32
    ensures told { answer_told result value.new ≡ Some answer }
    ensures kept { result ≢ TOOK → result ≢ LOST → value.new ≡ value.old }
    ensures spent { result ≡ SPENT → answer ≡ Spent }
    ensures undecided { result ≡ UNDECIDED → answer ≡ Undecided }
    ensures no_lane { (result ≡ NO_LANE) ↔ (answer ≡ NoLane) }
{
    match answer {
        Poll::Took(item) => {
            *value = item;
            TOOK
        }
        Poll::Lost(other) => {
            *value = u64::from(other);
            LOST
        }
        Poll::Undecided => UNDECIDED,
        Poll::Nothing => NOTHING,
        Poll::Ended => ENDED,
        Poll::Spent => SPENT,
        Poll::NoLane => NO_LANE,
    }
}
