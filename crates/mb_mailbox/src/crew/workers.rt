//! What a worker does: it puts a list and ends the lane, or it polls lanes.
ghost use Rattle.std.specs.Prelude.{ℕ, suc, ◌≡◌, ◌≢◌, ◌+◌, ◌<◌, ◌≤◌, ◌⊎◌, [], IfNone, IfSome, false, length, slice_index_or, slice_set, take, true};
ghost use Rattle.mb_mailbox.specs.Calls.{ArePassed};
ghost use Rattle.mb_mailbox.specs.Consumers.{IsConsumerOf};
ghost use Rattle.mb_mailbox.specs.declared.gate.Who.TheVariants as who;
ghost use Rattle.mb_mailbox.specs.Jobs.{HasReadMarked, IsOnLanes, IsPollEnd, IsPutEnd, IsSameConsumer, IsStopBefore, accesses_made, count_marks, ends_met};
ghost use Rattle.mb_mailbox.specs.Runs.{IsEnd, IsJobOf};
ghost use Rattle.mb_mailbox.specs.Producers.{FoundNoCell, IsProducerOf, IsSameLane, is_over};
ghost use Rattle.mb_mailbox.specs.Steps.{IsPollOf};

use super::ends::ends_are_kept;
use super::jobs::{Done, Job, Lanes, PollDone, PollJob, PutDone, PutJob};
use crate::consumer::{Consumer, Poll};
use crate::gate::{Gate, Who};
use crate::mailbox::Mailbox;
use crate::producer::{Producer, Put};
use rand_core::Rng;
use std::alloc::Allocator;
use std::sync::OnceLock;
use std::thread::yield_now;

/// What came of a list: how many items were put, and whether the producer was stopped before the end of the list.
/// `aborted` says whether it was stopped because the run is aborted.
#[derive(Clone, Copy)]
struct Linked {
    count: usize,
    stopped: bool,
    aborted: bool,
}

/// Puts items in order, up to the first that finds no cell. This stops before a put if the gate does not let the worker
/// through, or if the run is aborted.
fn put_items<A: Allocator + Drop, B: Allocator + Drop, G: Gate>(
    mailbox: &Mailbox<B>,
    producer: &mut Producer<A>,
    items: &[u64],
    gate: &G,
    abort: &OnceLock<()>,
) -> Linked
    requires belongs { IsProducerOf mailbox.now producer.old }
    requires fresh { producer.old.items ≡ [] }
    requires begun { is_over producer.old ≡ false }
    ensures linked { result.count ≤ length items.now }
    ensures items { producer.new.items ≡ take result.count items.now }
    ensures lane { IsSameLane producer.old producer.new }
    ensures begun { is_over producer.new ≡ false }
    ensures found { result.stopped ≡ false → result.count ≢ length items.now
        → FoundNoCell producer.new }
    ensures stopped { result.stopped ≡ true → result.count < length items.now }
    ensures stop { result.stopped ≡ true → result.aborted ≡ false
        → IsStopBefore (G.may_stop gate.now) (who.Producer producer.old.seat.lane)
        (suc result.count) }
    ensures had_cells { result.stopped ≡ true → FoundNoCell producer.new
        → FoundNoCell producer.old }
    ensures passed { ArePassed (G.may_pass gate.now) (who.Producer producer.old.seat.lane)
        result.count }
    ensures passed_full { result.stopped ≡ false → result.count ≢ length items.now
        → G.may_pass gate.now (who.Producer producer.old.seat.lane) (suc result.count) }
{
    let who = Who::Producer(producer.seat.lane());
    for (i, item) in items.iter().enumerate() {
        if abort.get().is_some() {
            return Linked {
                count: i,
                stopped: true,
                aborted: true,
            };
        }
        let call = i as u64 + 1;
        if call == u64::MAX || !gate.enter(who, call) {
            return Linked {
                count: i,
                stopped: true,
                aborted: false,
            };
        }
        let put = producer.put(mailbox, *item);
        gate.leave(who, call);
        if put != Put::Linked {
            return Linked {
                count: i,
                stopped: false,
                aborted: false,
            };
        }
    }
    Linked {
        count: items.len(),
        stopped: false,
        aborted: false,
    }
}

/// Puts the list in order, up to the first item that finds no cell or to a stop, and ends the lane.
fn put_list<A: Allocator + Drop, B: Allocator + Drop, G: Gate>(
    mailbox: &Mailbox<B>,
    job: PutJob<A>,
    gate: &G,
    abort: &OnceLock<()>,
) -> PutDone<A>
    requires belongs { IsProducerOf mailbox.now job.producer }
    ensures { IsPutEnd (G.may_stop gate.now) (G.may_pass gate.now) job result }
{
    let PutJob { mut producer, list } = job;
    let Linked {
        count,
        stopped,
        aborted,
    } = put_items(mailbox, &mut producer, &list, gate, abort);
    producer.finish(mailbox);
    let full = if stopped {
        0
    } else {
        (list.len() - count) as u64
    };
    PutDone {
        producer,
        full,
        stopped,
        aborted,
    }
}

/// The first lane not marked in `ended`, from `at` on and below `end`, else from `from` on. `None` if all are marked.
fn next_lane(ended: &[bool], at: u32, from: u32, end: u32) -> Option<u32>
    requires at { at ≤ end }
    requires few { end ≤ length ended.now }
    ensures some { IfSome result (λ p. (p < end) × (slice_index_or ended.now p true ≡ false)) }
    ensures low { IfSome result (λ p. from ≤ p) }
    ensures none { IfNone result ((p : ℕ) → from ≤ p → p < end → slice_index_or ended.now p true
        ≡ true) }
{
    for lane in at.max(from)..end {
        if !ended[lane as usize] {
            return Some(lane);
        }
    }
    for lane in from..at.min(end) {
        if !ended[lane as usize] {
            return Some(lane);
        }
    }
    None
}

/// Marks this lane: it has ended.
fn mark(ended: &mut [bool; 16], lane: u32)
    requires { lane < 16 }
    ensures { ended.new ≡ slice_set ended.old lane true }
{
    ended[lane as usize] = true;
}

/// Polls a lane that is not marked, and marks it if the answer is `Ended`.
fn poll_lane<A: Allocator + Drop, B: Allocator + Drop, R: Rng>(
    mailbox: &Mailbox<B>,
    consumer: &mut Consumer<A>,
    lane: u32,
    budget: u64,
    rng: &mut R,
    ended: &mut [bool; 16],
) -> Poll
    requires belongs { IsConsumerOf mailbox.now consumer.old }
    requires few { (lane < mailbox.now.cells.size.lanes) × (lane < 16) }
    requires unmarked { slice_index_or ended.old lane true ≡ false }
    requires read { HasReadMarked ended.old consumer.old }
    requires able { 0 < budget }
    ensures made { accesses_made consumer.old < accesses_made consumer.new }
    ensures most { accesses_made consumer.new ≤ accesses_made consumer.old + budget }
    ensures read { HasReadMarked ended.new consumer.new }
    ensures only { (from end : ℕ) → from ≤ lane → lane < end
        → IsOnLanes from end consumer.old.reader.part
        → IsOnLanes from end consumer.new.reader.part }
    ensures marks { (p : ℕ) → slice_index_or ended.new p false ≡ true
        → (p ≡ lane) ⊎ (slice_index_or ended.old p false ≡ true) }
    ensures ends { ends_met consumer.new.reader.part + count_marks ended.old
        ≡ ends_met consumer.old.reader.part + count_marks ended.new }
    ensures polled { IsPollOf lane budget result (R.stream rng.old) (R.stream rng.new)
        consumer.old consumer.new }
    ensures same { IsSameConsumer consumer.old consumer.new }
    ensures belongs { IsConsumerOf mailbox.now consumer.new }
{
    ends_are_kept();
    let poll = consumer.poll(mailbox, lane as u64, budget, rng);
    consumer.keeps_its_parts();
    if let Poll::Ended = poll {
        mark(ended, lane);
    }
    poll
}

/// How many of the latest polls, up to `poll`, have all returned `Nothing` since the last yield. Before `poll` there
/// were `idle`. Once they are more than `lanes`, the thread yields, and the count is 0 again.
fn rest(poll: Poll, idle: u32, lanes: u32) -> u32 {
    match poll {
        Poll::Nothing if idle < lanes => idle + 1,
        Poll::Nothing => {
            yield_now();
            0
        }
        _ => 0,
    }
}

/// Polls the lanes round and round, each until it has ended, or until the consumer is stopped.
fn poll_lanes<A: Allocator + Drop, B: Allocator + Drop, R: Rng + Drop, G: Gate>(
    mailbox: &Mailbox<B>,
    job: PollJob<R, A>,
    lanes: Lanes,
    gate: &G,
    abort: &OnceLock<()>,
) -> PollDone<A>
    requires belongs { IsConsumerOf mailbox.now job.consumer }
    requires few { lanes.end ≤ mailbox.now.cells.size.lanes }
    ensures { IsPollEnd (G.may_stop gate.now) (G.may_pass gate.now) lanes.from lanes.end
        lanes.budget
        (R.stream job.rng) job.consumer result }
{
    let Lanes { from, end, budget } = lanes;
    let PollJob {
        mut consumer,
        mut rng,
    } = job;
    let who = Who::Consumer(consumer.fields.seat.consumer());
    let mut ended = [false; 16];
    let mut at = from;
    let mut idle = 0;
    for call in 1..u64::MAX {
        let Some(lane) = next_lane(&ended, at, from, end) else {
            return PollDone {
                consumer,
                stopped: false,
                aborted: false,
            };
        };
        if abort.get().is_some() {
            return PollDone {
                consumer,
                stopped: true,
                aborted: true,
            };
        }
        if !gate.enter(who, call) {
            break;
        }
        let poll = poll_lane(mailbox, &mut consumer, lane, budget, &mut rng, &mut ended);
        gate.leave(who, call);
        idle = rest(poll, idle, end);
        at = lane + 1;
    }
    // The gate refused a call, or call 2^64 - 2 was made. The last call may have read the last lane to its end.
    let stopped = next_lane(&ended, at, from, end).is_some();
    PollDone {
        consumer,
        stopped,
        aborted: false,
    }
}

/// Does this job: puts the list and ends the lane, or polls the lanes.
pub(super) fn do_job<A: Allocator + Drop, B: Allocator + Drop, R: Rng + Drop, G: Gate>(
    mailbox: &Mailbox<B>,
    job: Job<R, A>,
    lanes: Lanes,
    gate: &G,
    abort: &OnceLock<()>,
) -> Done<A>
    requires belongs { IsJobOf mailbox.now job }
    requires few { lanes.end ≤ mailbox.now.cells.size.lanes }
    ensures { IsEnd (G.may_stop gate.now) (G.may_pass gate.now) R.stream lanes job result }
{
    match job {
        Job::Put(put) => Done::Put(put_list(mailbox, put, gate, abort)),
        Job::Poll(poll) => Done::Poll(poll_lanes(mailbox, poll, lanes, gate, abort)),
    }
}
