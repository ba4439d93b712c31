//! The producers and consumers that are issued for a run, in order.
ghost use Rattle.std.specs.Prelude.{◌≡◌, ◌+◌, ◌<◌, ◌≤◌, [], false, length, true, vec_capacity, vec_len};
ghost use Rattle.std.specs.List.{All};
ghost use Rattle.mb_mailbox.specs.Imports.{consumer_count};
ghost use Rattle.mb_mailbox.specs.Hubs.{IsHubOf};
ghost use Rattle.mb_mailbox.specs.Issued.{AreAllIssued, AreIssuedEarly, ArePollsIssued, ArePutsIssued, ArePutsIssuedEarly};
ghost use Rattle.mb_mailbox.specs.Runs.{HasRoom, IsJobOf};

use super::jobs::{Job, PollJob, PutJob};
use crate::hub::{Hub, HubFault};
use crate::mailbox::Mailbox;
use rand_core::Rng;
use std::alloc::Allocator;

/// Issues a producer for each list, in order, and adds its job to `jobs`, which has room for all. If the allocator
/// refuses what one of them needs, this stops there and returns `false`.
pub(super) fn issue_producers<R: Drop, A: Allocator + Clone + Drop, B: Allocator + Drop>(
    alloc: &A,
    mailbox: &Mailbox<B>,
    hub: &mut Hub<A>,
    items: Vec<Vec<u64, A>, A>,
    jobs: &mut Vec<Job<R, A>, A>,
) -> bool
    requires belongs { IsHubOf mailbox.now hub.old }
    requires left { length hub.old.puts + vec_len items ≤ mailbox.now.cells.size.lanes }
    requires room { HasRoom (vec_len items) jobs.old }
    ensures early { ArePutsIssuedEarly mailbox.now items.items jobs.new.items hub.old hub.new }
    ensures all { result ≡ true
        → ArePutsIssued mailbox.now items.items jobs.new.items hub.old hub.new }
    ensures jobs { All (IsJobOf mailbox.now) jobs.new.items }
    ensures few { vec_len jobs.new ≤ vec_len items }
    ensures fewer { result ≡ false → vec_len jobs.new < vec_len items }
    ensures room { vec_capacity jobs.new ≡ vec_capacity jobs.old }
    ensures belongs { IsHubOf mailbox.now hub.new }
{
    for list in items {
        let Ok(theirs) = alloc.clone() else {
            return false;
        };
        match hub.producer(theirs, mailbox) {
            Ok(producer) => jobs.push_reserved(Job::Put(PutJob { producer, list })),
            Err(HubFault::NoMemory) => return false,
            Err(HubFault::AllGiven) => unreachable!(),
        }
    }
    true
}

/// Issues a consumer for each source, in order, and adds its job to `jobs`, which has room for all. If the allocator
/// refuses what one of them needs, this stops there and returns `false`.
pub(super) fn issue_consumers<R: Rng + Drop, A: Allocator + Clone + Drop, B: Allocator + Drop>(
    alloc: &A,
    mailbox: &Mailbox<B>,
    hub: &mut Hub<A>,
    rngs: Vec<R, A>,
    jobs: &mut Vec<Job<R, A>, A>,
) -> bool
    requires belongs { IsHubOf mailbox.now hub.old }
    requires left { length hub.old.records + vec_len rngs ≤ consumer_count
        mailbox.now.claims.layout }
    requires jobs { All (IsJobOf mailbox.now) jobs.old.items }
    requires room { vec_len jobs.old + vec_len rngs ≤ vec_capacity jobs.old }
    ensures given { ArePollsIssued mailbox.now rngs.items result jobs.old.items jobs.new.items
        hub.old hub.new }
    ensures jobs { All (IsJobOf mailbox.now) jobs.new.items }
    ensures few { vec_len jobs.new ≤ vec_len jobs.old + vec_len rngs }
    ensures fewer { result ≡ false → vec_len jobs.new < vec_len jobs.old + vec_len rngs }
    ensures belongs { IsHubOf mailbox.now hub.new }
{
    for rng in rngs {
        let Ok(theirs) = alloc.clone() else {
            return false;
        };
        match hub.consumer(theirs, mailbox) {
            Ok(consumer) => jobs.push_reserved(Job::Poll(PollJob { consumer, rng })),
            Err(HubFault::NoMemory) => return false,
            Err(HubFault::AllGiven) => unreachable!(),
        }
    }
    true
}

/// Issues a producer for each list and then a consumer for each source. If the allocator refuses what one of them
/// needs, this stops there and returns `false`.
pub(super) fn give<R: Rng + Drop, A: Allocator + Clone + Drop, B: Allocator + Drop>(
    alloc: &A,
    mailbox: &Mailbox<B>,
    hub: &mut Hub<A>,
    items: Vec<Vec<u64, A>, A>,
    rngs: Vec<R, A>,
    jobs: &mut Vec<Job<R, A>, A>,
) -> bool
    requires belongs { IsHubOf mailbox.now hub.old }
    requires lanes { length hub.old.puts + vec_len items ≤ mailbox.now.cells.size.lanes }
    requires consumers { length hub.old.records + vec_len rngs ≤ consumer_count
        mailbox.now.claims.layout }
    requires room { HasRoom (vec_len items + vec_len rngs) jobs.old }
    ensures early { AreIssuedEarly mailbox.now items.items (vec_len rngs) jobs.new.items hub.old
        hub.new }
    ensures all { result ≡ true
        → AreAllIssued mailbox.now items.items rngs.items jobs.new.items hub.old hub.new }
    ensures jobs { All (IsJobOf mailbox.now) jobs.new.items }
    ensures few { vec_len jobs.new ≤ vec_len items + vec_len rngs }
    ensures fewer { result ≡ false → vec_len jobs.new < vec_len items + vec_len rngs }
    ensures belongs { IsHubOf mailbox.now hub.new }
{
    if !issue_producers(alloc, mailbox, hub, items, jobs) {
        return false;
    }
    issue_consumers(alloc, mailbox, hub, rngs, jobs)
}
