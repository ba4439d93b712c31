//! Workers in threads: producers that each put a list, and consumers that poll until all lanes of these producers
//! have ended.
ghost use Rattle.std.specs.Prelude.{◌≡◌, ◌≢◌, ◌↔◌, ◌+◌, ◌-◌, ◌^◌, ◌<◌, ◌≤◌, ◌⊎◌, Err, IfErr, IfOk, IsOk, length, map, min, vec_len};
ghost use Rattle.std.specs.List.{sum_by};
ghost use Rattle.mb_mailbox.specs.declared.crew.WorkFault.TheVariants.{AllGiven, BadBudget, NoMemory, NoThread};
ghost use Rattle.mb_mailbox.specs.Imports.{consumer_count};
ghost use Rattle.mb_mailbox.specs.Called.{IsCalled};
ghost use Rattle.mb_mailbox.specs.Hubs.{HubView, IsHubOf};
ghost use Rattle.mb_mailbox.specs.Runs.{HasRoom};
ghost use Rattle.mb_mailbox.specs.Worked.{AsksTooMany, IsWorked, WereTakenIn, WereTakenInEarly, lists_in};

mod collect;
mod ends;
mod issue;
mod jobs;
mod join;
mod room;
mod spawn;
mod threads;
mod worker;
mod workers;

use crate::gate::Gate;
use crate::hub::Hub;
use crate::mailbox::Mailbox;
use collect::settle;
use ends::ends_tell_notes;
use issue::give;
use jobs::{Lanes, Shared};
use rand_core::Rng;
use room::{RunMemory, memory_for_run};
use std::alloc::Allocator;
use std::error::Error;
use std::fmt;
use std::sync::{OnceLock, Wait};
use std::thread::Threads;
use threads::{end_all, run};

/// What the workers of a run came to.
#[derive(Clone, Copy, PartialEq, Eq, Debug)]
pub struct Worked {
    /// How many items producers that were not stopped did not put: a put returned `Full` for the item, or for one
    /// before it in its list. The count goes up to 2^64 - 1.
    pub full: u64,
    /// How many workers were stopped. Each was stopped before call 2^64 - 1, or before a call at which the gate may
    /// stop it.
    pub stopped: u64,
}

/// Why no run came to its end.
#[derive(Clone, Copy, PartialEq, Eq, Debug)]
pub enum WorkFault {
    /// There are more lists than lanes not yet issued, or more sources than consumers not yet issued. Nothing has
    /// changed.
    AllGiven,
    /// The budget is 0. Nothing has changed.
    BadBudget,
    /// The allocator refused what the run needs, before a number was issued for each list and source. Each producer
    /// issued has ended its lane, and all that the call issued is returned. The hub keeps what was returned before.
    NoMemory,
    /// A thread could not be started, for whatever reason: threads do not use the caller's allocator. It comes only if
    /// there is a list or a source, and a number was issued for each. As after `NoMemory`, each lane issued has ended,
    /// and all issued are returned.
    NoThread,
}

impl fmt::Display for WorkFault {
    fn fmt<W: fmt::Write>(&self, f: &mut fmt::Formatter<W>) -> fmt::Result {
        f.write_str(match self {
            WorkFault::AllGiven => "more numbers are asked for than the mailbox has left",
            WorkFault::BadBudget => "the budget is 0",
            WorkFault::NoMemory => "out of memory",
            WorkFault::NoThread => "a thread could not be started",
        })
    }
}

impl Error for WorkFault {}

/// Runs a thread for each list, and one for each source of random words. The first are producers. Each puts its list in
/// order up to the first `Full`, and then ends its lane. The others are consumers, which are started after the
/// producers. They poll the lanes issued in this call in rising order, round and round, each until it has ended.
/// Numbers are issued in the order of the lists and of the sources. Before its n-th put or poll each worker asks the
/// gate, and stops if that returns `false`.
///
/// It runs no item. In the report that [`Mailbox::gather`] returns, the item of each `Took` note is to be run once, and
/// so is each item that is left. What was not put is in no report: it is the rest of a list after the items that its
/// producer put. So keep a copy of the lists.
///
/// `budget` is the most accesses of one poll, at least 1. A claim that is cut short is kept and goes on at the next
/// poll. So with a small budget the gate is asked more often, and a poll costs more. Each consumer draws its random
/// words from its own source. The first consumer issued in this call has the first of `rngs`, and so on.
///
/// Faults are decided in the order of [`WorkFault`]. After `NoMemory` and `NoThread` some items may have been taken:
/// a report says which. The call may wait for its threads, and for nobody else.
pub fn work<
    A: Allocator + Clone + Drop + Send + Sync,
    W: Threads + Wait + Sync,
    R: Rng + Send + Drop,
    G: Gate,
>(
    alloc: A,
    rt: &W,
    mailbox: &Mailbox<A>,
    hub: &mut Hub<A>,
    items: Vec<Vec<u64, A>, A>,
    budget: u64,
    rngs: Vec<R, A>,
    gate: &G,
) -> Result<Worked, WorkFault>
    requires belongs { IsHubOf mailbox.now hub.old }
    ensures all_given { (result ≡ Err AllGiven)
        ↔ AsksTooMany mailbox.now (vec_len items) (vec_len rngs) hub.old }
    ensures bad_budget { (result ≡ Err BadBudget)
        ↔ ((budget ≡ 0) × (AsksTooMany mailbox.now (vec_len items) (vec_len rngs) hub.old → ⊥)) }
    ensures nothing_issued { (result ≡ Err AllGiven) ⊎ (result ≡ Err BadBudget)
        → hub.new ≡ hub.old }

    // Whatever the result is, all that this call issued are returned, and each producer among them ended its lane.
    ensures worked { IfOk result (λ w.
        IsWorked (G.may_stop gate.now) budget (lists_in items.items) (vec_len rngs) w hub.old
        hub.new) }

    // Before each call of a worker the gate may let the worker pass. Each call of a consumer is a poll with this
    // budget. The first consumer issued in this call draws from the first of these sources, and so on.
    ensures called { IfOk result (λ w. IsCalled (G.may_stop gate.now) (G.may_pass gate.now) budget
        (lists_in items.items) (map R.stream rngs.items) w hub.old hub.new) }
    ensures no_thread { result ≡ Err NoThread
        → WereTakenIn (lists_in items.items) (vec_len rngs) hub.old hub.new }
    ensures some_thread { result ≡ Err NoThread → 0 < vec_len items + vec_len rngs }
    ensures no_memory { result ≡ Err NoMemory
        → WereTakenInEarly (lists_in items.items) (vec_len rngs) hub.old hub.new }
    ensures belongs { IsHubOf mailbox.now hub.new }
{
    hub.has_history();
    if items.len() > lanes_left(mailbox, hub) || rngs.len() > consumers_left(mailbox, hub) {
        return Err(WorkFault::AllGiven);
    }
    if budget == 0 {
        return Err(WorkFault::BadBudget);
    }
    lanes_are_few(mailbox);
    consumers_are_few(mailbox);
    let Ok(memory) = memory_for_run(alloc, items.len() + rngs.len()) else {
        return Err(WorkFault::NoMemory);
    };
    let load = Workload {
        items,
        budget,
        rngs,
    };
    work_with(rt, mailbox, hub, load, gate, memory)
}

/// How many lanes were not issued yet.
pub fn lanes_left<A: Allocator + Drop, B: Allocator + Drop>(
    mailbox: &Mailbox<B>,
    hub: &Hub<A>,
) -> usize
    ensures { result ≡ mailbox.now.cells.size.lanes - length hub.now.puts }
{
    (mailbox.lanes as usize).saturating_sub(hub.puts.len())
}

/// How many consumers were not issued yet.
pub fn consumers_left<A: Allocator + Drop, B: Allocator + Drop>(
    mailbox: &Mailbox<B>,
    hub: &Hub<A>,
) -> usize
    ensures { result ≡ consumer_count mailbox.now.claims.layout - length hub.now.records }
{
    (mailbox.claims.layout().consumers() as usize).saturating_sub(hub.records.len())
}

/// How many lanes the hub has issued.
fn lanes_given<A: Allocator + Drop>(hub: &Hub<A>) -> usize
    ensures { result ≡ length hub.now.puts }
{
    hub.puts.len()
}

/// A mailbox has at most 16 lanes. This computes nothing: its contract is a law of all mailboxes.
fn lanes_are_few<B: Allocator + Drop>(mailbox: &Mailbox<B>)
    ensures { mailbox.now.cells.size.lanes ≤ 16 }
{
    // Naming a field makes the invariant of a mailbox known.
    let _ = &mailbox.cells;
}

/// The numbers of consumers have 32 bits. This computes nothing: its contract is a law of all mailboxes.
fn consumers_are_few<B: Allocator + Drop>(mailbox: &Mailbox<B>)
    ensures { consumer_count mailbox.now.claims.layout < 2 ^ 32 }
{
    let _ = mailbox.claims.layout().consumers();
}

/// The next `lists` lanes, after the `given` lanes issued before, and this budget.
fn next_lanes(given: usize, lists: usize, budget: u64) -> Lanes
    requires few { given + lists ≤ 16 }
    requires able { 0 < budget }
    ensures from { result.from ≡ given }
    ensures end { result.end ≡ given + lists }
    ensures budget { result.budget ≡ budget }
{
    Lanes {
        from: given as u32,
        end: (given + lists) as u32,
        budget,
    }
}

/// What a run is to do: the lists that its producers put, and the sources and the budget of its consumers.
#[derive(Drop)]
struct Workload<R: Drop, A: Allocator + Drop> {
    items: Vec<Vec<u64, A>, A>,
    budget: u64,
    rngs: Vec<R, A>,
}

/// The rest of [`work`], after numbers and budget were tested, and memory was taken for the lists of jobs and ends.
fn work_with<
    A: Allocator + Clone + Drop + Send + Sync,
    W: Threads + Wait + Sync,
    R: Rng + Send + Drop,
    G: Gate,
>(
    rt: &W,
    mailbox: &Mailbox<A>,
    hub: &mut Hub<A>,
    load: Workload<R, A>,
    gate: &G,
    memory: RunMemory<G, R, A>,
) -> Result<Worked, WorkFault>
    requires belongs { IsHubOf mailbox.now hub.old }
    requires lanes { length hub.old.puts + vec_len load.items ≤ mailbox.now.cells.size.lanes }
    requires consumers { length hub.old.records + vec_len load.rngs ≤ consumer_count
        mailbox.now.claims.layout }
    requires able { 0 < load.budget }
    requires jobs { HasRoom (vec_len load.items + vec_len load.rngs) memory.jobs }
    requires begun { HasRoom (vec_len load.items + vec_len load.rngs) memory.begun }
    requires ends { HasRoom (vec_len load.items + vec_len load.rngs) memory.ends }
    ensures all_given { result ≢ Err AllGiven }
    ensures bad_budget { result ≢ Err BadBudget }
    ensures called { IfOk result (λ w. IsCalled (G.may_stop gate.now) (G.may_pass gate.now)
        load.budget (lists_in load.items.items) (map R.stream load.rngs.items) w hub.old hub.new) }
    ensures no_thread { result ≡ Err NoThread
        → WereTakenIn (lists_in load.items.items) (vec_len load.rngs) hub.old hub.new }
    ensures some_thread { result ≡ Err NoThread → 0 < vec_len load.items + vec_len load.rngs }
    ensures no_memory { result ≡ Err NoMemory
        → WereTakenInEarly (lists_in load.items.items) (vec_len load.rngs) hub.old hub.new }
    ensures belongs { IsHubOf mailbox.now hub.new }
{
    hub.has_history();
    lanes_are_few(mailbox);
    consumers_are_few(mailbox);
    let Workload {
        items,
        budget,
        rngs,
    } = load;
    let RunMemory {
        alloc,
        mut jobs,
        begun,
        ends,
    } = memory;
    let lanes = next_lanes(lanes_given(hub), items.len(), budget);
    let abort = OnceLock::new();
    let shared = Shared {
        mailbox,
        lanes,
        gate,
        abort: &abort,
    };
    if !give(&alloc, mailbox, hub, items, rngs, &mut jobs) {
        let aborted = abort.init(rt, || ());
        let ends = end_all(&shared, &aborted, jobs, ends);
        let _ = settle(mailbox, hub, ends);
        return Err(WorkFault::NoMemory);
    }
    let ends = run(rt, &shared, jobs, begun, ends);
    match settle(mailbox, hub, ends) {
        Ok(worked) => {
            ends_tell_notes();
            hub.has_history();
            Ok(worked)
        }
        Err(fault) => Err(fault),
    }
}
