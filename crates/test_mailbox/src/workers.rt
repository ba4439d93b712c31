//! Workers: what `work` returns, and the report after it.

use crate::compare::same;
use crate::scenes::play;
use crate::trial::Trial;
use crate::trials::{ends, gathered, new_trial, tally_of, tells_all};
use mb_mailbox::{Gate, OpenGate, Who, WorkFault, Worked};
use mb_quorum::TableName;
use mb_world::{Report, Setup};
use std::alloc::{Allocator, Global};
use std::process::Abort;
use std::sync::Wait;
use std::sync::atomic::{AtomicU64, Ordering};
use std::thread::Threads;
use test_support::Zeros;

/// The result of `work` if each item was put and nobody was stopped.
pub(crate) const ALL_DONE: Worked = Worked {
    full: 0,
    stopped: 0,
};

/// A list of items for each producer.
pub(crate) fn lists<A: Allocator + Copy + Drop>(
    rt: &impl Abort,
    alloc: A,
    items: &[&[u64]],
) -> Vec<Vec<u64, A>, A> {
    let mut lists = Vec::new(alloc);
    for list in items {
        let list = list.to_vec(alloc).expect(rt, "no list");
        lists.push(list).expect(rt, "no lists");
    }
    lists
}

/// The result of `work` if each item was put and one worker was stopped.
pub(crate) const ONE_STOPPED: Worked = Worked {
    full: 0,
    stopped: 1,
};

/// This many sources of zeros.
pub(crate) fn sources<A: Allocator + Drop>(
    rt: &impl Abort,
    alloc: A,
    amount: usize,
) -> Vec<Zeros, A> {
    let mut sources = Vec::new(alloc);
    for _ in 0..amount {
        sources.push(Zeros::default()).expect(rt, "no list");
    }
    sources
}

/// For each of these lists a worker puts its items, and `consumers` others poll with this budget.
pub(crate) fn works<R: Abort + AllocGlobal + Threads + Wait + Sync, G: Gate>(
    rt: &R,
    trial: &mut Trial<Global>,
    items: &[&[u64]],
    budget: u64,
    consumers: usize,
    gate: &G,
) -> Result<Worked, WorkFault> {
    let alloc = rt.alloc();
    let items = lists(rt, alloc, items);
    let rngs = sources(rt, alloc, consumers);
    trial.work(alloc, rt, items, budget, rngs, gate)
}

/// A gate that lets nobody in.
#[derive(Drop)]
struct ClosedGate;

impl Gate for ClosedGate {
    fn enter(&self, _who: Who, _call: u64) -> bool {
        false
    }

    fn leave(&self, _who: Who, _call: u64) {}
}

/// In a new mailbox of this many producers, consumers and cells a worker puts the items of each of these lists, and the
/// consumers poll with this budget. Checks that `work` has this result, and the report this text.
pub(crate) fn work_once<R: Abort + AllocGlobal + Threads + Wait + Sync, G: Gate>(
    rt: &R,
    (sizes, budget): ([u64; 3], u64),
    items: &[&[u64]],
    gate: &G,
    want: Worked,
    report: &str,
) {
    let mut trial = new_trial(rt, rt.alloc(), sizes[0], sizes[1], sizes[2]);
    let worked = works(rt, &mut trial, items, budget, sizes[1] as usize, gate);
    same(rt, &worked, &Ok(want));
    ends(rt, rt.alloc(), trial, report);
}

/// In a new mailbox of this setup a worker puts the items of each of these lists, and `consumers` others poll with this
/// budget. Checks that each item was put and nobody was stopped. Returns the report.
pub(crate) fn all_done<R: Abort + AllocGlobal + Threads + Wait + Sync, G: Gate>(
    rt: &R,
    setup: Setup,
    items: &[&[u64]],
    budget: u64,
    consumers: u64,
    gate: &G,
) -> Report<Global> {
    let mut trial = Trial::new(rt.alloc(), setup).expect(rt, "no mailbox");
    let worked = works(rt, &mut trial, items, budget, consumers as usize, gate);
    same(rt, &worked, &Ok(ALL_DONE));
    gathered(rt, rt.alloc(), trial)
}

/// A mailbox of one producer, one consumer and two cells, and the budget of a poll.
const TWO_CELLS: ([u64; 3], u64) = ([1, 1, 2], 5);

/// The report after two items were put and taken, and the lane has ended.
const TWO_TAKEN: &str = "lane 0 ended put 1 2\nleft 0\ndiary 0 0 took 1 took 2\n";

#[test]
fn a_worker_puts_and_another_takes(rt: HostRuntime) {
    work_once(&rt, TWO_CELLS, &[&[1, 2]], &OpenGate, ALL_DONE, TWO_TAKEN);
    // The producer has one item more than there are cells.
    let one_full = Worked {
        full: 1,
        stopped: 0,
    };
    work_once(
        &rt,
        TWO_CELLS,
        &[&[1, 2, 3]],
        &OpenGate,
        one_full,
        TWO_TAKEN,
    );
}

#[test]
fn a_budget_of_0_is_refused(rt: HostRuntime) {
    let mut trial = new_trial(&rt, rt.alloc(), 1, 1, 2);
    let worked = works(&rt, &mut trial, &[&[1, 2]], 0, 1, &OpenGate);
    same(&rt, &worked, &Err(WorkFault::BadBudget));
    // No number was issued yet, so one producer and one consumer still can be.
    let alloc = rt.alloc();
    play(&rt, &mut trial, alloc, "producer: given\nconsumer: given\n");
    let report = "lane 0 open put\nleft 0\ndiary 0 0\n";
    ends(&rt, alloc, trial, report);
}

#[test]
fn nobody_comes_through_a_closed_gate(rt: HostRuntime) {
    let both = Worked {
        full: 0,
        stopped: 2,
    };
    work_once(
        &rt,
        TWO_CELLS,
        &[&[1, 2]],
        &ClosedGate,
        both,
        "lane 0 ended put\nleft 0\ndiary 0 0\n",
    );
}

/// Calls on one mailbox of one producer and one consumer. Each case has the lists of items, the budget, the number of
/// consumers, and the result.
const CALLS: &[(&[&[u64]], u64, usize, Result<Worked, WorkFault>)] = &[
    (&[&[1, 2]], 5, 1, Ok(ALL_DONE)),
    // Calls that need one more number are refused. The error for that comes before the one for the budget.
    (&[&[3]], 0, 0, Err(WorkFault::AllGiven)),
    (&[], 5, 1, Err(WorkFault::AllGiven)),
    // Without lists and sources there is no worker and nothing to do.
    (&[], 5, 0, Ok(ALL_DONE)),
];

#[test]
fn no_numbers_are_left_for_more_workers(rt: HostRuntime) {
    let mut trial = new_trial(&rt, rt.alloc(), 1, 1, 2);
    for &(items, budget, consumers, want) in CALLS {
        let worked = works(&rt, &mut trial, items, budget, consumers, &OpenGate);
        same(&rt, &worked, &want);
    }
    ends(&rt, rt.alloc(), trial, TWO_TAKEN);
}

/// A gate that counts the calls that it lets in.
#[derive(Drop)]
struct CountingGate {
    /// How many calls were let in.
    calls: AtomicU64,
}

impl Gate for CountingGate {
    fn enter(&self, _who: Who, _call: u64) -> bool {
        self.calls.fetch_add(1, Ordering::SeqCst);
        true
    }

    fn leave(&self, _who: Who, _call: u64) {}
}

#[test]
fn a_consumer_without_lanes_polls_none(rt: HostRuntime) {
    let gate = CountingGate {
        calls: AtomicU64::new(0),
    };
    work_once(
        &rt,
        TWO_CELLS,
        &[],
        &gate,
        ALL_DONE,
        "lane 0 open put\nleft 0\ndiary 0 0\n",
    );
    same(&rt, &gate.calls.load(Ordering::SeqCst), &0);
}

/// Sixteen items for each of four producers.
const ITEMS_OF_FOUR: &[&[u64]] = &[
    &[0, 1, 2, 3, 4, 5, 6, 7, 8, 9, 10, 11, 12, 13, 14, 15],
    &[
        100, 101, 102, 103, 104, 105, 106, 107, 108, 109, 110, 111, 112, 113, 114, 115,
    ],
    &[
        200, 201, 202, 203, 204, 205, 206, 207, 208, 209, 210, 211, 212, 213, 214, 215,
    ],
    &[
        300, 301, 302, 303, 304, 305, 306, 307, 308, 309, 310, 311, 312, 313, 314, 315,
    ],
];

#[test]
fn four_producers_and_four_consumers_share_64_cells(rt: HostRuntime) {
    let setup = Setup::new(4, 4, 64, 4, TableName::Bits).expect(&rt, "no setup");
    let report = all_done(&rt, setup, ITEMS_OF_FOUR, 3, 4, &OpenGate);
    let report = tells_all(&rt, report, ITEMS_OF_FOUR, 16, 16);
    // An audit also checks that no two consumers took one item.
    same(&rt, &tally_of(&rt, report, 4, 4).put, &64);
}
