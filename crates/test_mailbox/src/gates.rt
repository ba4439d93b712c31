//! The calls of a gate show that workers run at the same time, make their calls in order, and poll lane after lane.

use crate::compare::{same, same_at};
use crate::trials::tally_of;
use crate::workers::{ONE_STOPPED, all_done, work_once};
use mb_mailbox::{Gate, Who};
use mb_quorum::TableName;
use mb_world::Setup;
use std::process::Abort;
use std::sync::Wait;
use std::sync::atomic::{AtomicU64, Ordering};
use std::thread::{Threads, yield_now};

/// The most looks of a worker that waits at a gate. So no worker waits for ever.
pub(crate) const TURNS: u64 = 1_000_000_000;

/// A gate at which each worker waits, at its first call, until `workers` have come, or is stopped after `TURNS` looks.
#[derive(Drop)]
struct AllCome {
    /// How many workers have come.
    come: AtomicU64,
    /// How many workers are to come.
    workers: u64,
}

impl Gate for AllCome {
    ghost use Rattle.std.specs.Prelude.{◌≡◌};

    // The gate stops a worker only at its first call.
    ghost may_stop = { λ _ _ call. call ≡ 1 };

    fn enter(&self, _who: Who, call: u64) -> bool {
        if call != 1 {
            return true;
        }
        self.come.fetch_add(1, Ordering::SeqCst);
        for _ in 0..TURNS {
            if self.workers <= self.come.load(Ordering::SeqCst) {
                return true;
            }
            yield_now();
        }
        false
    }

    fn leave(&self, _who: Who, _call: u64) {}
}

/// A producer and `consumers` consumers come to the gate at the same time, and none is stopped. Then the report is
/// audited, and all four items were put.
fn come_and_put<R: Abort + AllocGlobal + Threads + Wait + Sync>(rt: &R, consumers: u64) {
    let gate = AllCome {
        come: AtomicU64::new(0),
        workers: consumers.wrapping_add(1),
    };
    let setup = Setup::new(1, consumers, 4, 4, TableName::Bits).expect(rt, "no setup");
    let report = all_done(rt, setup, &[&[1, 2, 3, 4]], 5, consumers, &gate);
    same_at(rt, &tally_of(rt, report, 1, consumers).put, &4, &consumers);
}

#[test]
fn all_workers_come_to_the_gate_at_one_time(rt: HostRuntime) {
    for consumers in [2, 64] {
        come_and_put(&rt, consumers);
    }
}

/// A gate that lets each call in. It checks that a worker's calls come as 1, 2 and so on, and that each leaves before
/// the next one enters.
#[derive(Drop)]
struct Record {
    /// How often each of two producers and two consumers entered or left.
    times: [AtomicU64; 4],
    /// How often one of these workers entered or left out of order.
    flaws: AtomicU64,
}

impl Record {
    /// A record in which nobody has entered yet.
    fn new() -> Record {
        Record {
            times: [0; 4].map(AtomicU64::new),
            flaws: AtomicU64::new(0),
        }
    }

    /// Counts that this worker enters or leaves. If it has not done so `times` times before, that is a flaw.
    fn note(&self, who: Who, times: u64) {
        let place = match who {
            Who::Producer(lane) => lane as usize,
            Who::Consumer(consumer) => (consumer as usize).wrapping_add(2),
        };
        let is_next = match self.times.get(place) {
            Some(worker) => worker.fetch_add(1, Ordering::SeqCst) == times,
            None => false,
        };
        if !is_next {
            self.flaws.fetch_add(1, Ordering::SeqCst);
        }
    }
}

impl Gate for Record {
    fn enter(&self, who: Who, call: u64) -> bool {
        self.note(who, call.wrapping_sub(1).wrapping_mul(2));
        true
    }

    fn leave(&self, who: Who, call: u64) {
        self.note(who, call.wrapping_mul(2).wrapping_sub(1));
    }
}

/// Checks that nobody entered or left out of order, and how often each did. The producers put two and three items.
fn alternates(rt: &impl Abort, gate: &Record) {
    let flaws = gate.flaws.load(Ordering::SeqCst);
    // A producer makes one call for each item, and each call enters and leaves.
    let first = gate.times[0].load(Ordering::SeqCst);
    let second = gate.times[1].load(Ordering::SeqCst);
    // A consumer makes at least one call for each of five items and two ends, and has left after each.
    let third = gate.times[2].load(Ordering::SeqCst);
    let fourth = gate.times[3].load(Ordering::SeqCst);
    let have_met_all = 14 <= third && 14 <= fourth;
    let told = (flaws, first, second, have_met_all, third % 2, fourth % 2);
    same(rt, &told, &(0, 4, 6, true, 0, 0));
}

// Each call of a worker enters the gate and leaves it before the next one enters.
#[test]
fn asks_and_tells_of_a_gate_alternate(rt: HostRuntime) {
    let gate = Record::new();
    let setup = Setup::new(2, 2, 5, 1, TableName::Bits).expect(&rt, "no setup");
    let report = all_done(&rt, setup, &[&[1, 2], &[3, 4, 5]], 5, 2, &gate);
    alternates(&rt, &gate);
    same(&rt, &tally_of(&rt, report, 2, 2).put, &5);
}

/// A gate that lets a consumer in for three calls, once four puts were made. If `TURNS` looks find fewer puts, the gate
/// does not let the consumer in.
#[derive(Drop)]
struct ThreeCalls {
    /// How many puts were made.
    made: AtomicU64,
}

impl Gate for ThreeCalls {
    fn enter(&self, who: Who, call: u64) -> bool {
        if let Who::Producer(_) = who {
            return true;
        }
        for _ in 0..TURNS {
            if 4 <= self.made.load(Ordering::SeqCst) {
                return call <= 3;
            }
            yield_now();
        }
        false
    }

    fn leave(&self, who: Who, _call: u64) {
        if let Who::Producer(_) = who {
            self.made.fetch_add(1, Ordering::SeqCst);
        }
    }
}

// The consumer's three calls poll lane 0, lane 1 and lane 0.
#[test]
fn lanes_are_polled_in_turn(rt: HostRuntime) {
    let gate = ThreeCalls {
        made: AtomicU64::new(0),
    };
    let (one, other): (&[u64], &[u64]) = (&[10, 11], &[20, 21]);
    let report = "\
lane 0 ended put 10 11
left 0
lane 1 ended put 20 21
left 1 21
diary 0 0 took 10 took 11
diary 0 1 took 20
";
    work_once(
        &rt,
        ([2, 1, 4], 100),
        &[one, other],
        &gate,
        ONE_STOPPED,
        report,
    );
}
