//! A put and a poll leave the gate after their accesses, and not before.

use crate::compare::same;
use crate::gates::TURNS;
use crate::trials::{ends, new_trial};
use crate::workers::{ONE_STOPPED, lists};
use mb_mailbox::{Gate, Who};
use std::process::Abort;
use std::sync::Wait;
use std::sync::atomic::{AtomicBool, AtomicU64, Ordering};
use std::thread::{Threads, yield_now};
use test_support::SeenZeros;

/// A gate at which the producer, leaving after its put, waits until the consumer has polled once. No wait is endless.
#[derive(Drop)]
struct PollInALeave {
    /// Whether the put has left the gate.
    has_put: AtomicBool,
    /// Whether the poll has left the gate.
    has_polled: AtomicBool,
    /// How many words the consumer has drawn.
    drawn: AtomicU64,
    /// How many words the consumer had drawn when its poll left the gate.
    told: AtomicU64,
}

/// Waits until the flag is set, for at most `TURNS` looks. Returns whether it was set.
fn comes(flag: &AtomicBool) -> bool {
    for _ in 0..TURNS {
        if flag.load(Ordering::SeqCst) {
            return true;
        }
        yield_now();
    }
    false
}

impl Gate for PollInALeave {
    fn enter(&self, who: Who, call: u64) -> bool {
        match who {
            Who::Producer(_) => true,
            Who::Consumer(_) => call == 1 && comes(&self.has_put),
        }
    }

    fn leave(&self, who: Who, _call: u64) {
        match who {
            Who::Producer(_) => {
                self.has_put.store(true, Ordering::SeqCst);
                comes(&self.has_polled);
            }
            Who::Consumer(_) => {
                let drawn = self.drawn.load(Ordering::SeqCst);
                self.told.store(drawn, Ordering::SeqCst);
                self.has_polled.store(true, Ordering::SeqCst);
            }
        }
    }
}

/// Runs a producer and a consumer on a new mailbox with one cell. The producer puts the item 5, and the gate can see how
/// many words the consumer draws. Checks that one worker was stopped, and that the report has this text.
fn stop_one<R: Abort + AllocGlobal + Threads + Wait + Sync>(
    rt: &R,
    gate: &PollInALeave,
    report: &str,
) {
    let alloc = rt.alloc();
    let mut trial = new_trial(rt, alloc, 1, 1, 1);
    let mut rngs = Vec::new(alloc);
    let source = SeenZeros { given: &gate.drawn };
    rngs.push(source).expect(rt, "no list");
    let worked = trial.work(alloc, rt, lists(rt, alloc, &[&[5]]), 100, rngs, gate);
    same(rt, &worked, &Ok(ONE_STOPPED));
    ends(rt, alloc, trial, report);
}

// When a call leaves the gate, it has made its accesses: the item of the put is there, and the poll's words are drawn.
#[test]
fn a_call_is_told_of_after_its_accesses(rt: HostRuntime) {
    let gate = PollInALeave {
        has_put: AtomicBool::new(false),
        has_polled: AtomicBool::new(false),
        drawn: AtomicU64::new(0),
        told: AtomicU64::new(0),
    };
    // While the put leaves the gate, the consumer polls once. It is stopped at its next call. The poll finds the item,
    // so the item was put before the put left the gate.
    let report = "lane 0 ended put 5\nleft 0\ndiary 0 0 took 5\n";
    stop_one(&rt, &gate, report);
    // An only consumer's claim makes five accesses, three to the conciliator and two to the proposal. It draws a word
    // for each. All were made before the poll left the gate.
    same(&rt, &gate.told.load(Ordering::SeqCst), &5);
}
