//! One run: workers on a mailbox of its own, and the check of its report.

ghost use Rattle.std.specs.Prelude.{IfOk};
ghost use Rattle.test_audit.specs.Asked.{HasAsked};

use crate::fault::Fault;
use crate::gates::RandomGate;
use crate::plan::{Plan, Stops};
use crate::refused::check_refused;
use crate::settled::check_settled;
use crate::sources::chacha;
use crate::totals::Totals;
use mb_mailbox::{Mailbox, Worked, work};
use mb_world::{Report, Setup};
use rand_core::Rng;
use std::alloc::{AllocError, Global};
use std::sync::Wait;
use std::thread::Threads;
use test_audit::audit;
use test_support::Zeros;

/// The first item of this producer's list.
fn first_of(producer: u64) -> u64 {
    producer.wrapping_mul(1000)
}

/// The lists of a plan: producer p has the items from 1000 * p on.
fn lists_of(alloc: Global, plan: &Plan) -> Result<Vec<Vec<u64>>, AllocError> {
    let mut lists = Vec::new(alloc);
    for p in 0..plan.producers {
        let mut list = Vec::new(alloc);
        for i in 0..plan.items {
            list.push(first_of(p).wrapping_add(i))?;
        }
        lists.push(list)?;
    }
    Ok(lists)
}

/// Checks that each lane has ended, and has the first items of its list. Returns how many items the lanes lack.
fn lacking(plan: &Plan, report: &Report<Global>) -> Result<u64, Fault> {
    let mut lacking = 0u64;
    for (p, lane) in report.lanes.iter().enumerate() {
        if !lane.ended {
            return Err(Fault::NotEnded);
        }
        let put = lane.put.len() as u64;
        if plan.items < put {
            return Err(Fault::OtherItems);
        }
        for (i, item) in lane.put.iter().enumerate() {
            if *item != first_of(p as u64).wrapping_add(i as u64) {
                return Err(Fault::OtherItems);
            }
        }
        lacking = lacking.wrapping_add(plan.items - put);
    }
    Ok(lacking)
}

/// Whether each consumer has a note on each item of each lane, and no claim under way.
fn all_is_met(report: &Report<Global>) -> bool {
    for diary in &report.diaries {
        let Some(lane) = report.lanes.get(diary.lane as usize) else {
            return false;
        };
        if diary.begun || diary.notes.len() != lane.put.len() {
            return false;
        }
    }
    true
}

/// Checks the report against the plan and the result of its workers. Returns the counts.
pub fn check(plan: &Plan, report: &Report<Global>, worked: &Worked) -> Result<Totals, Fault>
    ensures { IfOk result (λ _. HasAsked plan.now.producers plan.now.consumers report.now) }
{
    let tally = audit(report, plan.producers, plan.consumers).map_err(Fault::Report)?;
    let lacking = lacking(plan, report)?;
    if lacking < worked.full || (worked.stopped == 0 && worked.full < lacking) {
        return Err(Fault::OtherFull);
    }
    if worked.stopped == 0 && !all_is_met(report) {
        return Err(Fault::NotMet);
    }
    if 0 < worked.full && tally.put != plan.cells {
        return Err(Fault::FullTooEarly);
    }
    if plan.stops == Stops::Nobody && worked.stopped != 0 {
        return Err(Fault::Stopped);
    }
    Ok(Totals {
        runs: 1,
        tally,
        full: worked.full,
        stopped: worked.stopped,
    })
}

/// Runs workers with these sources of random words on a new mailbox, and checks the report. If `work` is refused,
/// checks the mailbox by `check_refused`.
fn run_with<W: Threads + Wait + Sync, R: Rng + Send + Drop>(
    rt: &W,
    alloc: Global,
    plan: &Plan,
    rngs: Vec<R>,
) -> Result<Totals, Fault> {
    let (producers, consumers) = (plan.producers, plan.consumers);
    let made = match plan.pairs {
        0 => Setup::exchange(producers, consumers, plan.cells),
        pairs => Setup::new(producers, consumers, plan.cells, pairs, plan.table),
    };
    let Ok(setup) = made else {
        return Err(Fault::Setup);
    };
    let setup = setup.shaped(plan.shape);
    let for_an_item = setup.layout().max_steps().saturating_add(2);
    let budget = if plan.whole { for_an_item } else { plan.budget };
    let Ok((mailbox, mut hub)) = Mailbox::new(alloc, setup) else {
        return Err(Fault::NoMemory);
    };
    let gate = RandomGate {
        stops: plan.stops,
        seed: plan.gate_seed,
    };
    let items = lists_of(alloc, plan)?;
    let worked = match work(alloc, rt, &mailbox, &mut hub, items, budget, rngs, &gate) {
        Ok(worked) => worked,
        Err(fault) => {
            let busy = check_refused(alloc, plan, mailbox, hub)?;
            return Err(Fault::Work(fault, busy));
        }
    };
    let Ok(report) = mailbox.gather(alloc, hub) else {
        return Err(Fault::NoReport);
    };
    let totals = check(plan, &report, &worked)?;
    check_settled(plan.shape, for_an_item <= budget, &report)?;
    Ok(totals)
}

/// Makes the run with this number and this seed, by its plan.
pub fn run<W: Threads + Wait + Sync>(
    rt: &W,
    alloc: Global,
    seed: u64,
    number: u64,
    plan: &Plan,
) -> Result<Totals, Fault> {
    if plan.zeros {
        let mut rngs = Vec::new(alloc);
        for _ in 0..plan.consumers {
            rngs.push(Zeros::default()).map_err(|_| Fault::NoMemory)?;
        }
        run_with(rt, alloc, plan, rngs)
    } else {
        let mut rngs = Vec::new(alloc);
        for c in 0..plan.consumers {
            rngs.push(chacha(seed, number, c.wrapping_add(1)))
                .map_err(|_| Fault::NoMemory)?;
        }
        run_with(rt, alloc, plan, rngs)
    }
}
