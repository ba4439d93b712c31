//! New trials, whose cells have one pair each, and what is checked at the end of any trial.

use crate::compare::same;
use crate::trial::Trial;
use mb_quorum::TableName;
use mb_script::report_text;
use mb_world::{Report, Setup};
use std::alloc::Allocator;
use std::process::Abort;
use test_audit::{Tally, audit};

/// A mailbox of `p` producers, `c` consumers and `m` cells, with one pair for each cell over the bit table.
pub(crate) fn new_trial<A: Allocator + Clone + Drop>(
    rt: &impl Abort,
    alloc: A,
    p: u64,
    c: u64,
    m: u64,
) -> Trial<A> {
    let setup = Setup::new(p, c, m, 1, TableName::Bits).expect(rt, "no setup");
    Trial::new(alloc, setup).expect(rt, "no mailbox")
}

/// Takes back all producers and consumers that are not returned.
pub(crate) fn take_all<A: Allocator + Clone + Drop>(trial: &mut Trial<A>) {
    trial.take_producer(0);
    trial.take_consumer(0);
    trial.take_producer(1);
    trial.take_consumer(1);
}

/// Checks that the report has this text.
pub(crate) fn reads<A: Allocator + Drop, B: Allocator + Drop>(
    rt: &impl Abort,
    alloc: A,
    report: Report<B>,
    want: &str,
) {
    let text = report_text(alloc, &report).expect(rt, "no text");
    drop(report);
    same(rt, &text.as_str(), &want);
}

/// The report of a trial whose producers and consumers were all returned. If one was not, the test fails.
pub(crate) fn gathered<A: Allocator + Clone + Drop>(
    rt: &impl Abort,
    alloc: A,
    trial: Trial<A>,
) -> Report<A> {
    match trial.gather(alloc) {
        Ok(report) => report,
        Err(_) => rt.panic("no report"),
    }
}

/// What an audit counts in a report. If the report has a flaw, the test fails.
pub(crate) fn tally_of<A: Allocator + Drop>(
    rt: &impl Abort,
    report: Report<A>,
    producers: u64,
    consumers: u64,
) -> Tally {
    let tally = audit(&report, producers, consumers);
    drop(report);
    tally.expect(rt, "a flaw")
}

/// Checks that each lane has these items and has ended, and that there are `diaries` diaries, each with `notes` notes
/// and no claim under way. Returns the report.
pub(crate) fn tells_all<A: Allocator + Drop>(
    rt: &impl Abort,
    report: Report<A>,
    lists: &[&[u64]],
    diaries: usize,
    notes: usize,
) -> Report<A> {
    let told = (report.lanes.len(), report.diaries.len());
    same(rt, &told, &(lists.len(), diaries));
    for (lane, list) in report.lanes.iter().zip(lists) {
        same(rt, &(lane.put.as_slice(), lane.ended), &(*list, true));
    }
    for diary in &report.diaries {
        same(rt, &(diary.notes.len(), diary.begun), &(notes, false));
    }
    report
}

/// Takes back all producers and consumers. Then checks that the report has this text.
pub(crate) fn ends<A: Allocator + Copy + Drop>(
    rt: &impl Abort,
    alloc: A,
    mut trial: Trial<A>,
    want: &str,
) {
    take_all(&mut trial);
    reads(rt, alloc, gathered(rt, alloc, trial), want);
}
