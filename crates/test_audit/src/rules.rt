//! The audit of a whole report.

ghost use Rattle.std.specs.Prelude.{◌≡◌, IfOk};
ghost use Rattle.test_audit.specs.Asked.{HasAsked};
ghost use Rattle.test_audit.specs.Tallies.{IsLaneCount, IsReportCount, both, counts};

use crate::flaw::Flaw;
use crate::matching::{all_said_of, diary_of};
use mb_world::{LaneReport, Report};
use std::alloc::Allocator;

/// The counts of a report.
#[derive(Clone, Copy, PartialEq, Eq, Debug)]
pub struct Tally {
    /// Items put.
    pub put: u64,
    /// Items taken.
    pub took: u64,
    /// Items left.
    pub left: u64,
    /// Notes of losers.
    pub lost: u64,
    /// Notes of consumers that are undecided.
    pub undecided: u64,
    /// Claims under way.
    pub under_way: u64,
}

impl Tally {
    /// A tally of nothing.
    pub fn none() -> Tally
        ensures { result ≡ counts 0 0 0 0 0 0 }
    {
        Tally {
            put: 0,
            took: 0,
            left: 0,
            lost: 0,
            undecided: 0,
            under_way: 0,
        }
    }

    /// The sums of both tallies, modulo 2^64.
    pub fn with(&self, other: Tally) -> Tally
        ensures { result ≡ both self.now other }
    {
        Tally {
            put: self.put.wrapping_add(other.put),
            took: self.took.wrapping_add(other.took),
            left: self.left.wrapping_add(other.left),
            lost: self.lost.wrapping_add(other.lost),
            undecided: self.undecided.wrapping_add(other.undecided),
            under_way: self.under_way.wrapping_add(other.under_way),
        }
    }
}

/// Checks that there are `producers` lanes, and a diary for each consumer and lane, in their order.
fn are_asked_for<A: Allocator + Drop>(
    report: &Report<A>,
    producers: u64,
    consumers: u64,
) -> Result<(), Flaw>
    ensures { IfOk result (λ _. HasAsked producers consumers report.now) }
{
    if report.lanes.len() as u64 != producers {
        return Err(Flaw::OtherLanes);
    }
    if producers.checked_mul(consumers) != Some(report.diaries.len() as u64) {
        return Err(Flaw::OtherDiary);
    }
    for (place, diary) in report.diaries.iter().enumerate() {
        let consumer = (place as u64).checked_div(producers);
        let lane = (place as u64).checked_rem(producers);
        if Some(u64::from(diary.consumer)) != consumer || Some(u64::from(diary.lane)) != lane {
            return Err(Flaw::OtherDiary);
        }
    }
    Ok(())
}

/// Checks that the diaries of a lane have at most as many notes as it has items, and fewer if a claim is under way.
fn have_few_notes<A: Allocator + Drop>(
    report: &Report<A>,
    consumers: u64,
    lane: usize,
    items: usize,
) -> Result<(), Flaw> {
    for consumer in 0..consumers {
        let Some(diary) = diary_of(report, consumer as usize, lane) else {
            return Err(Flaw::OtherDiary);
        };
        let notes = diary.notes.len();
        if items < notes || (items == notes && diary.begun) {
            return Err(Flaw::TooManyNotes);
        }
    }
    Ok(())
}

/// Audits one lane and all its diaries.
fn audit_lane<A: Allocator + Drop>(
    report: &Report<A>,
    consumers: u64,
    number: usize,
    lane: &LaneReport<A>,
) -> Result<Tally, Flaw>
    ensures { IfOk result (IsLaneCount lane.now) }
{
    have_few_notes(report, consumers, number, lane.put.len())?;
    let mut tally = Tally::none();
    let mut left = 0usize;
    for (j, item) in lane.put.iter().enumerate() {
        let met = all_said_of(report, consumers, number, j, *item)?;
        let taken = met.taker.is_some();
        if !taken {
            if lane.left.get(left).copied() != Some(*item) {
                return Err(Flaw::OtherLeft);
            }
            left = left.wrapping_add(1);
        }
        tally = tally.with(Tally {
            put: 1,
            took: if taken { 1 } else { 0 },
            left: if taken { 0 } else { 1 },
            lost: met.lost,
            undecided: met.undecided,
            under_way: met.under_way,
        });
    }
    if left == lane.left.len() {
        Ok(tally)
    } else {
        Err(Flaw::OtherLeft)
    }
}

/// Audits a report of `producers` producers and `consumers` consumers. Returns its counts, or the first flaw found.
pub fn audit<A: Allocator + Drop>(
    report: &Report<A>,
    producers: u64,
    consumers: u64,
) -> Result<Tally, Flaw>
    ensures asked { IfOk result (λ _. HasAsked producers consumers report.now) }
    ensures counts { IfOk result (IsReportCount report.now) }
{
    are_asked_for(report, producers, consumers)?;
    let mut tally = Tally::none();
    for (number, lane) in report.lanes.iter().enumerate() {
        tally = tally.with(audit_lane(report, consumers, number, lane)?);
    }
    Ok(tally)
}
