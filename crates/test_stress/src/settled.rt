//! The check of a report if each poll had a budget for a whole item, or each cell has a last object.

use crate::fault::Fault;
use mb_claim::Shape;
use mb_world::{Note, Report};
use std::alloc::Global;

/// Checks a report against these rules. If each poll had a budget for a whole item, none was spent. So no claim is
/// under way, not even of a worker that was stopped. If each cell has a last object, no consumer is undecided, and each
/// item is settled.
pub fn check_settled(shape: Shape, is_whole: bool, report: &Report<Global>) -> Result<(), Fault> {
    for diary in &report.diaries {
        if is_whole && diary.begun {
            return Err(Fault::Spent);
        }
        if shape.last && diary.notes.contains(&Note::Undecided) {
            return Err(Fault::Undecided);
        }
    }
    if shape.last {
        for (p, lane) in report.lanes.iter().enumerate() {
            for j in 0..lane.put.len() {
                if !is_settled(report, p, j) {
                    return Err(Fault::NotSettled);
                }
            }
        }
    }
    Ok(())
}

/// Whether somebody took this item of this lane, or has a claim on it under way, or nobody has a note on it.
fn is_settled(report: &Report<Global>, lane: usize, item: usize) -> bool {
    let mut is_met = false;
    for diary in &report.diaries {
        if diary.lane as usize != lane {
            continue;
        }
        match diary.notes.get(item) {
            Some(Note::Took(_)) => return true,
            Some(_) => is_met = true,
            None if diary.begun && diary.notes.len() == item => return true,
            None => {}
        }
    }
    !is_met
}
