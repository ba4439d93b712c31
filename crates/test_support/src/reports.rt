//! Made-up reports.

use mb_world::{Diary, LaneReport, Note, Report};
use std::alloc::{AllocError, Allocator};

/// A lane: the items put, whether it has ended, and the items left.
pub type LaneTold<'a> = (&'a [u64], bool, &'a [u64]);

/// A diary: the consumer, the lane, the notes, and whether the consumer has a claim under way.
pub type DiaryTold<'a> = (u32, u32, &'a [Note], bool);

/// A made-up report with these lanes and these diaries.
pub fn made_up<A: Allocator + Clone + Drop>(
    alloc: A,
    lanes: &[LaneTold<'_>],
    diaries: &[DiaryTold<'_>],
) -> Result<Report<A>, AllocError> {
    let mut report = Report {
        lanes: Vec::new(alloc.clone()?),
        diaries: Vec::new(alloc.clone()?),
    };
    for (put, ended, left) in lanes {
        report.lanes.push(LaneReport {
            put: put.to_vec(alloc.clone()?)?,
            ended: *ended,
            left: left.to_vec(alloc.clone()?)?,
        })?;
    }
    for (consumer, lane, notes, begun) in diaries {
        report.diaries.push(Diary {
            consumer: *consumer,
            lane: *lane,
            notes: notes.to_vec(alloc.clone()?)?,
            begun: *begun,
        })?;
    }
    Ok(report)
}
