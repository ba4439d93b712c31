//! Moves the lists of items that a hub has into the outline of its report. Nothing is copied, and no memory is taken.
ghost use Rattle.std.specs.Prelude.{◌≡◌, ◌≤◌, vec_len};
ghost use Rattle.mb_mailbox.specs.Filling.{changed_from, with_items};

use crate::taken::PutList;
use mb_world::LaneReport;
use std::alloc::Allocator;

/// Moves the items of each producer into its lane of the report.
pub(super) fn fill_lanes<A: Allocator + Drop>(
    lanes: &mut Vec<LaneReport<A>, A>,
    mut puts: Vec<Option<PutList<A>>, A>,
)
    requires { vec_len puts ≤ vec_len lanes.old }
    ensures { lanes.new.items ≡ changed_from with_items 0 puts.items lanes.old.items }
{
    while let Some(kept) = puts.pop() {
        let p = puts.len();
        fill_lane(&mut lanes[p], kept);
    }
}

/// Moves the items of a producer, if it was returned, into its lane of the report.
fn fill_lane<A: Allocator + Drop>(lane: &mut LaneReport<A>, kept: Option<PutList<A>>)
    ensures { lane.new ≡ with_items kept lane.old }
{
    if let Some(kept) = kept {
        lane.put = kept.items;
    }
}
