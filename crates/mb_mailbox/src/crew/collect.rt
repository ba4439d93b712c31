//! How the producers and consumers of a run are returned to the hub, and what the run came to.
ghost use Rattle.std.specs.Prelude.{◌≡◌, ◌+◌, ◌-◌, ◌^◌, ◌<◌, ◌||◌, IfErr, IfOk, IsOk, false, length, min};
ghost use Rattle.std.specs.Int.{from_bool};
ghost use Rattle.std.specs.List.{All, sum_by};
ghost use Rattle.mb_mailbox.specs.declared.crew.WorkFault.TheVariants.{NoThread};
ghost use Rattle.mb_mailbox.specs.Hubs.{IsHubOf};
ghost use Rattle.mb_mailbox.specs.Runs.{IsDoneOf, full_of, is_aborted, is_stopped, with_taken, with_taken_one};

use super::jobs::Done;
use super::{WorkFault, Worked};
use crate::hub::Hub;
use crate::mailbox::Mailbox;
use std::alloc::Allocator;

/// What the ends of workers say: how many items were not put because no cell was left, how many workers were stopped,
/// and whether the run is aborted. The numbers stay at 2^64 - 1 once there.
#[derive(Clone, Copy)]
struct WorkTotals {
    full: u64,
    stopped: u64,
    aborted: bool,
}

/// These totals, with what one more end says.
fn add(old: WorkTotals, full: u64, stopped: bool, aborted: bool) -> WorkTotals
    ensures full { result.full ≡ min (old.full + full) (2 ^ 64 - 1) }
    ensures stopped { result.stopped ≡ min (old.stopped + from_bool stopped) (2 ^ 64 - 1) }
    ensures aborted { result.aborted ≡ (old.aborted || aborted) }
{
    WorkTotals {
        full: old.full.saturating_add(full),
        stopped: old.stopped.saturating_add(u64::from(stopped)),
        aborted: old.aborted || aborted,
    }
}

/// Takes back the producer or consumer of this end, and adds what the end says.
fn take_one<A: Allocator + Drop, B: Allocator + Drop>(
    mailbox: &Mailbox<B>,
    hub: &mut Hub<A>,
    end: Done<A>,
    old: WorkTotals,
) -> WorkTotals
    requires hub { IsHubOf mailbox.now hub.old }
    requires end { IsDoneOf mailbox.now end }
    ensures full { result.full ≡ min (old.full + full_of end) (2 ^ 64 - 1) }
    ensures stopped { result.stopped ≡ min (old.stopped + from_bool (is_stopped end)) (2 ^ 64 - 1) }
    ensures aborted { result.aborted ≡ (old.aborted || is_aborted end) }
    ensures hub { hub.new ≡ with_taken_one end hub.old }
    ensures belongs { IsHubOf mailbox.now hub.new }
{
    match end {
        Done::Put(put) => {
            hub.take_producer(mailbox, put.producer);
            add(old, put.full, put.stopped, put.aborted)
        }
        Done::Poll(poll) => {
            hub.take_consumer(mailbox, poll.consumer);
            add(old, 0, poll.stopped, poll.aborted)
        }
    }
}

/// Takes back the producers and consumers of all these ends, in order, and returns what the run came to. There is a
/// fault exactly if one of the ends says that the run is aborted.
pub(super) fn settle<A: Allocator + Drop, B: Allocator + Drop>(
    mailbox: &Mailbox<B>,
    hub: &mut Hub<A>,
    ends: Vec<Done<A>, A>,
) -> Result<Worked, WorkFault>
    requires hub { IsHubOf mailbox.now hub.old }
    requires ends { All (IsDoneOf mailbox.now) ends.items }
    ensures full { IfOk result (λ w. w.full ≡ min (2 ^ 64 - 1) (sum_by full_of ends.items)) }
    ensures stopped { IfOk result (λ w. w.stopped ≡ min (2 ^ 64 - 1)
        (sum_by (λ d. from_bool (is_stopped d)) ends.items)) }
    ensures on { IfOk result (λ _. All (λ d. is_aborted d ≡ false) ends.items) }
    ensures aborted { All (λ d. is_aborted d ≡ false) ends.items → IsOk result }
    ensures fault { IfErr result (λ e. e ≡ NoThread) }
    ensures some { IfErr result (λ _. 0 < length ends.items) }
    ensures hub { hub.new ≡ with_taken ends.items hub.old }
    ensures belongs { IsHubOf mailbox.now hub.new }
{
    let mut totals = WorkTotals {
        full: 0,
        stopped: 0,
        aborted: false,
    };
    for end in ends {
        totals = take_one(mailbox, hub, end, totals);
    }
    let WorkTotals {
        full,
        stopped,
        aborted,
    } = totals;
    if aborted {
        Err(WorkFault::NoThread)
    } else {
        Ok(Worked { full, stopped })
    }
}
