//! The check of a mailbox after `work` was refused.
ghost use Rattle.mb_mailbox.specs.Hubs.{IsHubOf};

use crate::fault::Fault;
use crate::plan::Plan;
use mb_mailbox::{Hub, HubFault, Mailbox};
use mb_world::Report;
use std::alloc::Global;

/// Has the hub issue all producers that are left, and takes them back. Returns how many there were.
fn count_left(
    alloc: Global,
    mailbox: &Mailbox<Global>,
    hub: &mut Hub<Global>,
    most: u64,
) -> Result<u64, Fault>
    requires { IsHubOf mailbox.now hub.old }
    ensures { IsHubOf mailbox.now hub.new }
{
    for count in 0..most {
        match hub.producer(alloc, mailbox) {
            Ok(producer) => hub.take_producer(mailbox, producer),
            Err(HubFault::AllGiven) => return Ok(count),
            Err(HubFault::NoMemory) => return Err(Fault::NoMemory),
        }
    }
    Ok(most)
}

/// How many workers have done something: put an item, begun a claim or noted an item.
fn count_busy(report: &Report<Global>) -> u64 {
    let mut busy = 0u64;
    for lane in &report.lanes {
        busy = busy.wrapping_add(u64::from(!lane.put.is_empty()));
    }
    let mut last = None;
    for diary in &report.diaries {
        if (diary.begun || !diary.notes.is_empty()) && last != Some(diary.consumer) {
            busy = busy.wrapping_add(1);
            last = Some(diary.consumer);
        }
    }
    busy
}

/// Checks that all that was issued was returned, and that exactly the lanes that were issued have ended. Returns how many
/// workers have done something.
pub fn check_refused(
    alloc: Global,
    plan: &Plan,
    mailbox: Mailbox<Global>,
    mut hub: Hub<Global>,
) -> Result<u64, Fault>
    requires { IsHubOf mailbox hub }
{
    let left = count_left(alloc, &mailbox, &mut hub, plan.producers)?;
    let Ok(report) = mailbox.gather(alloc, hub) else {
        return Err(Fault::NoReport);
    };
    for (p, lane) in report.lanes.iter().enumerate() {
        let given = (p as u64).saturating_add(left) < plan.producers;
        if lane.ended != given {
            return Err(Fault::NotEnded);
        }
    }
    Ok(count_busy(&report))
}
