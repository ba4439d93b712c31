//! How the faults of a hub, of `gather` and of `work` are displayed.

use mb_mailbox::{GatherFault, HubFault, WorkFault};
use std::test::Fail;
use test_support::check_display;

#[test]
fn text_of_mailboxes(rt: HostRuntime) -> Result<(), Fail> {
    check_display(
        &rt,
        &GatherFault::Missing(2, 1),
        "2 producers and 1 consumers were not taken in",
    )?;
    check_display(&rt, &GatherFault::NoMemory, "out of memory")?;
    check_display(
        &rt,
        &HubFault::AllGiven,
        "all numbers of the mailbox were given",
    )?;
    check_display(&rt, &HubFault::NoMemory, "out of memory")
}

const WORK_FAULTS: &[(WorkFault, &str)] = &[
    (
        WorkFault::AllGiven,
        "more numbers are asked for than the mailbox has left",
    ),
    (WorkFault::BadBudget, "the budget is 0"),
    (WorkFault::NoMemory, "out of memory"),
    (WorkFault::NoThread, "a thread could not be started"),
];

#[test]
fn text_of_workers(rt: HostRuntime) -> Result<(), Fail> {
    for (fault, text) in WORK_FAULTS {
        check_display(&rt, fault, text)?;
    }
    Ok(())
}
