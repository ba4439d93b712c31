//! The faults of a run.

use mb_mailbox::WorkFault;
use std::alloc::AllocError;
use test_audit::Flaw;

/// Why a run failed.
#[derive(Clone, Copy, PartialEq, Eq, Debug)]
pub enum Fault {
    /// The plan's setup was refused.
    Setup,
    /// `work` was refused with this fault. All that it had issued was returned, with its lanes ended. This many workers
    /// have done something before that.
    Work(WorkFault, u64),
    /// Memory ran out.
    NoMemory,
    /// There was no report.
    NoReport,
    /// The report has this flaw.
    Report(Flaw),
    /// A lane that was issued has not ended, or one that was not issued has.
    NotEnded,
    /// A lane's items are not the first ones of its list.
    OtherItems,
    /// More items found no cell than the lanes lack, or, though nobody was stopped, fewer.
    OtherFull,
    /// An item found no cell, but there are cells without an item.
    FullTooEarly,
    /// A worker was stopped, though the plan's gate stops nobody.
    Stopped,
    /// Nobody was stopped, but a consumer has no note on some item, or has a claim under way.
    NotMet,
    /// A claim is under way, though each poll had a budget for a whole item.
    Spent,
    /// A consumer is undecided, though each cell has a last object.
    Undecided,
    /// Nobody took an item for which a consumer competed, and no claim on it is under way, though each cell has a last
    /// object.
    NotSettled,
}

impl From<AllocError> for Fault {
    fn from(_: AllocError) -> Fault {
        Fault::NoMemory
    }
}
