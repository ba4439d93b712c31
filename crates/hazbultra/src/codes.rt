//! The codes that calls return, as numbers. They are those of `bindings/c/hazbultra.h`.
ghost use Rattle.std.specs.Prelude.{◌≡◌, ◌↔◌, ◌⊎◌};
ghost use Rattle.mb_mailbox.specs.declared.hub.HubFault.TheVariants as hub;
ghost use Rattle.hazbultra.specs.Calls.{table_numbered};
ghost use Rattle.hazbultra.specs.Refusals.{setup_code};
ghost use Rattle.hazbultra.specs.declared.codes.TheConstants.{ALL_GIVEN, NO_MEMORY};

use mb_mailbox::HubFault;
use mb_quorum::TableName;
use mb_world::SetupFault;

pub(crate) const DONE: u32 = 0;

pub(crate) const TOOK: u32 = 1;

pub(crate) const LOST: u32 = 2;

pub(crate) const UNDECIDED: u32 = 3;

pub(crate) const NOTHING: u32 = 4;

pub(crate) const ENDED: u32 = 5;

pub(crate) const SPENT: u32 = 6;

pub(crate) const NO_LANE: u32 = 7;

pub(crate) const LINKED: u32 = 8;

pub(crate) const FULL: u32 = 9;

pub(crate) const CLOSED: u32 = 10;

pub(crate) const NO_MEMORY: u32 = 16;

pub(crate) const BAD_HANDLE: u32 = 17;

pub(crate) const ALL_GIVEN: u32 = 18;

pub(crate) const MISSING: u32 = 19;

pub(crate) const OTHER_MAILBOX: u32 = 20;

pub(crate) const NOT_THERE: u32 = 21;

pub(crate) const BAD_TABLE: u32 = 32;

pub(crate) const BAD_PRODUCERS: u32 = 33;

pub(crate) const BAD_CONSUMERS: u32 = 34;

pub(crate) const BAD_CELLS: u32 = 35;

pub(crate) const BAD_PAIRS: u32 = 36;

/// The quorum table that this number names, if it names one.
pub(crate) fn table_of(number: u32) -> Option<TableName>
    ensures { result ≡ table_numbered number }
{
    match number {
        0 => Some(TableName::Unary),
        1 => Some(TableName::Bits),
        2 => Some(TableName::Middle),
        _ => None,
    }
}

/// The code of a fault of a setup.
pub(crate) fn code_of_setup(why: SetupFault) -> u32
    ensures { result ≡ setup_code why }
{
    match why {
        SetupFault::BadProducers => BAD_PRODUCERS,
        SetupFault::BadConsumers => BAD_CONSUMERS,
        SetupFault::BadCells => BAD_CELLS,
        SetupFault::BadRounds => BAD_PAIRS,
    }
}

/// The code of the reason for which a hub issued nothing.
pub(crate) fn code_of_hub(why: HubFault) -> u32
    ensures all_given { (result ≡ ALL_GIVEN) ↔ (why ≡ hub.AllGiven) }
    ensures codes { (result ≡ ALL_GIVEN) ⊎ (result ≡ NO_MEMORY) }
{
    match why {
        HubFault::AllGiven => ALL_GIVEN,
        HubFault::NoMemory => NO_MEMORY,
    }
}
