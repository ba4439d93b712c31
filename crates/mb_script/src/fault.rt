//! What can go wrong in a replay.
ghost use Rattle.std.specs.Prelude.{◌≡◌};
ghost use Rattle.mb_script.specs.declared.fault.Fault.TheVariants.{NoMemory, WriteFault};
ghost use Rattle.mb_script.specs.Faults.{fault_at};

use crate::transfer::{ReadEnd, WriteFailed};
use mb_world::SetupFault;
use std::alloc::{AllocError, AllocFailed};

/// Why a replay stopped. Lines count from 1.
#[derive(Clone, Copy, Debug, PartialEq, Eq)]
pub enum Fault {
    /// The script has more than 1,048,576 bytes.
    TooLong,
    /// Some byte is 128 or more.
    NotAscii,
    /// The line of this number has other words than it should: an empty one, too many or too few, or an unknown name.
    BadLine(usize),
    /// On the line of this number, a word that should spell a number below 2^64 does not.
    BadNumber(usize),
    /// There is no line, or the first word of the first line is not `setup`.
    NoSetup,
    /// On the line of this number, which is 1, a number is out of its range.
    BadSetup(usize, SetupFault),
    /// On the line of this number, the lane is not one of the setup's.
    NoLane(usize),
    /// On the line of this number, the consumer is not one of the setup's.
    NoConsumer(usize),
    /// After the first line there are more than 20,000 lines.
    TooManyEvents,
    /// Memory ran out.
    NoMemory,
    /// A read returned an error.
    ReadFault,
    /// A write returned an error, or took no byte.
    WriteFault,
}

// `?` turns the faults of these calls into faults of a replay.
impl From<AllocError> for Fault {
    ghost from_gives = { λ _ e. e ≡ NoMemory };

    fn from(_e: AllocError) -> Fault {
        Fault::NoMemory
    }
}

impl<T: Drop> From<AllocFailed<T>> for Fault {
    ghost from_gives = { λ _ e. e ≡ NoMemory };

    fn from(_e: AllocFailed<T>) -> Fault {
        Fault::NoMemory
    }
}

impl From<ReadEnd> for Fault {
    ghost from_gives = { λ end e. e ≡ fault_at end };

    fn from(end: ReadEnd) -> Fault {
        match end {
            ReadEnd::TooLong => Fault::TooLong,
            ReadEnd::NoMemory => Fault::NoMemory,
            ReadEnd::ReadFault => Fault::ReadFault,
        }
    }
}

impl From<WriteFailed> for Fault {
    ghost from_gives = { λ _ e. e ≡ WriteFault };

    fn from(_e: WriteFailed) -> Fault {
        Fault::WriteFault
    }
}
