//! What can go wrong in the commands, besides the faults of a replay.
ghost use Rattle.std.specs.Prelude.{◌≡◌};
ghost use Rattle.mb_program.specs.declared.fault.RatifyFault.TheVariants.{NoMemory, WriteFault};
ghost use Rattle.mb_program.specs.declared.fault.RunFault.TheVariants as run;
ghost use Rattle.mb_program.specs.Refusal.{fault_from, fault_at};

use mb_script::{Fault, ReadEnd, WriteFailed};
use mb_world::SetupFault;
pub use std::alloc::AllocError as NoMemory;
use std::alloc::{AllocError, AllocFailed};

/// Why `ratify_text` stopped.
#[derive(Clone, Copy, Debug, PartialEq, Eq, Hash)]
pub enum RatifyFault {
    /// The script has more than 1,048,576 bytes.
    TooLong,
    /// Some byte is 128 or more.
    NotAscii,
    /// The line of this number, counted from 1, is missing, is one too many, or has other words than it should.
    BadLine(usize),
    /// On the line of this number, counted from 1, a word that should be a number below 2^64 is none.
    BadNumber(usize),
    /// The number of values is out of range.
    BadValues,
    /// The input at this place, counted from 0, is not below the number of values. It is the first such input.
    BadInput(usize),
    /// The turn at this place, counted from 0, names no process. It is the first such turn.
    NoSuchProcess(usize),
    /// Memory ran out.
    NoMemory,
    /// A read returned an error.
    ReadFault,
    /// A write returned an error, or took no byte.
    WriteFault,
}

// `?` turns the faults of these calls into faults of the command `ratify`.
impl From<AllocError> for RatifyFault {
    ghost from_gives = { λ _ e. e ≡ NoMemory };

    fn from(_e: AllocError) -> RatifyFault {
        RatifyFault::NoMemory
    }
}

impl<T: Drop> From<AllocFailed<T>> for RatifyFault {
    ghost from_gives = { λ _ e. e ≡ NoMemory };

    fn from(_e: AllocFailed<T>) -> RatifyFault {
        RatifyFault::NoMemory
    }
}

impl From<mb_deciding::Fault> for RatifyFault {
    ghost from_gives = { λ refusal e. e ≡ fault_from refusal };

    fn from(refusal: mb_deciding::Fault) -> RatifyFault {
        match refusal {
            mb_deciding::Fault::BadValues => RatifyFault::BadValues,
            mb_deciding::Fault::BadInput(place) => RatifyFault::BadInput(place),
            mb_deciding::Fault::NoSuchProcess(place) => RatifyFault::NoSuchProcess(place),
            mb_deciding::Fault::NoMemory => RatifyFault::NoMemory,
        }
    }
}

impl From<ReadEnd> for RatifyFault {
    ghost from_gives = { λ end e. e ≡ fault_at end };

    fn from(end: ReadEnd) -> RatifyFault {
        match end {
            ReadEnd::TooLong => RatifyFault::TooLong,
            ReadEnd::NoMemory => RatifyFault::NoMemory,
            ReadEnd::ReadFault => RatifyFault::ReadFault,
        }
    }
}

impl From<WriteFailed> for RatifyFault {
    ghost from_gives = { λ _ e. e ≡ WriteFault };

    fn from(_e: WriteFailed) -> RatifyFault {
        RatifyFault::WriteFault
    }
}

/// Why `run_threads` stopped.
#[derive(Clone, Copy, Debug, PartialEq, Eq)]
pub enum RunFault {
    /// The options ask for a setup that is refused.
    BadSetup(SetupFault),
    /// Memory ran out.
    NoMemory,
    /// A thread could not be started.
    NoThread,
    /// A write returned an error, or took no byte.
    WriteFault,
}

// `?` turns the faults of these calls into faults of `run`.
impl From<SetupFault> for RunFault {
    ghost from_gives = { λ why e. e ≡ run.BadSetup why };

    fn from(why: SetupFault) -> RunFault {
        RunFault::BadSetup(why)
    }
}

impl From<AllocError> for RunFault {
    ghost from_gives = { λ _ e. e ≡ run.NoMemory };

    fn from(_e: AllocError) -> RunFault {
        RunFault::NoMemory
    }
}

impl<T: Drop> From<AllocFailed<T>> for RunFault {
    ghost from_gives = { λ _ e. e ≡ run.NoMemory };

    fn from(_e: AllocFailed<T>) -> RunFault {
        RunFault::NoMemory
    }
}

impl From<WriteFailed> for RunFault {
    ghost from_gives = { λ _ e. e ≡ run.WriteFault };

    fn from(_e: WriteFailed) -> RunFault {
        RunFault::WriteFault
    }
}

/// Which command failed, and why.
#[derive(Clone, Copy, Debug, PartialEq, Eq)]
pub enum Failed {
    /// `ratify` failed with this fault.
    Ratify(RatifyFault),
    /// `replay` failed with this fault.
    Replay(Fault),
    /// `run` failed with this fault.
    Run(RunFault),
}
