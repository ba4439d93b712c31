//! The trace of a schedule, and why there may be none.
ghost use Rattle.std.specs.Prelude.{◌≡◌};
ghost use Rattle.mb_deciding.specs.declared.trace.Fault.TheVariants as fault;

use crate::access::Act;
use crate::object::Out;
use mb_quorum::BadValues;
use std::alloc::{AllocError, Allocator};
use std::error::Error;
use std::fmt;

/// What one turn of a schedule came to. Processes count from 0.
#[derive(Clone, Copy, PartialEq, Eq, Debug)]
pub enum Entry {
    /// The process made an access.
    Access {
        /// Whose turn it was.
        process: usize,
        /// What the process did.
        act: Act,
        /// The process's output, if this was its last access.
        out: Option<Out>,
    },
    /// The process had its output before and made no access.
    Done {
        /// Whose turn it was.
        process: usize,
    },
}

/// What each turn of a schedule came to, and what output each process has at the end.
#[derive(Debug, Drop)]
pub struct Trace<A: Allocator + Drop> {
    /// One entry for each turn of the schedule, in its order.
    pub entries: Vec<Entry, A>,
    /// For each process its output, or none if it has not ended.
    pub outputs: Vec<Option<Out>, A>,
}

/// Why there is no trace. Positions in the inputs and in the schedule count from 0.
#[derive(Clone, Copy, PartialEq, Eq, Debug)]
pub enum Fault {
    /// The number of values is out of range.
    BadValues,
    /// The input at this position is the first that is not below the number of values.
    BadInput(usize),
    /// The turn at this position is the first of a process without an input.
    NoSuchProcess(usize),
    /// Memory ran out.
    NoMemory,
}

impl From<BadValues> for Fault {
    ghost from_gives = { λ _ e. e ≡ fault.BadValues };

    fn from(_e: BadValues) -> Fault {
        Fault::BadValues
    }
}

impl From<AllocError> for Fault {
    ghost from_gives = { λ _ e. e ≡ fault.NoMemory };

    fn from(_e: AllocError) -> Fault {
        Fault::NoMemory
    }
}

impl fmt::Display for Fault {
    fn fmt<W: fmt::Write>(&self, f: &mut fmt::Formatter<W>) -> fmt::Result {
        match self {
            Fault::BadValues => f.write_str("the number of values is out of range"),
            Fault::BadInput(place) => write!(f, "input {place} is not below the number of values"),
            Fault::NoSuchProcess(place) => write!(
                f,
                "turn {place} is of a process without an input"
            ),
            Fault::NoMemory => f.write_str("out of memory"),
        }
    }
}

impl Error for Fault {}
