//! What a run of claims returns.
ghost use Rattle.std.specs.Prelude.{◌≡◌};
ghost use Rattle.mb_claim.specs.declared.run.PlayFault.TheVariants.{NoMemory};

use crate::access::Stage;
use mb_deciding::Act;
use std::alloc::{AllocError, Allocator};
use std::error::Error;
use std::fmt;

/// One step of a run.
#[derive(Clone, Copy, PartialEq, Eq, Debug)]
pub enum ClaimEntry {
    /// The claim of the consumer made an access to the object with this number.
    Access {
        /// Whose step it was.
        consumer: u32,
        /// The number of the object.
        object: u32,
        /// The act that the claim made there.
        act: Act,
    },
    /// The claim of the consumer had ended before and made no access.
    Done {
        /// Whose step it was.
        consumer: u32,
    },
}

/// The steps of a run in order, and how far each consumer's claim has come at the end.
#[derive(Debug, Drop)]
pub struct ClaimRun<A: Allocator + Drop> {
    /// One entry for each step, in their order.
    pub entries: Vec<ClaimEntry, A>,
    /// How far the claim of each consumer has come.
    pub stages: Vec<Stage, A>,
}

/// Why there is no run. Positions in the steps count from 0.
#[derive(Clone, Copy, PartialEq, Eq, Debug)]
pub enum PlayFault {
    /// The step at this position is of no consumer of the layout. It is the first such step.
    NoConsumer(usize),
    /// Memory ran out.
    NoMemory,
}

impl From<AllocError> for PlayFault {
    ghost from_gives = { λ _ e. e ≡ NoMemory };

    fn from(_e: AllocError) -> PlayFault {
        PlayFault::NoMemory
    }
}

impl fmt::Display for PlayFault {
    fn fmt<W: fmt::Write>(&self, f: &mut fmt::Formatter<W>) -> fmt::Result {
        match self {
            PlayFault::NoConsumer(place) => write!(
                f,
                "the step at place {place} is of no consumer of the layout"
            ),
            PlayFault::NoMemory => f.write_str("out of memory"),
        }
    }
}

impl Error for PlayFault {}
