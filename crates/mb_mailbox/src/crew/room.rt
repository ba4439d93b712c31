//! The lists of a run's jobs, workers and ends, with all their room from the start.
ghost use Rattle.std.specs.Prelude.{IfOk};
ghost use Rattle.mb_mailbox.specs.Runs.{HasRoom};

use super::jobs::{Done, Job};
use super::worker::RunWorker;
use crate::gate::Gate;
use rand_core::Rng;
use std::alloc::{AllocError, Allocator};

/// The memory of a run: its allocator, and room for the jobs, for their workers (`begun`) and for the workers' ends.
#[derive(Drop)]
pub(crate) struct RunMemory<G: Gate, R: Rng + Drop, A: Allocator + Drop> {
    pub(crate) alloc: A,
    pub(crate) jobs: Vec<Job<R, A>, A>,
    pub(crate) begun: Vec<RunWorker<G, R, A>, A>,
    pub(crate) ends: Vec<Done<A>, A>,
}

/// Takes room for this many workers.
pub(super) fn memory_for_run<G: Gate, R: Rng + Drop, A: Allocator + Clone + Drop>(
    alloc: A,
    workers: usize,
) -> Result<RunMemory<G, R, A>, AllocError>
    ensures jobs { IfOk result (λ m. HasRoom workers m.jobs) }
    ensures begun { IfOk result (λ m. HasRoom workers m.begun) }
    ensures ends { IfOk result (λ m. HasRoom workers m.ends) }
{
    let jobs = Vec::with_capacity(alloc.clone()?, workers)?;
    let begun = Vec::with_capacity(alloc.clone()?, workers)?;
    let ends = Vec::with_capacity(alloc.clone()?, workers)?;
    Ok(RunMemory {
        alloc,
        jobs,
        begun,
        ends,
    })
}
