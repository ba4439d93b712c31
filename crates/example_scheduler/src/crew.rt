//! The workers and their channel, from the first job to the last.

use crate::board::Board;
use crate::options::Options;
use crate::worker::{CHAIN, Task, Worker, send};
use anyhow::Result;
use mb_channel::{Sender, unbounded};
use std::alloc::{AllocError, Global};
use std::sync::Wait;
use std::thread::{Threads, map_vec};
use std::time::Clock;

/// Sends the first job of each chain.
fn begin<R: Wait>(rt: &R, sender: &mut Sender<Task>, jobs: u64) -> Result<(), AllocError> {
    for chain in 0..jobs.div_ceil(CHAIN) {
        send(rt, sender, Task::Run(chain.saturating_mul(CHAIN)))?;
    }
    Ok(())
}

/// So many workers: this one, and others that it makes.
fn hire<R: Wait>(
    rt: &R,
    alloc: Global,
    first: Worker,
    many: u64,
) -> Result<Vec<Worker>, AllocError> {
    let mut first = first;
    let mut crew = Vec::new(alloc);
    for _ in 1..many {
        crew.push(first.another()?)?;
    }
    crew.push(first)?;
    Ok(crew)
}

/// Runs all jobs. A worker that gets no thread works when another has stopped.
pub fn run_all<R: AllocGlobal + Eprint + Clock + Threads + Wait + Sync>(
    rt: &R,
    options: &Options,
    board: &Board,
) -> Result<()> {
    let (mut sender, receiver) = unbounded::<Task>(rt.alloc())?;
    begin(rt, &mut sender, options.jobs)?;
    let first = Worker { sender, receiver };
    let crew = hire(rt, rt.alloc(), first, options.workers)?;
    let ends = map_vec(rt, crew, &|worker| worker.work(rt, board, options))?;
    for end in ends {
        end?;
    }
    Ok(())
}
