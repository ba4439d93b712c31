//! A job queue over the mailbox. Producers put the numbers of jobs, and workers, each in a thread of its own, take them
//! and run them. At most one worker takes a job. Jobs that nobody took are run at the end, by the main thread.
#![tactic(auto)]

mod asked;
mod board;
mod crew;
mod progress;

use anyhow::{Error, Result};
use asked::{Asked, asked_in};
use board::Board;
use mb_mailbox::Mailbox;
use mb_world::Setup;
use std::io::IsTerminal;
use std::process::ExitCode;
use std::random::RandomSource;
use std::thread::{Threads, for_each_mut};
use std::time::Clock;

/// How many pairs of deciding objects each job's cell has. With more pairs, fewer claims are likely to end undecided.
const PAIRS: u64 = 4;

/// The most threads at one time: one for each member of the crew, at most 16 producers, 64 workers and one teller.
const THREADS: usize = 81;

fn main(rt: HostRuntime) -> Result<ExitCode> {
    let words = std::env::args(&rt)?.collect::<Vec<String>>(rt.alloc())?;
    match asked_in(rt.alloc(), words.as_slice()) {
        Ok(asked) => run(&rt, &asked, rt.stderr().is_terminal())?,
        Err(error) => {
            error.print(&rt)?;
            return Ok(ExitCode::from(error.exit_code() as u8));
        }
    }
    Ok(ExitCode::SUCCESS)
}

/// Runs all jobs, and prints the board. If `tells` holds, a teller also prints once a second how many jobs were run.
fn run<R: RandomSource + AllocGlobal + Clock + Print + Eprint + Threads + Sync>(
    rt: &R,
    asked: &Asked,
    tells: bool,
) -> Result<()> {
    let setup = Setup::large(
        asked.producers,
        asked.workers,
        asked.jobs,
        PAIRS,
        asked.table(),
    )?;
    let (mailbox, mut hub) = Mailbox::new(rt.alloc(), setup)?;
    let board = Board::new(rt.alloc(), asked.jobs, asked.workers)?;

    // The members of the crew work, each in a thread of its own.
    let mut crew = crew::hire(rt, &mailbox, &mut hub, asked, tells)?;
    for_each_mut(
        rt,
        &mut crew,
        THREADS,
        &|_, member| member.work(rt, &mailbox, &board, asked),
    );
    crew::take_in(&mailbox, &mut hub, crew);

    // All consumers are returned, so nobody can take a job any more. Whoever has the report may run the jobs left.
    let report = mailbox
        .gather(rt.alloc(), hub)
        .map_err(|(fault, _, _)| Error::from(fault))?;
    for lane in report.lanes.iter() {
        for job in lane.left.iter() {
            board.run(*job);
        }
    }
    println!(rt; "{board}")?;
    Ok(())
}
