//! A scheduler whose jobs put further jobs, over a channel. Each worker has a thread, a sender and a receiver: it receives
//! a job, runs it, and sends the job that this one puts. Whoever runs the last job sends each worker a stop.
#![tactic(auto)]

mod board;
mod crew;
mod options;
mod worker;

use anyhow::Result;
use board::Board;
use clap::Error;
use crew::run_all;
use options::{Options, options_of};
use std::process::ExitCode;
use std::sync::Wait;
use std::thread::Threads;
use std::time::Clock;

fn main(rt: HostRuntime) -> Result<ExitCode> {
    let words = std::env::args(&rt)?.collect::<Vec<String>>(rt.alloc())?;
    match options_of(rt.alloc(), words.as_slice()) {
        Ok(options) => run(&rt, &options),
        Err(error) => refuse(&rt, &error),
    }
}

/// Runs all jobs, and prints what the board says.
fn run<R: AllocGlobal + Print + Eprint + Clock + Threads + Wait + Sync>(
    rt: &R,
    options: &Options,
) -> Result<ExitCode> {
    let board = Board::new(rt.alloc(), options.jobs)?;
    run_all(rt, options, &board)?;
    println!(rt; "{board}")?;
    Ok(ExitCode::SUCCESS)
}

/// Prints why the command line is refused, or how the program is used if it asks for that.
fn refuse<R: AllocGlobal + Print + Eprint>(rt: &R, error: &Error) -> Result<ExitCode> {
    error.print(rt)?;
    Ok(ExitCode::from(error.exit_code() as u8))
}
