//! A worker, and the jobs that its jobs put.
ghost use Rattle.std.specs.Prelude.{◌≡◌, ◌+◌, ◌<◌, IfOk, IfSome};

use crate::board::Board;
use crate::options::Options;
use anyhow::{Result, bail};
use mb_channel::{Receiver, Sender};
use std::alloc::AllocError;
use std::sync::Wait;
use std::time::{Clock, Duration, Instant};

/// How many jobs a chain has. Each job of a chain puts the next one, except for the last.
pub const CHAIN: u64 = 8;

/// After how many milliseconds without a task a worker looks whether another one has given up.
const PATIENCE: u64 = 500;

/// What a worker is sent.
#[derive(Clone, Copy)]
pub enum Task {
    /// The job with this number.
    Run(u64),
    /// All jobs were run.
    Stop,
}

/// The job that this job puts, if it puts one.
fn further(job: u64, jobs: u64) -> Option<u64>
    ensures { IfSome result (λ next. (next ≡ job + 1) × (next < jobs)) }
{
    let next = job.checked_add(1)?;
    if next % CHAIN == 0 || next >= jobs {
        return None;
    }
    Some(next)
}

/// A worker: it receives jobs, and sends the jobs that these put.
#[derive(Drop)]
pub struct Worker {
    pub sender: Sender<Task>,
    pub receiver: Receiver<Task>,
}

/// Sends a task. The error is that memory was refused: the channel is never closed, and few ends are in a segment.
pub fn send<R: Wait>(rt: &R, sender: &mut Sender<Task>, task: Task) -> Result<(), AllocError> {
    match sender.send(rt, task) {
        Ok(()) => Ok(()),
        Err(_) => Err(AllocError),
    }
}

impl Worker {
    /// Another worker of the channel.
    pub fn another(&mut self) -> Result<Worker, AllocError> {
        Ok(Worker {
            sender: self.sender.another().ok_or(AllocError)?,
            receiver: self.receiver.another().ok_or(AllocError)?,
        })
    }

    /// Works until it is told to stop. If it fails, each other worker stops too, when it next finds no task.
    pub fn work<R: Eprint + Clock + Wait>(
        self,
        rt: &R,
        board: &Board,
        options: &Options,
    ) -> Result<()> {
        let mut worker = self;
        let end = worker.run_jobs(rt, board, options);
        if end.is_err() {
            board.give_up();
        }
        end
    }

    /// Runs jobs until it is told to stop, or until another worker has given up.
    fn run_jobs<R: Eprint + Clock + Wait>(
        &mut self,
        rt: &R,
        board: &Board,
        options: &Options,
    ) -> Result<()> {
        for _ in rt.forever() {
            if board.was_given_up() {
                break;
            }
            let now = Instant::now(rt)?;
            let soon = now
                .checked_add(Duration::from_millis(PATIENCE))
                .unwrap_or(now);
            match self.receiver.receive_by(rt, soon) {
                Ok(Some(Task::Run(job))) => self.run(rt, board, options, job)?,
                Ok(Some(Task::Stop)) => break,
                Ok(None) => {}
                // The channel is never closed, and few ends are in a segment.
                Err(_) => bail!("the channel refused a receiver"),
            }
        }
        Ok(())
    }

    /// Runs a job, and sends the job that it puts, or after the last job the stops.
    fn run<R: Eprint + Wait>(
        &mut self,
        rt: &R,
        board: &Board,
        options: &Options,
        job: u64,
    ) -> Result<(), AllocError> {
        let Some(many) = board.run(job) else {
            return Ok(());
        };
        if options.progress != 0 && many % options.progress == 0 {
            // A line that cannot be written is no reason to stop the work.
            let _ = eprintln!(rt; "{many} jobs were run");
        }
        if let Some(next) = further(job, options.jobs) {
            send(rt, &mut self.sender, Task::Run(next))?;
        }
        if many == options.jobs {
            for _ in 0..options.workers {
                send(rt, &mut self.sender, Task::Stop)?;
            }
        }
        Ok(())
    }
}
