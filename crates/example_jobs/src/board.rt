//! How often each job was run, and the sum of the results.

use std::alloc::{AllocError, Global};
use std::fmt;
use std::sync::atomic::{AtomicU64, Ordering};

/// How often each job was run, and the sum of the results. The result of job n is the sum of the numbers from 1 to n.
#[derive(Drop)]
pub struct Board {
    /// How often each job was run.
    runs: Vec<AtomicU64>,
    /// How many runs of jobs there were.
    count: AtomicU64,
    /// The sum of the results of all runs.
    total: AtomicU64,
    /// How many workers have not stopped yet.
    at_work: AtomicU64,
}

impl Board {
    /// The board of the jobs 0 to `jobs - 1`. None was run yet, and `workers` workers are at work.
    pub fn new(alloc: Global, jobs: u64, workers: u64) -> Result<Board, AllocError> {
        let mut runs = Vec::with_capacity(alloc, jobs as usize)?;
        for _ in 0..jobs {
            runs.push(AtomicU64::new(0))?;
        }
        Ok(Board {
            runs,
            count: AtomicU64::new(0),
            total: AtomicU64::new(0),
            at_work: AtomicU64::new(workers),
        })
    }

    /// How many jobs there are.
    pub fn len(&self) -> usize {
        self.runs.len()
    }

    /// How many jobs were run until now. A job that was run again counts again.
    pub fn count(&self) -> u64 {
        self.count.load(Ordering::SeqCst)
    }

    /// Says that one more worker has stopped.
    pub fn go_home(&self) {
        self.at_work.fetch_sub(1, Ordering::SeqCst);
    }

    /// Whether all workers have stopped.
    pub fn is_over(&self) -> bool {
        self.at_work.load(Ordering::SeqCst) == 0
    }

    /// Runs the job with this number. If there is no such job, it does nothing.
    pub fn run(&self, number: u64) {
        let Some(runs) = self.runs.get(number as usize) else {
            return;
        };
        // The sum would wrap only for a job past 2^32, and there are at most 2^24 jobs.
        let mut sum = 0u64;
        for n in 0..number {
            sum = sum.wrapping_add(n + 1);
        }
        self.total.fetch_add(sum, Ordering::SeqCst);
        runs.fetch_add(1, Ordering::SeqCst);
        self.count.fetch_add(1, Ordering::SeqCst);
    }

    /// How many jobs were run at least this often.
    fn run_at_least(&self, times: u64) -> usize {
        let runs = self.runs.iter();
        runs.filter(|runs| runs.load(Ordering::SeqCst) >= times)
            .count()
    }
}

impl fmt::Display for Board {
    fn fmt<W: fmt::Write>(&self, f: &mut fmt::Formatter<W>) -> fmt::Result {
        let jobs = self.runs.len();
        let once = self.run_at_least(1);
        let twice = self.run_at_least(2);
        let total = self.total.load(Ordering::SeqCst);
        write!(
            f,
            "{jobs} jobs: {once} were run, {twice} more than once; all came to {total}"
        )
    }
}
