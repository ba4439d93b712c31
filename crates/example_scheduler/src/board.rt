//! Which jobs were run, and their total.

use std::alloc::{AllocError, Global};
use std::fmt;
use std::sync::atomic::{AtomicBool, AtomicU64, Ordering};

/// Which jobs were run, and their total. Each run of job n adds n to the total.
#[derive(Drop)]
pub struct Board {
    /// How many jobs there are.
    jobs: u64,
    /// A bit for each job: whether it was run.
    run: Vec<AtomicU64>,
    /// How many jobs were run.
    once: AtomicU64,
    /// How often a job was run that had been run before.
    again: AtomicU64,
    /// The sum of what all runs added.
    total: AtomicU64,
    /// Whether a worker has failed.
    failed: AtomicBool,
}

impl Board {
    /// The board of the jobs 0 to `jobs - 1`. None was run yet.
    pub fn new(alloc: Global, jobs: u64) -> Result<Board, AllocError> {
        let words = jobs.div_ceil(64);
        let mut run = Vec::with_capacity(alloc, words as usize)?;
        for _ in 0..words {
            run.push(AtomicU64::new(0))?;
        }
        Ok(Board {
            jobs,
            run,
            once: AtomicU64::new(0),
            again: AtomicU64::new(0),
            total: AtomicU64::new(0),
            failed: AtomicBool::new(false),
        })
    }

    /// Runs the job with this number. If it was not run before, this returns how many jobs have been run with it. If there
    /// is no such job, it does nothing.
    pub fn run(&self, job: u64) -> Option<u64> {
        if job >= self.jobs {
            return None;
        }
        let word = self.run.get((job / 64) as usize)?;
        let bit = 1u64 << (job % 64);
        let before = word.fetch_or(bit, Ordering::SeqCst);
        self.total.fetch_add(job, Ordering::SeqCst);
        if before & bit != 0 {
            self.again.fetch_add(1, Ordering::SeqCst);
            return None;
        }
        Some(self.once.fetch_add(1, Ordering::SeqCst).wrapping_add(1))
    }

    /// Tells all workers that one of them has failed.
    pub fn give_up(&self) {
        self.failed.store(true, Ordering::SeqCst);
    }

    /// Whether a worker has failed.
    pub fn was_given_up(&self) -> bool {
        self.failed.load(Ordering::SeqCst)
    }
}

impl fmt::Display for Board {
    fn fmt<W: fmt::Write>(&self, f: &mut fmt::Formatter<W>) -> fmt::Result {
        let jobs = self.jobs;
        let once = self.once.load(Ordering::SeqCst);
        let again = self.again.load(Ordering::SeqCst);
        let total = self.total.load(Ordering::SeqCst);
        write!(
            f,
            "{jobs} jobs: {once} were run, {again} times one was run again; all came to {total}"
        )
    }
}
