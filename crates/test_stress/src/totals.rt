//! What the soak counts in its runs, and prints: runs, items, notes, and workers that were stopped.

use std::fmt;
use test_audit::Tally;

/// The counts of one run, or of several runs together.
#[derive(Clone, Copy, Debug)]
pub struct Totals {
    pub runs: u64,
    pub tally: Tally,
    /// Items that found no cell.
    pub full: u64,
    /// Workers that were stopped at the gate.
    pub stopped: u64,
}

impl Totals {
    /// The counts of no run.
    pub fn none() -> Totals {
        Totals {
            runs: 0,
            tally: Tally::none(),
            full: 0,
            stopped: 0,
        }
    }

    /// The sums of both totals, modulo 2^64.
    pub fn with(&self, other: &Totals) -> Totals {
        Totals {
            runs: self.runs.wrapping_add(other.runs),
            tally: self.tally.with(other.tally),
            full: self.full.wrapping_add(other.full),
            stopped: self.stopped.wrapping_add(other.stopped),
        }
    }
}

impl fmt::Display for Totals {
    fn fmt<W: fmt::Write>(&self, f: &mut fmt::Formatter<W>) -> fmt::Result {
        let tally = self.tally;
        write!(f, "{} runs, {} items put, ", self.runs, tally.put)?;
        write!(f, "{} took, {} left, ", tally.took, tally.left)?;
        write!(f, "{} lost, {} undecided, ", tally.lost, tally.undecided)?;
        write!(f, "{} claims under way, ", tally.under_way)?;
        write!(
            f,
            "{} items without a cell, {} workers stopped",
            self.full, self.stopped
        )
    }
}
