//! Progress, on standard error.

use crate::board::Board;
use std::thread::sleep;
use std::time::{Clock, Duration, Instant};

/// How many milliseconds the teller sleeps before it looks whether all workers have stopped.
const NAP: u64 = 20;

/// Prints once a second how many jobs were run, until all workers have stopped. A run of less than a second prints
/// nothing.
pub fn tell<R: Clock + Eprint>(rt: &R, board: &Board) {
    let Ok(start) = Instant::now(rt) else {
        return;
    };
    let mut told = 0;
    for _ in 0..u64::MAX {
        if board.is_over() {
            return;
        }
        sleep(rt, Duration::from_millis(NAP));
        let Ok(elapsed) = start.elapsed(rt) else {
            return;
        };
        let seconds = elapsed.as_secs();
        if seconds > told {
            told = seconds;
            let run = board.count();
            let jobs = board.len();
            // A line that cannot be written is no reason to stop the work.
            let _ = eprintln!(rt; "{run} of {jobs} jobs were run");
        }
    }
}
