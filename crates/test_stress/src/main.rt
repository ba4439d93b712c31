//! Runs workers on one mailbox after the other, and audits the report of each.
//!
//! With the words SEED RUNS SECONDS it makes up to RUNS runs, and begins none after SECONDS seconds. A run's plan is
//! drawn from the seed and the run's number. So each run can be made again, except for the order of its threads. The
//! counts of the runs go to standard error, since they depend on that order.
#![tactic(auto)]

use std::io;
use std::process::ExitCode;
use std::time::Instant;

#[cfg(test)]
mod checks;
pub mod fault;
pub mod gates;
pub mod plan;
pub mod refused;
pub mod run;
pub mod settled;
pub mod sources;
pub mod totals;

use plan::Plan;
use run::run;
use totals::Totals;

/// The program's status if a run failed.
const FLAW: u8 = 1;

/// The program's status if the words of the command line are not three numbers.
const REFUSED: u8 = 2;

/// The numbers of the command line.
fn numbers(words: &[String]) -> Option<(u64, u64, u64)> {
    let [_, seed, runs, seconds] = words else {
        return None;
    };
    let seed = seed.parse::<u64>().ok()?;
    let runs = runs.parse::<u64>().ok()?;
    let seconds = seconds.parse::<u64>().ok()?;
    Some((seed, runs, seconds))
}

fn main(rt: HostRuntime) -> io::Result<ExitCode> {
    let words = std::env::args(&rt)?.collect::<Vec<String>>(rt.alloc())?;
    let Some((seed, runs, seconds)) = numbers(words.as_slice()) else {
        eprintln!(rt; "usage: test_stress SEED RUNS SECONDS")?;
        return Ok(ExitCode::from(REFUSED));
    };
    let start = Instant::now(&rt)?;
    let mut totals = Totals::none();
    for number in 0..runs {
        if start.elapsed(&rt)?.as_secs() >= seconds {
            break;
        }
        let plan = Plan::of(seed, number);
        match run(&rt, rt.alloc(), seed, number, &plan) {
            Ok(one) => totals = totals.with(&one),
            Err(fault) => {
                println!(rt; "run {number} of seed {seed}: {fault:?}, {plan:?}")?;
                return Ok(ExitCode::from(FLAW));
            }
        }
    }
    eprintln!(rt; "{totals}")?;
    println!(rt; "no flaw in {} runs", totals.runs)?;
    Ok(ExitCode::SUCCESS)
}
