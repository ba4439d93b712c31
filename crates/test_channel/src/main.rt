//! Sends values through the channel, in threads that make ends, give them back and drop them, and keeps account of each.
//!
//! With the words SEED VALUES ROUNDS it makes a soak of about VALUES values, and then ROUNDS short rounds, each on a
//! channel of its own. All is drawn from the seed, except for the order of the threads.
#![tactic(auto)]

use std::alloc::AllocError;
use std::io;
use std::process::ExitCode;
use std::sync::Wait;
use std::thread::Threads;
use std::time::Clock;

mod account;
mod crew;
mod draws;
mod receiving;
mod round;
mod sending;

use account::{Account, add};
use round::{Round, SHORT, run};

/// The program's status if a value was not received as it should be, or a channel did not end as it should.
const FAULT: u8 = 1;

/// The program's status if the words of the command line are not three numbers.
const REFUSED: u8 = 2;

/// The program's status if memory was refused. Then each value that was sent is accounted for, or a round was given up.
const NO_MEMORY: u8 = 3;

/// The numbers of the command line.
fn numbers(words: &[String]) -> Option<(u64, u64, u64)> {
    let [_, seed, values, rounds] = words else {
        return None;
    };
    let seed = seed.parse::<u64>().ok()?;
    let values = values.parse::<u64>().ok()?;
    let rounds = rounds.parse::<u64>().ok()?;
    Some((seed, values, rounds))
}

/// Makes the soak, and then the short rounds. Returns an account of each.
fn run_all<R: AllocGlobal + Clock + Threads + Wait + Sync>(
    rt: &R,
    seed: u64,
    values: u64,
    rounds: u64,
) -> Result<(Account, Account), AllocError> {
    let soak = Account::new(rt.alloc(), values)?;
    for half in 0..2 {
        if run(rt, &Round::soak(seed, half, values), &soak).is_err() {
            add(&soak.given_up, 1);
        }
    }
    let short = Account::new(rt.alloc(), rounds.saturating_mul(SHORT))?;
    for number in 0..rounds {
        if run(rt, &Round::short(seed, number), &short).is_err() {
            add(&short.given_up, 1);
        }
    }
    Ok((soak, short))
}

fn main(rt: HostRuntime) -> io::Result<ExitCode> {
    let words = std::env::args(&rt)?.collect::<Vec<String>>(rt.alloc())?;
    let Some((seed, values, rounds)) = numbers(words.as_slice()) else {
        eprintln!(rt; "usage: test_channel SEED VALUES ROUNDS")?;
        return Ok(ExitCode::from(REFUSED));
    };
    let Ok((soak, short)) = run_all(&rt, seed, values, rounds) else {
        eprintln!(rt; "no memory for an account")?;
        return Ok(ExitCode::from(NO_MEMORY));
    };
    println!(rt; "soak: {soak}")?;
    println!(rt; "{rounds} rounds: {short}")?;
    if soak.has_fault() || short.has_fault() {
        return Ok(ExitCode::from(FAULT));
    }
    if soak.lacks_memory() || short.lacks_memory() {
        return Ok(ExitCode::from(NO_MEMORY));
    }
    Ok(ExitCode::SUCCESS)
}
