//! The command line.

use clap::builder::ValueParser;
use clap::{Arg, ArgAction, ArgMatches, Command, Error};
use std::alloc::{AllocError, Global};
use std::convert::AsStr;

/// What the command line asks for.
#[derive(Clone, Copy)]
pub struct Options {
    /// How many jobs there are, 1 to 2^32.
    pub jobs: u64,
    /// How many workers run them, 1 to 64.
    pub workers: u64,
    /// After how many jobs a line goes to standard error. If this is 0, no line does.
    pub progress: u64,
}

/// An option that takes a number from `low` to `high`.
fn number<'a>(
    alloc: Global,
    name: &'a str,
    default: &'a str,
    low: u64,
    high: u64,
    meaning: &'a str,
) -> Arg<'a> {
    Arg::new(alloc, name)
        .long(name)
        .value_name("N")
        .help(meaning)
        .action(ArgAction::Set)
        .value_parser(ValueParser::unsigned(low, high))
        .default_value(default)
}

/// The command line, as clap needs it.
fn command<'a>(alloc: Global) -> Result<Command<'a>, AllocError> {
    let jobs = number(alloc, "jobs", "1000", 1, 1 << 32, "How many jobs there are");
    let workers = number(alloc, "workers", "4", 1, 64, "How many workers run them");
    let progress = number(
        alloc,
        "progress",
        "0",
        0,
        u64::MAX,
        "After how many jobs a line goes to standard error, if not 0",
    );
    Command::new(alloc, "scheduler")
        .about("Runs jobs that put further jobs, over a channel")
        .arg(jobs)?
        .arg(workers)?
        .arg(progress)
}

/// The number given for an option. Each option has a default, so clap always has a number.
fn number_given(given: &ArgMatches, name: &str) -> u64 {
    given.get_one::<u64>(name).unwrap_or(1)
}

/// What these words ask for. The first word is the program's name.
pub fn options_of<S: AsStr>(alloc: Global, words: &[S]) -> Result<Options, Error> {
    let given = command(alloc)?.try_get_matches_from(words)?;
    Ok(Options {
        jobs: number_given(&given, "jobs"),
        workers: number_given(&given, "workers"),
        progress: number_given(&given, "progress"),
    })
}
