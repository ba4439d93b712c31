//! What the command line asks for.
ghost use Rattle.std.specs.Prelude.{◌≤◌};

use clap::builder::ValueParser;
use clap::{Arg, ArgAction, ArgMatches, Command, Error};
use mb_quorum::TableName;
use std::alloc::Global;

/// The most lanes that a mailbox has.
pub const MAX_LANES: usize = 16;

/// How large a run is, and what its random words are seeded with.
#[derive(Clone, Copy)]
pub struct Asked {
    /// How many jobs there are, 1 to 2^24.
    pub jobs: u64,
    /// How many producers put them, 1 to 16. Each has a lane of its own.
    pub producers: u64,
    /// How many workers run them, 1 to 64.
    pub workers: u64,
    /// The seed of the workers' random words. If there is none, the system seeds them.
    pub seed: Option<u64>,
}

/// The values of options that are not given.
const DEFAULTS: Asked = Asked {
    jobs: 24,
    producers: 3,
    workers: 4,
    seed: None,
};

impl Asked {
    /// How many lanes there are: one for each producer.
    pub fn lanes(&self) -> usize
        ensures { result ≤ 16 }
    {
        MAX_LANES.min(self.producers as usize)
    }

    /// The number of the first job of this producer, and the number after its last job.
    pub fn jobs_of(&self, producer: u64) -> (u64, u64) {
        let before = |n: u64| {
            self.jobs
                .wrapping_mul(n)
                .checked_div(self.producers)
                .unwrap_or(0)
        };
        (before(producer), before(producer.wrapping_add(1)))
    }

    /// The lane that this worker polls first. The workers are dealt to the lanes one after the other.
    pub fn first_lane(&self, worker: u64) -> usize {
        worker.checked_rem(self.producers).unwrap_or(0) as usize
    }

    /// The quorum table. `Middle` has fewer registers than `Bits` for more than four workers.
    pub fn table(&self) -> TableName {
        if self.workers > 4 {
            TableName::Middle
        } else {
            TableName::Bits
        }
    }

    /// After how many jobs a worker stops. Together the workers run fewer jobs than there are, so some jobs are left at
    /// the end.
    pub fn shift(&self) -> u64 {
        let share = self.jobs.checked_div(self.workers).unwrap_or(0);
        share.wrapping_mul(5) / 6
    }
}

/// An option that takes a number.
fn option<'a>(alloc: Global, name: &'a str, meaning: &'a str) -> Arg<'a> {
    Arg::new(alloc, name)
        .long(name)
        .value_name("N")
        .help(meaning)
}

/// An option that takes a number in this range.
fn number<'a>(alloc: Global, name: &'a str, low: u64, high: u64, meaning: &'a str) -> Arg<'a> {
    option(alloc, name, meaning)
        .action(ArgAction::Set)
        .value_parser(ValueParser::unsigned(low, high))
}

/// The number of an option, or its default.
fn given(matches: &ArgMatches, name: &str, default: u64) -> u64 {
    matches.get_one::<u64>(name).unwrap_or(default)
}

/// Reads the command line. Its first word is the program's name. Which lines are refused, and with which text, is up to
/// clap.
pub fn asked_in(alloc: Global, words: &[String]) -> Result<Asked, Error> {
    let command = Command::new(alloc, "example_jobs")
        .about("A job queue over the mailbox")
        .arg(number(
            alloc,
            "jobs",
            1,
            1 << 24,
            "How many jobs there are, 1 to 16777216 [default: 24]",
        ))?
        .arg(number(
            alloc,
            "producers",
            1,
            16,
            "How many producers put them, 1 to 16 [default: 3]",
        ))?
        .arg(number(
            alloc,
            "workers",
            1,
            64,
            "How many workers run them, 1 to 64 [default: 4]",
        ))?
        .arg(number(
            alloc,
            "seed",
            0,
            u64::MAX,
            "The seed of the workers' random words [default: the system's]",
        ))?;
    let matches = command.try_get_matches_from(words)?;
    Ok(Asked {
        jobs: given(&matches, "jobs", DEFAULTS.jobs),
        producers: given(&matches, "producers", DEFAULTS.producers),
        workers: given(&matches, "workers", DEFAULTS.workers),
        seed: matches.get_one::<u64>("seed"),
    })
}
