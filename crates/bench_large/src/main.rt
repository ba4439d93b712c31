//! Runs workers on one large mailbox, and audits its report.
//!
//! The arguments are PRODUCERS CONSUMERS PAIRS ITEMS SEED. There are ITEMS items and as many cells, shared among the
//! producers. Then may come the shape of the cells (else plain) and the source of random words (else chacha). What it
//! prints does not depend on the order of the threads. The consumers' results, and how long each part took, go to
//! standard error.
#![tactic(auto)]

ghost use Rattle.mb_mailbox.specs.Hubs.{IsHubOf};

use mb_claim::Shape;
use mb_mailbox::{Hub, Mailbox, OpenGate, WorkFault, work};
use mb_quorum::TableName;
use mb_script::report_text;
use mb_world::{Setup, SetupFault};
use rand_chacha::ChaCha8Rng;
use rand_core::{Rng, SeedableRng};
use rand_xoshiro::Xoshiro256PlusPlus;
use std::alloc::{AllocError, Global};
use std::io;
use std::process::ExitCode;
use std::sync::Wait;
use std::thread::Threads;
use std::time::{Clock, Duration, Instant};
use test_audit::{Flaw, Tally, audit};

/// The most accesses of one poll.
const BUDGET: u64 = 64;

/// Printed if the command line is refused.
const USAGE: &str = "usage: bench_large PRODUCERS CONSUMERS PAIRS ITEMS SEED \
    [plain|fast|last|fastlast|exchange [chacha|cheap]]";

/// The program's status if the run failed or its report has a flaw.
const FLAW: u8 = 1;

/// The program's status if the command line is refused.
const REFUSED: u8 = 2;

/// The consumers' source of random words.
#[derive(Clone, Copy)]
enum RandomWords {
    /// ChaCha8, as the other programs do.
    Chacha,
    /// xoshiro256++, which takes a few instructions for each word.
    Cheap,
}

/// What the command line asks for.
#[derive(Clone, Copy)]
struct Plan {
    producers: u64,
    consumers: u64,
    /// How many pairs of deciding objects each cell has.
    pairs: u64,
    /// How many items and cells there are.
    items: u64,
    seed: u64,
    /// If there is none, each cell has a last object alone, and no pairs.
    shape: Option<Shape>,
    words: RandomWords,
}

/// What a run came to, and how long it took to make the mailbox, and to work.
#[derive(Clone, Copy, Debug)]
struct Outcome {
    /// How long it took to make the mailbox.
    made: Duration,
    /// How long the workers took.
    worked: Duration,
    /// What came of the report.
    end: End,
}

/// The tally of the report, how long it took to make the report and its text, and the text's bytes.
#[derive(Clone, Copy, Debug)]
struct End {
    tally: Tally,
    /// How long it took to make the report.
    gathered: Duration,
    /// How long it took to make the report's text.
    written: Duration,
    /// How many bytes the text has.
    bytes: usize,
}

/// Why a run failed: its setup or its work was refused, there was no memory, report or clock, or the report has a flaw.
#[derive(Clone, Copy, Debug)]
enum Fault {
    Setup(SetupFault),
    Work(WorkFault),
    NoMemory,
    NoReport,
    NoClock,
    Report(Flaw),
    /// Some item found no cell, although there are as many cells as items.
    NotPut,
}

impl From<AllocError> for Fault {
    fn from(_: AllocError) -> Fault {
        Fault::NoMemory
    }
}

impl From<io::Error> for Fault {
    fn from(_: io::Error) -> Fault {
        Fault::NoClock
    }
}

/// The plan in these words. There is none if the words are not as the usage says.
fn plan_of(words: &[String]) -> Option<Plan> {
    let [_, producers, consumers, pairs, items, seed, more @ ..] = words else {
        return None;
    };
    let (shape, words) = match more {
        [] => (Some(Shape::PLAIN), RandomWords::Chacha),
        [shape] => (shape_of(shape.as_str())?, RandomWords::Chacha),
        [shape, words] => (shape_of(shape.as_str())?, words_of(words.as_str())?),
        _ => return None,
    };
    Some(Plan {
        producers: producers.parse::<u64>().ok()?,
        consumers: consumers.parse::<u64>().ok()?,
        pairs: pairs.parse::<u64>().ok()?,
        items: items.parse::<u64>().ok()?,
        seed: seed.parse::<u64>().ok()?,
        shape,
        words,
    })
}

/// The shape of this name, if there is one. Cells of `exchange` have none.
fn shape_of(name: &str) -> Option<Option<Shape>> {
    let (fast, last) = match name {
        "plain" => (false, false),
        "fast" => (true, false),
        "last" => (false, true),
        "fastlast" => (true, true),
        "exchange" => return Some(None),
        _ => return None,
    };
    Some(Some(Shape { fast, last }))
}

/// The source of random words of this name, if there is one.
fn words_of(name: &str) -> Option<RandomWords> {
    match name {
        "chacha" => Some(RandomWords::Chacha),
        "cheap" => Some(RandomWords::Cheap),
        _ => None,
    }
}

/// The number of the first item of this producer.
fn first_of(plan: &Plan, producer: u64) -> u64 {
    let items = plan.items.wrapping_mul(producer);
    items.checked_div(plan.producers).unwrap_or(0)
}

/// The lists of the producers: the items 0, 1, 2 and so on, cut into one list for each producer.
fn lists_of(alloc: Global, plan: &Plan) -> Result<Vec<Vec<u64>>, AllocError> {
    let mut lists = Vec::new(alloc);
    for p in 0..plan.producers {
        let (first, end) = (first_of(plan, p), first_of(plan, p.wrapping_add(1)));
        let mut list = Vec::with_capacity(alloc, end.saturating_sub(first) as usize)?;
        for item in first..end {
            list.push(item)?;
        }
        lists.push(list)?;
    }
    Ok(lists)
}

/// A source of random words for each consumer, each with a seed of its own.
fn sources_of<R: SeedableRng + Drop>(alloc: Global, plan: &Plan) -> Result<Vec<R>, AllocError> {
    let mut rngs = Vec::new(alloc);
    for c in 0..plan.consumers {
        let seed = plan.seed.wrapping_add(c);
        rngs.push(R::seed_from_u64(seed))?;
    }
    Ok(rngs)
}

/// Puts all items, while consumers take what they win. Returns how long that took.
fn work_all<R: Rng + SeedableRng + Send + Drop, W: Threads + Wait + Clock + Sync>(
    rt: &W,
    alloc: Global,
    plan: &Plan,
    mailbox: &Mailbox<Global>,
    hub: &mut Hub<Global>,
) -> Result<Duration, Fault>
    requires { IsHubOf mailbox.now hub.old }
    ensures { IsHubOf mailbox.now hub.new }
{
    let items = lists_of(alloc, plan)?;
    let rngs = sources_of::<R>(alloc, plan)?;
    let start = Instant::now(rt)?;
    let worked = work(alloc, rt, mailbox, hub, items, BUDGET, rngs, &OpenGate);
    worked.map_err(Fault::Work)?;
    Ok(start.elapsed(rt)?)
}

/// Makes the report and its text, and audits the report.
fn gather<W: Clock>(
    rt: &W,
    alloc: Global,
    plan: &Plan,
    mailbox: Mailbox<Global>,
    hub: Hub<Global>,
) -> Result<End, Fault>
    requires { IsHubOf mailbox hub }
{
    let start = Instant::now(rt)?;
    let Ok(report) = mailbox.gather(alloc, hub) else {
        return Err(Fault::NoReport);
    };
    let gathered = start.elapsed(rt)?;
    let start = Instant::now(rt)?;
    let bytes = report_text(alloc, &report)?.len();
    let written = start.elapsed(rt)?;
    let tally = audit(&report, plan.producers, plan.consumers).map_err(Fault::Report)?;
    Ok(End {
        tally,
        gathered,
        written,
        bytes,
    })
}

/// Makes a mailbox, works on it, and audits its report.
fn run<W: Threads + Wait + Clock + Sync>(
    rt: &W,
    alloc: Global,
    plan: &Plan,
) -> Result<Outcome, Fault> {
    let start = Instant::now(rt)?;
    let (producers, consumers, cells) = (plan.producers, plan.consumers, plan.items);
    let setup = match plan.shape {
        None => Setup::exchange(producers, consumers, cells).map_err(Fault::Setup)?,
        Some(shape) => Setup::large(producers, consumers, cells, plan.pairs, TableName::Bits)
            .map_err(Fault::Setup)?
            .shaped(shape),
    };
    let (mailbox, mut hub) = Mailbox::new(alloc, setup)?;
    let made = start.elapsed(rt)?;
    let worked = match plan.words {
        RandomWords::Chacha => work_all::<ChaCha8Rng, W>(rt, alloc, plan, &mailbox, &mut hub)?,
        RandomWords::Cheap => work_all::<Xoshiro256PlusPlus, W>(
            rt, alloc, plan, &mailbox, &mut hub,
        )?,
    };
    let end = gather(rt, alloc, plan, mailbox, hub)?;
    if end.tally.put != plan.items {
        return Err(Fault::NotPut);
    }
    Ok(Outcome { made, worked, end })
}

fn main(rt: HostRuntime) -> io::Result<ExitCode> {
    let words = std::env::args(&rt)?.collect::<Vec<String>>(rt.alloc())?;
    match plan_of(words.as_slice()) {
        Some(plan) => tell(&rt, &plan),
        None => refuse(&rt),
    }
}

/// Makes a run, and prints its result.
fn tell<R: AllocGlobal + Print + Eprint + Threads + Wait + Clock + Sync>(
    rt: &R,
    plan: &Plan,
) -> io::Result<ExitCode> {
    match run(rt, rt.alloc(), plan) {
        Ok(run) => {
            eprintln!(rt; "{run:?}")?;
            println!(rt;
                "all of {} items were put, and the report has no flaw",
                plan.items
            )?;
            Ok(ExitCode::SUCCESS)
        }
        Err(fault) => {
            println!(rt; "{fault:?}")?;
            Ok(ExitCode::from(FLAW))
        }
    }
}

/// Prints how the program is used.
fn refuse<R: Eprint + AllocGlobal>(rt: &R) -> io::Result<ExitCode> {
    eprintln!(rt; "{USAGE}")?;
    Ok(ExitCode::from(REFUSED))
}
