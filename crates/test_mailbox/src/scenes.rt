//! Scenes: calls of a mailbox in one thread, a line for each, with its result. No call gets a runtime to wait with.

use crate::compare::same_at;
use crate::trial::Trial;
use crate::trials::ends;
use mb_cells::Finish;
use mb_mailbox::{HubFault, Poll, Put};
use mb_quorum::TableName;
use mb_script::{number, split_word};
use mb_world::Setup;
use std::alloc::Allocator;
use std::process::Abort;
use test_support::Zeros;

/// The result of a call: a word, and the number after it.
type Answered<'a> = (&'a str, Option<u64>);

/// Makes the calls of these lines. Checks that each has the result that its line has after the colon.
///
/// | Call | What is called |
/// |---|---|
/// | `producer`, `consumer` | the hub issues one |
/// | `put PLACE ITEM`, `finish PLACE` | the producer at position PLACE of the trial |
/// | `poll PLACE LANE BUDGET`, `take PLACE LANE MOST` | the consumer at position PLACE of the trial |
/// | `spend PLACE BUDGET TIMES` | TIMES polls of lane 0 by the consumer at position PLACE: how many are spent |
/// | `drawn` | how many words the polls of these lines have drawn, all of them 0 |
/// | `take_producer PLACE` | the hub takes back the producer at position PLACE |
pub(crate) fn play<A: Allocator + Copy + Drop>(
    rt: &impl Abort,
    trial: &mut Trial<A>,
    alloc: A,
    lines: &str,
) {
    let mut words = Zeros::default();
    for line in lines.lines() {
        let (call, want) = line.split_once(':').expect(rt, "a line without a colon");
        let told = make(trial, alloc, &mut words, call);
        same_at(rt, &told, &told_by(want), &line);
    }
}

/// Makes the calls of these lines in a new mailbox of this many producers, consumers and cells, with one pair for each
/// cell. Then the report has this text.
pub(crate) fn plays<R: Abort + AllocGlobal>(rt: &R, sizes: [u64; 3], lines: &str, report: &str) {
    let setup = Setup::new(sizes[0], sizes[1], sizes[2], 1, TableName::Bits);
    plays_in(rt, setup.expect(rt, "no setup"), lines, report);
}

/// Makes the calls of these lines in a new mailbox of this setup. Then the report has this text.
pub(crate) fn plays_in<R: Abort + AllocGlobal>(rt: &R, setup: Setup, lines: &str, report: &str) {
    let alloc = rt.alloc();
    let mut trial = Trial::new(alloc, setup).expect(rt, "no mailbox");
    play(rt, &mut trial, alloc, lines);
    ends(rt, alloc, trial, report);
}

/// The word and the number that stand in a line after its colon and a space.
fn told_by(text: &str) -> Answered<'_> {
    let (_, rest) = split_word(text);
    match rest {
        Some(rest) => match split_word(rest) {
            (word, Some(last)) => (word, number(last)),
            (word, None) => (word, None),
        },
        None => ("", None),
    }
}

/// The next number of a line, or 0 if there is none, and the text after it.
fn next_number(rest: Option<&str>) -> (u64, Option<&str>) {
    let Some(rest) = rest else {
        return (0, None);
    };
    let (word, rest) = split_word(rest);
    match number(word) {
        Some(next) => (next, rest),
        None => (0, None),
    }
}

/// The next three numbers of a line.
fn three_numbers(rest: Option<&str>) -> (usize, u64, u64) {
    let (first, rest) = next_number(rest);
    let (second, rest) = next_number(rest);
    (first as usize, second, next_number(rest).0)
}

/// Makes the call that stands in a line before its colon, and returns its result.
fn make<'a, A: Allocator + Copy + Drop>(
    trial: &mut Trial<A>,
    alloc: A,
    words: &mut Zeros,
    call: &str,
) -> Answered<'a> {
    let (name, rest) = split_word(call);
    let (place, second, third) = three_numbers(rest);
    match name {
        "producer" => given(trial.producer(alloc)),
        "consumer" => given(trial.consumer(alloc)),
        "put" => put(trial.put(place, second)),
        "finish" => finished(trial.finish(place)),
        "poll" => polled(trial.poll(place, second, third, words)),
        "take" => polled(trial.take(place, second, third, words)),
        "spend" => spent(trial, words, place, second, third),
        "drawn" => ("words", Some(words.given)),
        "take_producer" => taken(trial.take_producer(place)),
        _ => ("no such call", None),
    }
}

/// The word that a line has for the result of a hub that was asked for a producer or consumer.
fn given<'a>(told: Result<(), HubFault>) -> Answered<'a> {
    let word = match told {
        Ok(()) => "given",
        Err(HubFault::AllGiven) => "all_given",
        Err(HubFault::NoMemory) => "no_memory",
    };
    (word, None)
}

/// The word for the result of a put.
fn put<'a>(told: Option<Put>) -> Answered<'a> {
    let word = match told {
        Some(Put::Linked) => "linked",
        Some(Put::Full) => "full",
        Some(Put::Closed) => "closed",
        None => "nobody",
    };
    (word, None)
}

/// The word for the result of a finish.
fn finished<'a>(told: Option<Finish>) -> Answered<'a> {
    let word = match told {
        Some(Finish::Ended) => "ended",
        Some(Finish::Busy) => "busy",
        Some(Finish::Closed) => "closed",
        None => "nobody",
    };
    (word, None)
}

/// The word for the result of a poll or a take, and the item or the winner.
fn polled<'a>(told: Option<Poll>) -> Answered<'a> {
    match told {
        Some(Poll::Took(item)) => ("took", Some(item)),
        Some(Poll::Lost(winner)) => ("lost", Some(u64::from(winner))),
        Some(Poll::Undecided) => ("undecided", None),
        Some(Poll::Nothing) => ("nothing", None),
        Some(Poll::Ended) => ("ended", None),
        Some(Poll::Spent) => ("spent", None),
        Some(Poll::NoLane) => ("no_lane", None),
        None => ("nobody", None),
    }
}

/// The word for whether there was a producer to take back.
fn taken<'a>(told: bool) -> Answered<'a> {
    (if told { "taken" } else { "nobody" }, None)
}

/// How many of `times` polls of lane 0 are spent.
fn spent<'a, A: Allocator + Copy + Drop>(
    trial: &mut Trial<A>,
    words: &mut Zeros,
    place: usize,
    budget: u64,
    times: u64,
) -> Answered<'a> {
    let mut count = 0u64;
    for _ in 0..times {
        if trial.poll(place, 0, budget, words) == Some(Poll::Spent) {
            count = count.wrapping_add(1);
        }
    }
    ("spent", Some(count))
}
