//! Reading a replay script.
ghost use Rattle.std.specs.Prelude.{◌≡◌, ◌≤◌, ℕ, List, length, map, Ok, IfOk};
ghost use Rattle.mb_world.specs.Setups.{plan_in};
ghost use Rattle.mb_script.specs.Text.{lines_of, words_in_line};
ghost use Rattle.mb_script.specs.Faults.{Gives};
ghost use Rattle.mb_script.specs.Spelling.{IsScript, Spells, Sizes, script_in, script_lines};
ghost use Rattle.mb_script.specs.Scripts.{number_at as number_read, one_number as one_read, two_numbers as two_read};
ghost use Rattle.mb_script.specs.Scripts.{three_numbers as three_read, made_in, setup_of, sizes_of};
ghost use Rattle.mb_script.specs.Scripts.{event_of, placed};
ghost use Rattle.mb_script.specs.Scripts.{event_at as event_read, events_of, lines_script, script_of, view};

use crate::fault::Fault;
use crate::few_words::LineWords;
use crate::script::{MAX_EVENTS, Script};
use crate::shape::shape_named;
use crate::table::table_named;
use crate::text::{ascii_text, number, split_line, split_word};
use crate::transfer::MAX_SCRIPT_LEN;
use mb_world::{Event, Setup};
use std::alloc::Allocator;

/// The number that a word of line `n` spells, or the fault of that line.
fn number_at(n: usize, word: &str) -> Result<u64, Fault>
    ensures { Gives (λ x. x) result (number_read n word.now) }
{
    number(word).ok_or(Fault::BadNumber(n))
}

/// The number of the only word, or the fault of line `n`.
#[tactic(auto, unfolding(crate::specs::Scripts::one_number))]
fn one_number(n: usize, words: &[&str]) -> Result<u64, Fault>
    ensures { Gives (λ x. x) result (one_read n (map (λ w. w.now) words.now)) }
{
    let [first] = words else {
        return Err(Fault::BadLine(n));
    };
    number_at(n, first)
}

/// The numbers of the two words, or the fault of line `n`.
#[tactic(auto, unfolding(crate::specs::Scripts::two_numbers))]
fn two_numbers(n: usize, words: &[&str]) -> Result<(u64, u64), Fault>
    ensures { Gives (λ x. x) result (two_read n (map (λ w. w.now) words.now)) }
{
    let [first, second] = words else {
        return Err(Fault::BadLine(n));
    };
    Ok((number_at(n, first)?, number_at(n, second)?))
}

/// The numbers of the three words, or the fault of line `n`.
#[tactic(auto, unfolding(crate::specs::Scripts::three_numbers))]
fn three_numbers(n: usize, words: &[&str]) -> Result<(u64, u64, u64), Fault>
    ensures { Gives (λ x. x) result (three_read n (map (λ w. w.now) words.now)) }
{
    let [first, second, third] = words else {
        return Err(Fault::BadLine(n));
    };
    Ok((
        number_at(n, first)?,
        number_at(n, second)?,
        number_at(n, third)?,
    ))
}

/// The setup that the words after `setup` say, or what is wrong with them.
#[tactic(auto, unfolding(crate::specs::Scripts::sizes_of))]
fn sizes(words: &[&str]) -> Result<Setup, Fault>
    ensures { Gives made_in result (sizes_of (map (λ w. w.now) words.now)) }
{
    let [producers, consumers, cells, pairs, name, shape @ ..] = words else {
        return Err(Fault::BadLine(1));
    };
    let table = table_named(name).ok_or(Fault::BadLine(1))?;
    let shape = shape_named(shape).ok_or(Fault::BadLine(1))?;
    let producers = number_at(1, producers)?;
    let consumers = number_at(1, consumers)?;
    let cells = number_at(1, cells)?;
    let pairs = number_at(1, pairs)?;
    match Setup::new(producers, consumers, cells, pairs, table) {
        Ok(setup) => Ok(setup.shaped(shape)),
        Err(fault) => Err(Fault::BadSetup(1, fault)),
    }
}

/// The setup that the first line says, or what is wrong with it.
#[tactic(auto, unfolding(crate::specs::Scripts::setup_of))]
fn setup(line: &str) -> Result<Setup, Fault>
    ensures { Gives made_in result (setup_of (words_in_line line.now)) }
{
    if split_word(line).0 != "setup" {
        return Err(Fault::NoSetup);
    }
    let Some(words) = LineWords::of_line(line) else {
        return Err(Fault::BadLine(1));
    };
    let Some((_, sizes_words)) = words.as_slice().split_first() else {
        return Err(Fault::NoSetup);
    };
    sizes(sizes_words)
}

/// The event that the words of line `n` say, or the fault of the line. No world is asked for its lane and consumer yet.
#[tactic(auto, unfolding(crate::specs::Scripts::event_of))]
fn event(n: usize, words: &[&str]) -> Result<Event, Fault>
    ensures { Gives (λ e. e) result (event_of n (map (λ w. w.now) words.now)) }
{
    let Some((key, numbers)) = words.split_first() else {
        return Err(Fault::BadLine(n));
    };
    match *key {
        "offer" => {
            let (lane, item) = two_numbers(n, numbers)?;
            Ok(Event::Offer { lane, item })
        }
        "push" => {
            let lane = one_number(n, numbers)?;
            Ok(Event::Push { lane })
        }
        "finish" => {
            let lane = one_number(n, numbers)?;
            Ok(Event::Finish { lane })
        }
        "step" => {
            let (consumer, lane, word) = three_numbers(n, numbers)?;
            Ok(Event::Step {
                consumer,
                lane,
                word,
            })
        }
        _ => Err(Fault::BadLine(n)),
    }
}

/// The event of line `n`, if this world has the lane and the consumer that the event names, or else the line's fault.
#[tactic(auto, unfolding(crate::specs::Scripts::placed))]
fn place(setup: &Setup, n: usize, event: Event) -> Result<Event, Fault>
    ensures { Gives (λ e. e) result (placed (plan_in setup.now) n event) }
{
    let (lane, consumer) = match event {
        Event::Offer { lane, .. } | Event::Push { lane } | Event::Finish { lane } => (lane, None),
        Event::Step { consumer, lane, .. } => (lane, Some(consumer)),
    };
    if lane >= setup.producers() {
        return Err(Fault::NoLane(n));
    }
    match consumer {
        Some(consumer) if consumer >= setup.consumers() => Err(Fault::NoConsumer(n)),
        _ => Ok(event),
    }
}

/// The event of this world that line `n` says, or what is wrong with the line.
#[tactic(auto, unfolding(crate::specs::Scripts::event_at))]
fn event_at(setup: &Setup, n: usize, line: &str) -> Result<Event, Fault>
    ensures { Gives (λ e. e) result (event_read (plan_in setup.now) n line.now) }
{
    let Some(words) = LineWords::of_line(line) else {
        return Err(Fault::BadLine(n));
    };
    let event = event(n, words.as_slice())?;
    place(setup, n, event)
}

/// The events of the lines after the first, or the first fault of these lines.
fn events<A: Allocator>(alloc: A, setup: &Setup, text: &str) -> Result<Vec<Event, A>, Fault>
    ensures { Gives (λ v. v.items) result (events_of (plan_in setup.now) 2 (lines_of text.now)) }
{
    let mut events = Vec::new(alloc);
    let mut rest = text;
    while let Some((line, after)) = split_line(rest) {
        if events.len() == MAX_EVENTS {
            return Err(Fault::TooManyEvents);
        }
        events.push(event_at(setup, events.len() + 2, line)?)?;
        rest = after;
    }
    Ok(events)
}

/// The script that the lines of the text say, or their first fault: there is no line, or some line is faulty.
#[tactic(auto, unfolding(crate::specs::Scripts::lines_script))]
fn read_lines<A: Allocator>(alloc: A, text: &str) -> Result<Script<A>, Fault>
    ensures { Gives (λ s. view s) result (lines_script (lines_of text.now)) }
{
    let Some((first, rest)) = split_line(text) else {
        return Err(Fault::NoSetup);
    };
    let setup = setup(first)?;
    let events = events(alloc, &setup, rest)?;
    Ok(Script { setup, events })
}

/// What the bytes say: a script, or their first fault. Too many bytes and a byte that is not ASCII come first.
#[tactic(auto, unfolding(crate::specs::Scripts::script_of))]
fn read_bytes<A: Allocator>(alloc: A, bytes: &[u8]) -> Result<Script<A>, Fault>
    ensures exact { Gives (λ s. view s) result (script_of bytes.now) }
{
    if bytes.len() > MAX_SCRIPT_LEN {
        return Err(Fault::TooLong);
    }
    let Some(text) = ascii_text(bytes) else {
        return Err(Fault::NotAscii);
    };
    read_lines(alloc, text)
}

/// The script that the bytes spell, or their first fault. `docs/FORMATS.md` tells the faults 1 to 9 in the order in
/// which they are decided. `NoMemory` may come in place of any of them.
pub fn parse<A: Allocator>(alloc: A, bytes: &[u8]) -> Result<Script<A>, Fault>
    // The bytes spell the script that is returned.
    ensures found { IfOk result (λ s. Spells (lines_of bytes.now) (view s)) }

    // If the bytes spell a script, it is returned, unless memory runs out.
    ensures only { (z : Sizes) (events : List Event) → IsScript z events
        → length bytes.now ≤ MAX_SCRIPT_LEN → lines_of bytes.now ≡ script_lines z events
        → Gives (λ s. view s) result (Ok (script_in z events)) }

    // The call returns the script that the bytes say, or their first fault, unless memory runs out.
    ensures exact { Gives (λ s. view s) result (script_of bytes.now) }
{
    read_bytes(alloc, bytes)
}
