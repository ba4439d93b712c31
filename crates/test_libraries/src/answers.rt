//! The events by which an item is put and taken in a world, with their answers: the results of these events.

use crate::compare::same;
use mb_cells::{Look, Offer, Push};
use mb_claim::Stage;
use mb_deciding::{Act, Reg};
use mb_world::{Answer, Event, World};
use std::alloc::Allocator;
use std::process::Abort;

fn offer(lane: u64, item: u64) -> Event {
    Event::Offer { lane, item }
}

fn push(lane: u64) -> Event {
    Event::Push { lane }
}

/// A step of a consumer on a lane, with the random word 0.
fn step(consumer: u64, lane: u64) -> Event {
    Event::Step {
        consumer,
        lane,
        word: 0,
    }
}

/// The answer that an offered item gets cell `k`.
fn cell(k: u32) -> Answer {
    Answer::Offered(Offer::Cell(k))
}

/// The answer that the item of cell `k` is stored.
fn item(k: u32) -> Answer {
    Answer::Pushed(Push::Item(k))
}

/// The answer that cell `k` is linked.
fn link(k: u32) -> Answer {
    Answer::Pushed(Push::Link(k))
}

/// The answer that a consumer finds cell `k`.
fn found(k: u32) -> Answer {
    Answer::Looked(Look::Cell(k))
}

/// The answer that a claim on cell `k` loads a word, and then has this stage.
fn loads(k: u32, object: u32, reg: Reg, value: u64, stage: Stage) -> Answer {
    Answer::Claimed {
        cell: k,
        object,
        act: Act::Load { reg, value },
        stage,
    }
}

/// The answer that a claim on cell `k` stores in a word, and then has this stage.
fn stores(k: u32, object: u32, reg: Reg, value: u64, stage: Stage) -> Answer {
    Answer::Claimed {
        cell: k,
        object,
        act: Act::Store { reg, value },
        stage,
    }
}

/// The answer that a consumer takes the item of cell `k`.
fn took(k: u32, x: u64) -> Answer {
    Answer::Took { cell: k, item: x }
}

/// Makes these events, and compares each answer with the one beside it.
pub(crate) fn make<A: Allocator + Drop>(
    rt: &impl Abort,
    world: &mut World<A>,
    events: &[(Event, Answer)],
) {
    for (event, answer) in events {
        same(rt, &world.apply(*event), answer);
    }
}

/// The events by which an item is put into the first lane and taken by the only consumer, with their answers.
pub(crate) fn take_seven() -> [(Event, Answer); 10] {
    [
        (offer(0, 7), cell(0)),
        (push(0), item(0)),
        (push(0), link(0)),
        (step(0, 0), found(0)),
        (step(0, 0), loads(0, 0, Reg::Value, 0, Stage::Going)),
        (step(0, 0), stores(0, 0, Reg::Value, 1, Stage::Going)),
        (step(0, 0), loads(0, 0, Reg::Value, 1, Stage::Going)),
        (step(0, 0), loads(0, 1, Reg::Proposal, 0, Stage::Going)),
        (step(0, 0), stores(0, 1, Reg::Proposal, 1, Stage::Won)),
        (step(0, 0), took(0, 7)),
    ]
}
