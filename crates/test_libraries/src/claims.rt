//! Claims of consumers on one cell: worked examples.

use crate::compare::{same, same_at};
use mb_claim::{BadLayout, Claim, ClaimEntry, Layout, PlayFault, Stage, play};
use mb_deciding::{Act, Op, Reg};
use mb_quorum::TableName;
use std::alloc::Allocator;
use std::process::Abort;

/// The entry of a consumer's load that found this value.
fn loaded(consumer: u32, object: u32, reg: Reg, value: u64) -> ClaimEntry {
    ClaimEntry::Access {
        consumer,
        object,
        act: Act::Load { reg, value },
    }
}

/// The entry of a consumer's store of this value.
fn stored(consumer: u32, object: u32, reg: Reg, value: u64) -> ClaimEntry {
    ClaimEntry::Access {
        consumer,
        object,
        act: Act::Store { reg, value },
    }
}

/// The steps in which consumer 0 wins before consumer 1 comes. The last is of consumer 0 again, and makes no access.
pub(crate) const WON_AND_LOST: [(u64, u64); 12] = [
    (0, 0),
    (0, 0),
    (0, 0),
    (0, 0),
    (0, 0),
    (0, 0),
    (0, 0),
    (1, 0),
    (1, 0),
    (1, 0),
    (1, 0),
    (0, 0),
];

/// Checks that claims on one cell have these stages after these steps, and these entries from this position on.
/// Returns whether the allocator serves the run.
pub(crate) fn is_played<A: Allocator + Copy + Drop>(
    rt: &impl Abort,
    alloc: A,
    layout: &Layout,
    steps: &[(u64, u64)],
    entries: (usize, &[ClaimEntry]),
    stages: &[Stage],
) -> bool {
    match play(alloc, layout, steps) {
        Ok(run) => {
            let told = (
                run.entries.as_slice().get(entries.0..),
                run.stages.as_slice(),
            );
            same(rt, &told, &(Some(entries.1), stages));
            true
        }
        Err(fault) => {
            same(rt, &fault, &PlayFault::NoMemory);
            false
        }
    }
}

/// Checks that claims on one cell have these stages after these steps, and these entries from this position on.
pub(crate) fn plays<R: Abort + AllocGlobal>(
    rt: &R,
    layout: &Layout,
    steps: &[(u64, u64)],
    entries: (usize, &[ClaimEntry]),
    stages: &[Stage],
) {
    assert!(rt; is_played(rt, rt.alloc(), layout, steps, entries, stages));
}

/// The bit table's layout of this many consumers and one pair.
pub(crate) fn one_pair(rt: &impl Abort, consumers: u64) -> Layout {
    Layout::new(consumers, 1, TableName::Bits).expect(rt, "no layout")
}

/// The steps of these consumers, with the random word 0.
pub(crate) fn steps_of<const STEPS: usize>(consumers: [u64; STEPS]) -> [(u64, u64); STEPS] {
    let mut steps = [(0, 0); STEPS];
    for place in 0..STEPS {
        steps[place] = (consumers[place], 0);
    }
    steps
}

/// The entries of the steps `WON_AND_LOST`, of two consumers and one pair over the bit table.
pub(crate) fn won_and_lost() -> [ClaimEntry; 12] {
    [
        loaded(0, 0, Reg::Value, 0),
        stored(0, 0, Reg::Value, 1),
        loaded(0, 0, Reg::Value, 1),
        stored(0, 1, Reg::Quorum(0), 1),
        loaded(0, 1, Reg::Proposal, 0),
        stored(0, 1, Reg::Proposal, 1),
        loaded(0, 1, Reg::Quorum(1), 0),
        loaded(1, 0, Reg::Value, 1),
        stored(1, 1, Reg::Quorum(0), 1),
        loaded(1, 1, Reg::Proposal, 1),
        loaded(1, 1, Reg::Quorum(1), 0),
        ClaimEntry::Done { consumer: 0 },
    ]
}

#[test]
fn layouts_out_of_range(rt: HostRuntime) {
    for (c, k, name, want) in &[
        (0, 0, TableName::Bits, BadLayout::BadConsumers),
        (65, 1, TableName::Middle, BadLayout::BadConsumers),
        (1, 0, TableName::Bits, BadLayout::BadRounds),
        (16, 9, TableName::Bits, BadLayout::BadRounds),
    ] {
        same_at(&rt, &Layout::new(*c, *k, *name), &Err(*want), &(c, k));
    }
}

// A layout tells how many words one and two cells have, where a word lies, and the most accesses of a claim.
#[test]
fn two_consumers_and_three_pairs(rt: HostRuntime) {
    let layout = Layout::new(2, 3, TableName::Bits).expect(&rt, "no layout");
    // A conciliator has one word, a ratifier its proposal and two registers: four a pair, and twelve a cell.
    let words = (layout.words(1), layout.words(2));
    // The word comes after two cells, the objects 0 to 2 with 1, 3 and 1 words, the proposal and register 0.
    let address = layout.address(2, 3, Reg::Quorum(1));
    // There are three pairs, each a conciliator of 2 + 3 accesses at most and a ratifier of 1 + 2 + 1.
    let most = layout.max_steps();
    same(
        &rt,
        &(layout.consumers(), words, address, most),
        &(2, (12, 24), 31, 27),
    );
}

#[test]
fn most_accesses_of_eight_pairs(rt: HostRuntime) {
    for (consumers, name, most) in &[
        // Each pair is a conciliator of at most 5 + 3 accesses and a ratifier of 4 + 2 + 4, or 1 + 2 + 15 over the
        // unary table.
        (16, TableName::Bits, 144),
        (16, TableName::Unary, 208),
        // Here a conciliator has at most 7 + 3 accesses, and a ratifier 6 + 2 + 6, 1 + 2 + 63 or 4 + 2 + 4.
        (64, TableName::Bits, 192),
        (64, TableName::Unary, 608),
        (64, TableName::Middle, 160),
    ] {
        let layout = Layout::new(*consumers, 8, *name).expect(&rt, "no layout");
        same(&rt, &layout.max_steps(), most);
    }
}

// A claim is begun by its first access, and then goes on.
#[test]
fn first_access_of_a_claim(rt: HostRuntime) {
    let layout = match Layout::new(2, 1, TableName::Bits) {
        Ok(layout) => layout,
        Err(_) => panic!(rt; "no layout"),
    };
    let mut claim = Claim::new(&layout, 1);
    let before = (claim.begun(), claim.next(&layout).op);
    let after = (claim.after(&layout, 0, 0), claim.begun(), claim.stage());
    same(
        &rt,
        &(before, after),
        &(
            (false, Op::Load(Reg::Value)),
            (Stage::Going, true, Stage::Going),
        ),
    );
}

// Fourteen steps in this order leave both claims undecided.
#[test]
fn both_stay_undecided(rt: HostRuntime) {
    let layout = one_pair(&rt, 2);
    let steps = steps_of([0, 1, 0, 0, 1, 1, 0, 1, 0, 1, 0, 0, 1, 1]);
    plays(&rt, &layout, &steps, (14, &[]), &[Stage::Undecided; 2]);
}

// If a step is of a consumer other than the two, the run is refused. The fault has the position of the first such step.
#[test]
fn a_step_of_no_consumer(rt: HostRuntime) {
    let layout = one_pair(&rt, 2);
    for (consumers, place) in &[
        ([2, 0, 0, 0, 0, 0, 0, 0, 1, 1, 1, 1, 0], 0),
        ([0, 0, 0, 0, 0, 0, 0, 1, 1, 2, 1, 1, 0], 9),
        ([0, 0, 0, 0, 0, 0, 0, 1, 1, 1, 1, 0, 2], 12),
    ] {
        let fault = play(rt.alloc(), &layout, &steps_of(*consumers)).err();
        same(&rt, &fault, &Some(PlayFault::NoConsumer(*place)));
    }
}
