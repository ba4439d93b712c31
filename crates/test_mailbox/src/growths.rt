//! Calls of a mailbox, of its hub and of `work`, with their allocations refused one after the other, and then served.

use crate::compare::same_at;
use crate::mailboxes::Scene;
use crate::rationed::{four_are_served, two_are_served};
use crate::refused_mailboxes::{
    Alloc, consumer_is_served, gather_is_served, new_is_served, producer_is_served,
};
use std::process::Abort;
use std::sync::Wait;
use std::test::Fail;
use std::thread::Threads;
use test_alloc::{FaultyHeap, Refuse, growths_refused};

/// A call whose allocations are refused. The functions that `is_served` names say what is checked.
#[derive(Clone, Copy)]
enum Call {
    New,
    /// The hub issues a producer. Then the calls of these lines are made, and the report has this text.
    Producer(&'static str, &'static str),
    Consumer,
    /// A report is gathered after this scene.
    Gather(Scene),
    TwoWorkers,
    FourWorkers,
}

/// Makes the call over the first allocator, and all that it needs besides over the second one. Returns whether the
/// first one serves it.
fn is_served<'r, R: Abort + Threads + Wait + Sync>(
    rt: &R,
    call: Call,
    alloc: Alloc<'r>,
    ample: Alloc<'r>,
) -> bool {
    match call {
        Call::New => new_is_served(rt, alloc, ample),
        Call::Producer(lines, report) => producer_is_served(rt, alloc, ample, lines, report),
        Call::Consumer => consumer_is_served(rt, alloc, ample),
        Call::Gather(scene) => gather_is_served(rt, alloc, ample, scene),
        Call::TwoWorkers => two_are_served(rt, alloc, ample),
        Call::FourWorkers => four_are_served(rt, alloc, ample),
    }
}

/// An item is put and taken, and the lane stays open.
const OPEN_LANE: Call = Call::Producer(
    "\
producer: all_given
consumer: given
put 0 7: linked
poll 0 0 100: took 7
",
    "\
lane 0 open put 7
left 0
diary 0 0 took 7
",
);

/// An item is put, the lane ends, and the item is taken after the producer was returned.
const ENDED_LANE: Call = Call::Producer(
    "\
put 0 7: linked
finish 0: ended
take_producer 0: taken
producer: all_given
consumer: given
poll 0 0 100: took 7
",
    "\
lane 0 ended put 7
left 0
diary 0 0 took 7
",
);

const ONE_TAKEN: Scene = (
    [1, 1, 1],
    "\
producer: given
consumer: given
put 0 7: linked
poll 0 0 100: took 7
",
    "\
lane 0 open put 7
left 0
diary 0 0 took 7
",
);

/// Consumer 0 takes the item of lane 0, and consumer 1 loses it. Consumer 1 begins a claim on the item of lane 1, which
/// has ended.
const ONE_TAKEN_AND_ONE_LEFT: Scene = (
    [2, 2, 2],
    "\
producer: given
producer: given
consumer: given
consumer: given
put 0 5: linked
put 1 6: linked
finish 1: ended
poll 0 0 100: took 5
poll 1 0 100: lost 0
poll 1 1 2: spent
",
    "\
lane 0 open put 5
left 0
lane 1 ended put 6
left 1 6
diary 0 0 took 5
diary 0 1
diary 1 0 lost 0
diary 1 1 begun
",
);

/// Each call with its name, and the least number of its allocations. The comment above it names them.
const CALLS: &[(&str, Call, u64)] = &[
    // Two lists of what is returned, the words of the cells, zeros for those of the claims, and the claims' words.
    ("new", Call::New, 5),
    // At least the list of the producer's items.
    ("producer", OPEN_LANE, 1),
    // Two lists for the consumer's notes: their marks, and their words.
    ("consumer", Call::Consumer, 2),
    // The list of lanes and that of diaries, and the list of the consumer's note.
    ("gather", Call::Gather(ONE_TAKEN), 3),
    // The lanes, the item left, the diaries, and the list of each consumer's note.
    ("gather of two", Call::Gather(ONE_TAKEN_AND_ONE_LEFT), 5),
    // At least the list of the producer's items.
    ("lone producer", ENDED_LANE, 1),
    // Three lists for the workers, the producer's items, the marks and words of the consumer's notes.
    ("two workers", Call::TwoWorkers, 6),
    // Three lists for the workers, each producer's items, each consumer's marks and words.
    ("four workers", Call::FourWorkers, 9),
];

/// Checks that the call is refused if any of its allocations is, keeps no memory, and is then served. Checks that it
/// makes this many allocations or more.
fn is_refused<R: Abort + AllocGlobal + Threads + Wait + Sync>(
    rt: &R,
    name: &str,
    call: Call,
    least: u64,
) -> Result<(), Fail> {
    let refused = growths_refused(rt, |alloc| {
        let ample = FaultyHeap::new(rt.alloc(), Refuse::Never);
        let served = is_served(rt, call, alloc, &ample);
        let again = is_served(rt, call, &ample, &ample);
        same_at(rt, &(again, ample.out()), &(true, 0), &name);
        Ok(served)
    })?;
    same_at(rt, &(least <= refused), &true, &name);
    Ok(())
}

#[test]
fn each_growth_of_each_call_refused(rt: HostRuntime) -> Result<(), Fail> {
    for &(name, call, least) in CALLS {
        is_refused(&rt, name, call, least)?;
    }
    Ok(())
}
