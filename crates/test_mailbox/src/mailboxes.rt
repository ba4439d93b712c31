//! Mailboxes in one thread: the results of their calls, and the report at the end.

use crate::compare::same;
use crate::scenes::{play, plays, plays_in};
use crate::trial::Trial;
use crate::trials::{ends, new_trial, reads};
use mb_mailbox::{GatherFault, Mailbox, consumers_left, lanes_left};
use mb_quorum::TableName;
use mb_world::Setup;
use std::alloc::Allocator;
use std::process::Abort;

/// How many producers, consumers and cells a mailbox has, the calls with their results, and the report.
pub(crate) type Scene = ([u64; 3], &'static str, &'static str);

/// A put, a finish and a poll each come to their end with nobody else there.
const NOTHING_IS_WAITED_FOR: Scene = (
    [1, 1, 1],
    "\
producer: given
consumer: given
put 0 7: linked
finish 0: ended
poll 0 0 100: took 7
put 0 7: closed
finish 0: closed
poll 0 0 100: ended
",
    "\
lane 0 ended put 7
left 0
diary 0 0 took 7
",
);

const A_POLL_OF_NO_LANE_OR_NO_BUDGET_DRAWS_NOTHING: Scene = (
    [1, 1, 1],
    "\
producer: given
consumer: given
poll 0 1 100: no_lane
drawn: words 0
poll 0 1 0: no_lane
drawn: words 0
poll 0 18446744073709551615 1: no_lane
drawn: words 0
poll 0 0 0: spent
drawn: words 0
",
    "\
lane 0 open put
left 0
diary 0 0
",
);

/// The report names all lanes and consumers of the setup, also those that were not issued.
const NOBODY_IS_GIVEN: Scene = (
    [1, 2, 1],
    "",
    "\
lane 0 open put
left 0
diary 0 0
diary 1 0
",
);

/// The second producer finds no cell for its items, and ends its lane without one. No consumer is issued.
const TWO_PRODUCERS_WANT_THE_ONLY_CELL: Scene = (
    [2, 1, 1],
    "\
producer: given
producer: given
put 0 5: linked
put 1 6: full
put 1 7: full
finish 1: ended
put 1 8: closed
finish 1: closed
put 0 9: full
",
    "\
lane 0 open put 5
left 0 5
lane 1 ended put
left 1
diary 0 0
diary 0 1
",
);

/// The consumer is issued after the producer was returned.
const AN_ENDED_LANE_IS_READ_BY_A_CONSUMER_GIVEN_LATER: Scene = (
    [1, 1, 1],
    "\
producer: given
put 0 7: linked
finish 0: ended
take_producer 0: taken
consumer: given
poll 0 0 100: took 7
poll 0 0 100: ended
",
    "\
lane 0 ended put 7
left 0
diary 0 0 took 7
",
);

const SCENES: &[Scene] = &[
    NOTHING_IS_WAITED_FOR,
    A_POLL_OF_NO_LANE_OR_NO_BUDGET_DRAWS_NOTHING,
    NOBODY_IS_GIVEN,
    TWO_PRODUCERS_WANT_THE_ONLY_CELL,
    AN_ENDED_LANE_IS_READ_BY_A_CONSUMER_GIVEN_LATER,
];

#[test]
fn scenes_of_one_thread(rt: HostRuntime) {
    for &(sizes, lines, report) in SCENES {
        plays(&rt, sizes, lines, report);
    }
}

/// The trial that a refused `gather` gives back. The fault says how many producers and consumers are not returned.
fn back_from_gather<A: Allocator + Clone + Drop>(
    rt: &impl Abort,
    alloc: A,
    trial: Trial<A>,
    producers: u32,
    consumers: u32,
) -> Trial<A> {
    match trial.gather(alloc) {
        Ok(_) => rt.panic("a report is made while somebody is out"),
        Err((fault, trial)) => {
            same(rt, &fault, &GatherFault::Missing(producers, consumers));
            trial
        }
    }
}

/// Makes the calls of the scene, by which one producer and this many consumers are issued. `gather` is refused before
/// anybody is returned, and again while one consumer is out. After all are returned, the report has the scene's text.
fn is_gathered_at_last<R: Abort + AllocGlobal>(rt: &R, scene: Scene, consumers: u32) {
    let (sizes, lines, report) = scene;
    let alloc = rt.alloc();
    let mut trial = new_trial(rt, alloc, sizes[0], sizes[1], sizes[2]);
    play(rt, &mut trial, alloc, lines);
    let mut trial = back_from_gather(rt, alloc, trial, 1, consumers);
    trial.take_producer(0);
    trial.take_consumer(1);
    ends(rt, alloc, back_from_gather(rt, alloc, trial, 0, 1), report);
}

/// The hub issues one producer and one consumer, and no more.
const ALL_NUMBERS_ARE_GIVEN: Scene = (
    [1, 1, 1],
    "\
producer: given
consumer: given
producer: all_given
consumer: all_given
",
    "\
lane 0 open put
left 0
diary 0 0
",
);

/// Consumer 0 begins a claim on the only item, and is returned last.
const A_LATER_CONSUMER_LOSES_TO_ONE_THAT_WENT_AWAY: Scene = (
    [1, 2, 1],
    "\
producer: given
consumer: given
consumer: given
put 0 5: linked
poll 0 0 8: spent
poll 1 0 100: lost 0
",
    "\
lane 0 open put 5
left 0 5
diary 0 0 begun
diary 1 0 lost 0
",
);

#[test]
fn no_report_is_made_while_one_is_out(rt: HostRuntime) {
    is_gathered_at_last(&rt, ALL_NUMBERS_ARE_GIVEN, 1);
    is_gathered_at_last(&rt, A_LATER_CONSUMER_LOSES_TO_ONE_THAT_WENT_AWAY, 2);
}

// The report needs memory for its items, however many cells there are.
#[test]
fn a_mailbox_of_a_million_cells_is_gathered(rt: HostRuntime) {
    let setup = Setup::large(1, 1, 1 << 20, 1, TableName::Bits).expect(&rt, "no setup");
    let lines = "producer: given\nconsumer: given\nput 0 7: linked\npoll 0 0 100: took 7\n";
    let report = "lane 0 open put 7\nleft 0\ndiary 0 0 took 7\n";
    plays_in(&rt, setup, lines, report);
}

// The mailbox has a producer and two consumers, of which nobody is issued.
#[test]
fn a_draft_is_gathered(rt: HostRuntime) {
    let setup = Setup::new(1, 2, 1, 1, TableName::Bits).expect(&rt, "no setup");
    let Ok((mailbox, hub)) = Mailbox::new(rt.alloc(), setup) else {
        panic!(rt; "no mailbox")
    };
    let left = (
        lanes_left(&mailbox, &hub),
        consumers_left(&mailbox, &hub),
        mailbox.missing(&hub),
    );
    same(&rt, &left, &(1, 2, (0, 0)));
    let Ok(draft) = mailbox.draft(rt.alloc(), hub) else {
        panic!(rt; "no draft")
    };
    let Ok(draft) = mailbox.draft(rt.alloc(), draft.undone()) else {
        panic!(rt; "no draft")
    };
    let report = mailbox.gather_with(draft);
    reads(&rt, rt.alloc(), report, NOBODY_IS_GIVEN.2);
}
