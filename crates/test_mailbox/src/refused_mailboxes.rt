//! Calls of a mailbox and of its hub that run out of memory. Then the same call has memory.

use crate::compare::same;
use crate::mailboxes::Scene;
use crate::scenes::play;
use crate::trial::Trial;
use crate::trials::{ends, new_trial, reads, take_all};
use mb_mailbox::{GatherFault, HubFault};
use mb_quorum::TableName;
use mb_world::Setup;
use std::alloc::Global;
use std::process::Abort;
use test_alloc::FaultyHeap;

/// The allocator of all lists of a trial.
pub(crate) type Alloc<'r> = &'r FaultyHeap<Global>;

/// The report after the item 7 was put and taken.
const SEVEN_TAKEN: &str = "lane 0 open put 7\nleft 0\ndiary 0 0 took 7\n";

/// Whether the allocator serves a new mailbox, in which an item is then put and taken.
pub(crate) fn new_is_served<'a>(rt: &impl Abort, alloc: Alloc<'a>, ample: Alloc<'a>) -> bool {
    let setup = Setup::new(1, 1, 1, 1, TableName::Bits).expect(rt, "no setup");
    match Trial::new(alloc, setup) {
        Ok(mut trial) => {
            let lines = "\
producer: given
consumer: given
put 0 7: linked
poll 0 0 100: took 7
";
            play(rt, &mut trial, ample, lines);
            ends(rt, ample, trial, SEVEN_TAKEN);
            true
        }
        Err(_) => false,
    }
}

/// Returns whether a producer or consumer was issued. Checks that else there was no memory for it.
fn is_given(rt: &impl Abort, told: Result<(), HubFault>) -> bool {
    if told.is_ok() {
        return true;
    }
    same(rt, &told, &Err(HubFault::NoMemory));
    false
}

/// Whether the first allocator serves the only producer of a new mailbox of one cell. A refusal uses no number up: the
/// second allocator then serves this producer. Then the calls of these lines are made, and the report has this text.
pub(crate) fn producer_is_served<'a>(
    rt: &impl Abort,
    alloc: Alloc<'a>,
    ample: Alloc<'a>,
    lines: &str,
    report: &str,
) -> bool {
    let mut trial = new_trial(rt, ample, 1, 1, 1);
    let served = is_given(rt, trial.producer(alloc));
    if !served {
        play(rt, &mut trial, ample, "producer: given\n");
    }
    play(rt, &mut trial, ample, lines);
    ends(rt, ample, trial, report);
    served
}

/// Whether the first allocator serves the only consumer. A refusal uses no number up: the second allocator then serves
/// this consumer, and after it no other is issued. Then an item is put and taken.
pub(crate) fn consumer_is_served<'a>(rt: &impl Abort, alloc: Alloc<'a>, ample: Alloc<'a>) -> bool {
    let mut trial = new_trial(rt, ample, 1, 1, 1);
    play(rt, &mut trial, ample, "producer: given\n");
    let served = is_given(rt, trial.consumer(alloc));
    if !served {
        play(rt, &mut trial, ample, "consumer: given\n");
    }
    let lines = "consumer: all_given\nput 0 7: linked\npoll 0 0 100: took 7\n";
    play(rt, &mut trial, ample, lines);
    ends(rt, ample, trial, SEVEN_TAKEN);
    served
}

/// Makes the calls of the scene, and returns all producers and consumers. Then says whether the first allocator serves
/// the report, with the scene's text. If it refuses, mailbox and hub come back, and the second allocator serves it.
pub(crate) fn gather_is_served<'a>(
    rt: &impl Abort,
    alloc: Alloc<'a>,
    ample: Alloc<'a>,
    scene: Scene,
) -> bool {
    let (sizes, lines, want) = scene;
    let mut trial = new_trial(rt, ample, sizes[0], sizes[1], sizes[2]);
    play(rt, &mut trial, ample, lines);
    take_all(&mut trial);
    match trial.gather(alloc) {
        Ok(report) => {
            reads(rt, ample, report, want);
            true
        }
        Err((fault, trial)) => {
            same(rt, &fault, &GatherFault::NoMemory);
            ends(rt, ample, trial, want);
            false
        }
    }
}
