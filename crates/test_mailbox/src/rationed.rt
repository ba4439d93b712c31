//! Calls of `work` that run out of memory, and then calls that have memory.

use crate::compare::same;
use crate::refused_mailboxes::Alloc;
use crate::trial::Trial;
use crate::trials::{ends, gathered, new_trial, tells_all};
use crate::workers::{ALL_DONE, lists, sources};
use mb_mailbox::{OpenGate, WorkFault};
use std::process::Abort;
use std::sync::Wait;
use std::thread::Threads;

/// Whether a producer's number is left. If so, this producer is issued, and is returned without an access.
fn has_lane<'r>(trial: &mut Trial<Alloc<'r>>, ample: Alloc<'r>) -> bool {
    trial.producer(ample).is_ok() && trial.take_producer(0)
}

/// Workers over the first allocator put the items of these lists, and `consumers` others poll the lanes to their ends.
/// The only possible error is that memory ran out. The lists and sources are over the second allocator. Returns whether
/// the work was done.
fn is_done<'r, R: Abort + Threads + Wait + Sync>(
    rt: &R,
    trial: &mut Trial<Alloc<'r>>,
    alloc: Alloc<'r>,
    ample: Alloc<'r>,
    items: &[&[u64]],
    consumers: usize,
) -> bool {
    let items = lists(rt, ample, items);
    let rngs = sources(rt, ample, consumers);
    let answer = trial.work(alloc, rt, items, 5, rngs, &OpenGate);
    if answer == Err(WorkFault::NoMemory) {
        return false;
    }
    same(rt, &answer, &Ok(ALL_DONE));
    true
}

/// One worker puts two items and another takes both, in a mailbox of these two. If the first allocator does not serve
/// them, all that was issued is returned, and a lane that was issued has ended. Returns whether it serves them.
pub(crate) fn two_are_served<'r, R: Abort + Threads + Wait + Sync>(
    rt: &R,
    alloc: Alloc<'r>,
    ample: Alloc<'r>,
) -> bool {
    let mut trial = new_trial(rt, ample, 1, 1, 2);
    let served = is_done(rt, &mut trial, alloc, ample, &[&[1, 2]], 1);
    let given = !has_lane(&mut trial, ample);
    let report = match (served, given) {
        (true, _) => "lane 0 ended put 1 2\nleft 0\ndiary 0 0 took 1 took 2\n",
        (false, true) => "lane 0 ended put\nleft 0\ndiary 0 0\n",
        (false, false) => "lane 0 open put\nleft 0\ndiary 0 0\n",
    };
    ends(rt, ample, trial, report);
    served
}

/// The report of two lanes without items and two consumers without notes. `left` says whether one producer's number was
/// left, and whether two were: their lanes are open.
fn nothing_is_told<'a>(left: (bool, bool)) -> &'a str {
    match left {
        (true, true) => {
            "\
lane 0 open put
left 0
lane 1 open put
left 1
diary 0 0
diary 0 1
diary 1 0
diary 1 1
"
        }
        (true, false) => {
            "\
lane 0 ended put
left 0
lane 1 open put
left 1
diary 0 0
diary 0 1
diary 1 0
diary 1 1
"
        }
        (false, _) => {
            "\
lane 0 ended put
left 0
lane 1 ended put
left 1
diary 0 0
diary 0 1
diary 1 0
diary 1 1
"
        }
    }
}

/// Two workers put two items each and two others poll, in a mailbox of these four. If the allocator does not serve
/// them, all that was issued is returned, and exactly the lanes issued have ended. Returns whether it serves them.
pub(crate) fn four_are_served<'r, R: Abort + Threads + Wait + Sync>(
    rt: &R,
    alloc: Alloc<'r>,
    ample: Alloc<'r>,
) -> bool {
    let mut trial = new_trial(rt, ample, 2, 2, 4);
    let served = is_done(rt, &mut trial, alloc, ample, &[&[1, 2], &[3, 4]], 2);
    let one_is_left = has_lane(&mut trial, ample);
    let two_are_left = one_is_left && has_lane(&mut trial, ample);
    if served {
        same(rt, &one_is_left, &false);
        // Both lanes have their items and have ended, and there are four diaries, with two notes each.
        let report = gathered(rt, ample, trial);
        drop(tells_all(rt, report, &[&[1, 2], &[3, 4]], 4, 2));
    } else {
        let report = nothing_is_told((one_is_left, two_are_left));
        ends(rt, ample, trial, report);
    }
    served
}
