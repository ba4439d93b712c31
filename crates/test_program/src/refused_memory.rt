//! Each allocation of a call is refused. The call then runs out of memory, keeps no block and writes nothing. If
//! no allocation is refused, the call is served.

use crate::compare::same;
use crate::examples::claims::{ITEM_TAKEN, ONE_LOSES};
use crate::examples::entry::Example;
use crate::examples::ratifiers::LATE_INPUT;
use crate::examples::runs::TWO_ITEMS;
use crate::ratify::ratified;
use crate::replay::{is_text, replayed, report_is_served};
use crate::run::reported;
use mb_program::{Failed, RatifyFault, RunFault, fault_text};
use mb_script::Fault;
use mb_world::{Note, SetupFault};
use std::alloc::Global;
use std::fmt::Debug;
use std::process::Abort;
use std::sync::Wait;
use std::test::Fail;
use std::thread::Threads;
use test_alloc::{FaultyHeap, growths_refused};

/// A call whose allocations are refused.
#[derive(Clone, Copy)]
enum Call {
    /// The command `ratify` on the script of this example.
    Ratify(Example),
    /// The command `replay` on the script of this example.
    Replay(Example),
    /// The command `run`, which writes what this example does.
    Run(Example),
    /// The report of two items, which has the text of this example.
    ReportText(Example),
    /// The line of this failure, which has this text.
    FaultText(Failed, &'static str),
}

/// Checks that a call that ran out of memory wrote nothing, and that any other is done and wrote `want`. `told` is how
/// the call ended, and what was written. Returns whether the call was served.
fn is_done<F: PartialEq + Debug + Copy>(
    rt: &impl Abort,
    told: (Result<(), F>, Vec<u8>),
    no_memory: F,
    want: &str,
) -> bool {
    let (ending, written) = told;
    if ending == Err(no_memory) {
        same(rt, &written.len(), &0);
        return false;
    }
    same(
        rt,
        &(ending, written.as_slice()),
        &(Ok(()), want.as_bytes()),
    );
    true
}

/// Makes the call, and returns whether the allocator serves it.
fn is_served<R: Abort + AllocGlobal + Threads + Wait + Sync>(
    rt: &R,
    call: Call,
    alloc: &FaultyHeap<Global>,
) -> bool {
    match call {
        Call::Ratify(example) => {
            let told = ratified(rt, alloc, example.input);
            is_done(rt, told, RatifyFault::NoMemory, example.output)
        }
        Call::Replay(example) => {
            let told = replayed(rt, alloc, example.input);
            is_done(rt, told, Fault::NoMemory, example.output)
        }
        Call::Run(example) => {
            let told = reported(rt, alloc);
            is_done(rt, told, RunFault::NoMemory, example.output)
        }
        Call::ReportText(example) => {
            let notes = [Note::Took(0), Note::Took(1)];
            report_is_served(rt, alloc, &[0, 1], &notes, example.output)
        }
        Call::FaultText(failed, line) => is_text(rt, fault_text(alloc, &failed), line),
    }
}

const BAD_INPUT: Failed = Failed::Ratify(RatifyFault::BadInput(1_048_575));

const BAD_PRODUCERS: Failed = Failed::Replay(Fault::BadSetup(1, SetupFault::BadProducers));

const BAD_CELLS: Failed = Failed::Run(RunFault::BadSetup(SetupFault::BadCells));

/// Each call with its name, and the least number of its allocations. The comment above it names them.
const CALLS: &[(&str, Call, u64)] = &[
    // The script's bytes, the inputs, the turns, the ratifier's processes, entries and outputs, and the text.
    ("ratify", Call::Ratify(LATE_INPUT), 7),
    // The script's bytes and its events, seven lists of the world, four of its report, and the text. The cells of the
    // lane are listed once for the lane and once for each diary.
    ("replay of an item taken", Call::Replay(ITEM_TAKEN), 16),
    // As in the case before, but with five lists of the report, and the cells of the lane listed three times.
    ("replay where one loses", Call::Replay(ONE_LOSES), 18),
    // The items and their list, the sources, two lists of the hub and two of each table's words, nine allocations of
    // `work`, four lists of the report, and the text.
    ("run", Call::Run(TWO_ITEMS), 23),
    ("report text", Call::ReportText(TWO_ITEMS), 1),
    (
        "line of a bad input",
        Call::FaultText(BAD_INPUT, "fault 6 BadInput 1048575\n"),
        1,
    ),
    (
        "line of bad producers",
        Call::FaultText(BAD_PRODUCERS, "fault 6 BadSetup 1 1 BadProducers\n"),
        1,
    ),
    (
        "line of bad cells",
        Call::FaultText(BAD_CELLS, "fault 1 BadSetup 3 BadCells\n"),
        1,
    ),
];

#[test]
fn each_growth_of_each_call_refused(rt: HostRuntime) -> Result<(), Fail> {
    for &(name, call, growths) in CALLS {
        let refused = growths_refused(&rt, |alloc| Ok(is_served(&rt, call, alloc)))?;
        assert!(rt; growths <= refused, "{name}");
    }
    Ok(())
}
