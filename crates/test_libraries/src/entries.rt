//! Short words for the entries of a trace, and the traces that several tests expect.

use crate::compare::same;
use mb_deciding::{Act, Entry, Fault, Out, Reg, Trace};
use std::alloc::Allocator;
use std::process::Abort;

/// The entry of a process's load that found this value.
pub(crate) fn loaded(process: usize, reg: Reg, value: u64) -> Entry {
    Entry::Access {
        process,
        act: Act::Load { reg, value },
        out: None,
    }
}

/// The entry of a process's store of this value.
pub(crate) fn stored(process: usize, reg: Reg, value: u64) -> Entry {
    Entry::Access {
        process,
        act: Act::Store { reg, value },
        out: None,
    }
}

/// This entry, but with the output that its access gives.
pub(crate) fn ending(entry: Entry, output: Out) -> Entry {
    match entry {
        Entry::Access { process, act, .. } => Entry::Access {
            process,
            act,
            out: Some(output),
        },
        Entry::Done { .. } => entry,
    }
}

/// The entries of one ratifier with the inputs 0 and 1, if process 0 ends before process 1 begins.
pub(crate) fn late_input() -> [Entry; 7] {
    [
        stored(0, Reg::Quorum(0), 1),
        loaded(0, Reg::Proposal, 0),
        stored(0, Reg::Proposal, 1),
        ending(loaded(0, Reg::Quorum(1), 0), Out::decided(0)),
        stored(1, Reg::Quorum(1), 1),
        loaded(1, Reg::Proposal, 1),
        ending(loaded(1, Reg::Quorum(1), 1), Out::undecided(0)),
    ]
}

/// The entries of one conciliator for two values and one process with the input 0, which stores on its last attempt.
pub(crate) fn last_turn() -> [Entry; 5] {
    [
        loaded(0, Reg::Value, 0),
        loaded(0, Reg::Value, 0),
        loaded(0, Reg::Value, 0),
        stored(0, Reg::Value, 1),
        ending(loaded(0, Reg::Value, 1), Out::undecided(0)),
    ]
}

/// A call returned a trace with these entries and outputs, or ran out of memory. Returns whether it was a trace.
pub(crate) fn shows<A: Allocator + Drop>(
    rt: &impl Abort,
    returned: Result<Trace<A>, Fault>,
    entries: &[Entry],
    outputs: &[Option<Out>],
) -> bool {
    match returned {
        Ok(trace) => {
            let told = (trace.entries.as_slice(), trace.outputs.as_slice());
            same(rt, &told, &(entries, outputs));
            true
        }
        Err(fault) => {
            same(rt, &fault, &Fault::NoMemory);
            false
        }
    }
}
