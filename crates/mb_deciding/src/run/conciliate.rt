//! Runs one conciliator for a schedule.

ghost use Rattle.mb_deciding.specs.{Conciliator, conciliator_of, setup_of, IsValid, IsFirstMover, part, RefusesOnlyFor};
ghost use Rattle.mb_deciding.specs.{refusal_of, spread, IsTrace, history_of};
ghost use Rattle.std.specs.Prelude.{◌≡◌, ◌≤◌, ◌+◌, ℕ, IfOk, slice_index, length, map};
ghost use Rattle.mb_quorum.specs.Quorum.{QuorumTable};

use super::machine::ConciliatorMachine;
use super::schedule;
use crate::attempts::spread;
use crate::laws::first_movers_win;
use crate::trace::{Fault, Trace};
use mb_quorum::checked_values;
use std::alloc::Allocator;

/// Runs one conciliator for m values. Process i has the input `inputs[i]`. Each turn of the schedule has a process and
/// a random word. It is one access, or none if the process has its output. A process has at most `spread(m) + 3`
/// accesses.
///
/// It is refused for the reasons for which [`ratify`](crate::ratify) is.
pub fn conciliate<A: Allocator + Copy + Drop>(
    alloc: A,
    m: u64,
    inputs: &[u64],
    schedule: &[(u64, u64)],
) -> Result<Trace<A>, Fault>
    // A conciliator has no table, so this holds over each table of m values.
    ensures trace { (t : QuorumTable) → t.values ≡ m
        → IfOk result (λ trace.
        IsTrace (setup_of t (Conciliator (spread m)) inputs.now) schedule.now
        trace.entries.items trace.outputs.items) }

    // These laws hold of the outputs, whatever the schedule and the random words.
    ensures validity { (t : QuorumTable) → t.values ≡ m
        → IfOk result (λ trace. IsValid (conciliator_of t (spread m) (slice_index inputs.now))
        (history_of schedule.now trace.entries.items)) }
    ensures first_mover { (t : QuorumTable) → t.values ≡ m
        → IfOk result (λ trace. IsFirstMover (conciliator_of t (spread m) (slice_index inputs.now))
        (history_of schedule.now trace.entries.items)) }

    // No process makes more accesses than this.
    ensures bound { IfOk result (λ trace. (p : ℕ)
        → length (part p (history_of schedule.now trace.entries.items)) ≤ spread m + 3) }
    ensures refused { RefusesOnlyFor
        (refusal_of m inputs.now (map (λ turn. turn.0) schedule.now)) result }
{
    // The law computes nothing: its contract gives the clause on the first mover.
    first_movers_win();
    let values = checked_values(m)?;
    let machine = ConciliatorMachine {
        values,
        s: spread(m),
    };
    schedule::trace(alloc, &machine, inputs, schedule)
}
