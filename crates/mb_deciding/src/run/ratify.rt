//! Runs one ratifier for a schedule.

ghost use Rattle.mb_deciding.specs.{Ratifier, ratifier_of, setup_of, IsValid, IsCoherent, IsAccepted, IsContested};
ghost use Rattle.mb_deciding.specs.{part, most_turns, RefusesOnlyFor, refusal_of, IsTrace, history_of, plain_schedule};
ghost use Rattle.std.specs.Prelude.{◌≤◌, ℕ, IfOk, length, slice_index};
ghost use Rattle.mb_quorum.specs.Tables.{table_of};

use super::machine::RatifierMachine;
use super::schedule;
use crate::laws::{objects_keep_their_promises, ratifiers_decide_unless_contested};
use crate::trace::{Fault, Trace};
use mb_quorum::{Table, TableName};
use std::alloc::Allocator;

/// Runs one ratifier for m values over the named table. Process i has the input `inputs[i]`. Each number of the
/// schedule is a turn of that process: one access, or none if the process has its output.
///
/// The error is the first of these that holds. `BadValues`: m is not in `1..=MAX_VALUES`. `BadInput`: an input is not
/// below m (the first such). `NoSuchProcess`: a number of the schedule is not below the number of inputs (the first
/// such). `NoMemory`: memory ran out.
pub fn ratify<A: Allocator + Copy + Drop>(
    alloc: A,
    name: TableName,
    m: u64,
    inputs: &[u64],
    schedule: &[u64],
) -> Result<Trace<A>, Fault>
    ensures trace { IfOk result (λ trace.
        IsTrace (setup_of (table_of name m) Ratifier inputs.now) (plain_schedule schedule.now)
        trace.entries.items trace.outputs.items) }

    // These laws hold of the outputs, whatever the schedule.
    ensures validity { IfOk result (λ trace.
        IsValid (ratifier_of (table_of name m) (slice_index inputs.now))
        (history_of (plain_schedule schedule.now) trace.entries.items)) }
    ensures coherence { IfOk result (λ trace.
        IsCoherent (ratifier_of (table_of name m) (slice_index inputs.now))
        (history_of (plain_schedule schedule.now) trace.entries.items)) }
    ensures acceptance { IfOk result (λ trace.
        IsAccepted (ratifier_of (table_of name m) (slice_index inputs.now))
        (history_of (plain_schedule schedule.now) trace.entries.items)) }
    ensures contested { IfOk result (λ trace.
        IsContested (ratifier_of (table_of name m) (slice_index inputs.now))
        (history_of (plain_schedule schedule.now) trace.entries.items)) }

    // No process makes more accesses than this.
    ensures bound { IfOk result (λ trace. (p : ℕ)
        → length (part p (history_of (plain_schedule schedule.now) trace.entries.items))
        ≤ most_turns (table_of name m) Ratifier) }
    ensures refused { RefusesOnlyFor (refusal_of m inputs.now schedule.now) result }
{
    // The laws compute nothing: their contracts give the clauses on the outputs.
    objects_keep_their_promises();
    ratifiers_decide_unless_contested();
    let table = Table::new(name, m)?;
    let machine = RatifierMachine { table };
    schedule::trace(alloc, &machine, inputs, schedule)
}
