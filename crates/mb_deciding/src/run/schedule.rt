//! A whole schedule of turns on one object of any kind.

ghost use Rattle.std.specs.Prelude.{◌≡◌, ◌<◌, ◌≤◌, ◌^◌, ℕ, All, IfOk, length, map};
ghost use Rattle.mb_quorum.specs.Quorum.{QuorumTable};
ghost use Rattle.mb_deciding.specs.{setup_of, RefusesOnlyFor, first_from, refusal_in, IsSameFor, IsTrace};

use super::Course;
use super::machine::Machine;
use crate::trace::{Fault, Trace};
use std::alloc::{AllocError, Allocator};

/// One turn of a schedule: the process whose turn it is, and the random word of this turn.
pub trait ScheduledTurn: Copy {
    ghost turn: { Self → ℕ × ℕ };

    /// The process whose turn it is.
    fn process(self) -> u64
        ensures { result ≡ (turn self).0 };

    /// The random word of the turn.
    fn word(self) -> u64
        ensures { result ≡ (turn self).1 };
}

/// A turn of this process, with the random word 0.
impl ScheduledTurn for u64 {
    ghost turn = { λ process. (process, 0) };

    fn process(self) -> u64 {
        self
    }

    fn word(self) -> u64 {
        0
    }
}

/// A turn of a process, with its random word.
impl ScheduledTurn for (u64, u64) {
    ghost turn = { λ turn. turn };

    fn process(self) -> u64 {
        self.0
    }

    fn word(self) -> u64 {
        self.1
    }
}

/// The trace of a schedule on the machine's object. The error is the first reason to refuse the schedule, or that
/// memory ran out.
pub fn trace<A: Allocator + Copy + Drop, M: Machine, T: ScheduledTurn>(
    alloc: A,
    machine: &M,
    inputs: &[u64],
    schedule: &[T],
) -> Result<Trace<A>, Fault>
    ensures trace { (t : QuorumTable) → IsSameFor (M.kind machine.now) t (M.table machine.now)
        → IfOk result (λ trace.
        IsTrace (setup_of t (M.kind machine.now) inputs.now) (map T.turn schedule.now)
        trace.entries.items trace.outputs.items) }
    ensures refused { RefusesOnlyFor
        (refusal_in (M.table machine.now).values inputs.now (map (λ x. (T.turn x).0) schedule.now))
        result }
{
    match refusal(inputs, u64::from(machine.values()), schedule) {
        Some(fault) => Err(fault),
        None => Ok(traced(alloc, machine, inputs, schedule)?),
    }
}

/// The trace of a schedule that is not refused.
fn traced<A: Allocator + Copy + Drop, M: Machine, T: ScheduledTurn>(
    alloc: A,
    machine: &M,
    inputs: &[u64],
    schedule: &[T],
) -> Result<Trace<A>, AllocError>
    requires inputs { All (λ v. v < (M.table machine.now).values) inputs.now }
    requires small { (M.table machine.now).values < 2 ^ 32 }
    requires processes { All (λ turn. turn.0 < length inputs.now) (map T.turn schedule.now) }
    ensures { (t : QuorumTable) → IsSameFor (M.kind machine.now) t (M.table machine.now)
        → IfOk result (λ trace.
        IsTrace (setup_of t (M.kind machine.now) inputs.now) (map T.turn schedule.now)
        trace.entries.items trace.outputs.items) }
{
    let mut run = Course::begin(alloc, machine, inputs, schedule.len())?;
    for turn in schedule {
        run.turn(machine, turn.process() as usize, turn.word())?;
    }
    run.finish(alloc)
}

/// The first reason to refuse inputs for `values` values and a schedule, if there is one.
fn refusal<T: ScheduledTurn>(inputs: &[u64], values: u64, schedule: &[T]) -> Option<Fault>
    ensures { result ≡ refusal_in values inputs.now (map (λ x. (T.turn x).0) schedule.now) }
{
    let input = first_input(inputs, values).map(|i| Fault::BadInput(i));
    let process = first_process(schedule, inputs.len() as u64).map(|i| Fault::NoSuchProcess(i));
    input.or(process)
}

/// The least position of an input that is not below the bound, if there is one. Positions count from 0.
fn first_input(inputs: &[u64], bound: u64) -> Option<usize>
    ensures { result ≡ first_from bound inputs.now }
{
    inputs.iter().position(|input| *input >= bound)
}

/// The least position of a turn whose process is not below the bound, if there is one. Positions count from 0.
fn first_process<T: ScheduledTurn>(schedule: &[T], bound: u64) -> Option<usize>
    ensures { result ≡ first_from bound (map (λ x. (T.turn x).0) schedule.now) }
{
    schedule
        .iter()
        .map(|turn| turn.process())
        .position(|process| process >= bound)
}
