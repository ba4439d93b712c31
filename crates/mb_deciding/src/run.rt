//! Runs of one object of any kind, turn by turn.
use crate::access::{Act, Reg};
use crate::place::Next;
use crate::trace::{Entry, Trace};
use machine::Machine;
use std::alloc::{AllocError, Allocator};
use std::marker::Model;
use words::{ObjectMemory, ObjectWords};

pub mod conciliate;
mod machine;
pub mod ratify;
mod schedule;
mod words;

/// One object with its processes, and what they have done so far.
#[derive(Drop)]
pub struct Course<A: Allocator + Drop> {
    words: ObjectMemory,
    places: Vec<Next, A>,
    entries: Vec<Entry, A>,
}

impl<A: Allocator + Drop> Model for Course<A> {
    ghost use Rattle.mb_deciding.specs.{CourseState};

    ghost Value = { CourseState };

    ghost view = { λ run. record {
      words = run.words;
      places = run.places.items;
      entries = run.entries.items;
    } };
}

impl<A: Allocator + Copy + Drop> Course<A> {
    ghost use Rattle.std.specs.Prelude.{◌≡◌, ◌<◌, ◌^◌, ◌++◌, ◌∷◌, [], ℕ, List, All, OnOk, IfOk, length, map};
    ghost use Rattle.mb_quorum.specs.Quorum.{QuorumTable};
    ghost use Rattle.mb_deciding.specs.{setup_of, IsSameFor, IsCourse, out_of};

    /// A run before its first turn, with room for `turns` entries. The error says that memory ran out.
    pub fn begin<M: Machine>(
        alloc: A,
        machine: &M,
        inputs: &[u64],
        turns: usize,
    ) -> Result<Course<A>, AllocError>
        requires inputs { All (λ v. v < (M.table machine.now).values) inputs.now }
        requires small { All (λ v. v < 2 ^ 32) inputs.now }
        ensures { IfOk result (λ run. (t : QuorumTable)
            → IsSameFor (M.kind machine.now) t (M.table machine.now)
            → IsCourse (setup_of t (M.kind machine.now) inputs.now) [] run) }
    {
        let mut places = Vec::with_capacity(alloc, inputs.len())?;
        for input in inputs {
            places.push(Next::Go(machine.first(*input as u32)))?;
        }
        let entries = Vec::with_capacity(alloc, turns)?;
        Ok(Course {
            words: ObjectMemory::new(),
            places,
            entries,
        })
    }

    /// Adds one turn of a process, with the random word of this turn. The error says that memory ran out.
    pub fn turn<M: Machine>(
        &mut self,
        machine: &M,
        process: usize,
        word: u64,
    ) -> Result<(), AllocError>
        requires run { (inputs : List ℕ) × (schedule : List (ℕ × ℕ))
            × IsCourse (setup_of (M.table machine.now) (M.kind machine.now) inputs) schedule
            self.old }
        requires process { process < length self.old.places }
        ensures run { OnOk result ((t : QuorumTable) (inputs : List ℕ) (schedule : List (ℕ × ℕ))
            → IsSameFor (M.kind machine.now) t (M.table machine.now)
            → IsCourse (setup_of t (M.kind machine.now) inputs) schedule self.old
            → IsCourse (setup_of t (M.kind machine.now) inputs)
            (schedule ++ (process, word) ∷ []) self.new) }
    {
        let next = &mut self.places[process];
        match next {
            Next::Out(_) => self.entries.push(Entry::Done { process })?,
            Next::Go(pc) => {
                let mut memory = ObjectWords {
                    words: &mut self.words,
                    made: Act::Load {
                        reg: Reg::Value,
                        value: 0,
                    },
                };
                let out = machine.step(pc, &mut memory, word);
                let ObjectWords { words: _, made } = memory;
                next.end(out);
                self.entries.push(Entry::Access {
                    process,
                    act: made,
                    out,
                })?;
            }
        }
        Ok(())
    }

    /// Ends the run. Returns the entries, and for each process its output or none. The error says that memory ran out.
    pub fn finish(self, alloc: A) -> Result<Trace<A>, AllocError>
        ensures entries { IfOk result (λ trace. trace.entries.items ≡ self.entries) }
        ensures outputs { IfOk result (λ trace. trace.outputs.items ≡ map out_of self.places) }
    {
        let mut outputs = Vec::with_capacity(alloc, self.places.len())?;
        for next in &self.places {
            outputs.push(next.out())?;
        }
        let Course {
            words: _,
            places: _,
            entries,
        } = self;
        Ok(Trace { entries, outputs })
    }
}
