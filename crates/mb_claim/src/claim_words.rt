//! Claims of one caller, on words of its own.
ghost use Rattle.std.specs.Prelude.{◌≡◌};
ghost use Rattle.mb_deciding.specs.Vocabulary.{IsActInWords, act_of};
ghost use Rattle.mb_claim.specs.{after_op};

use crate::access::{ClaimStep, ObjectTurn};
use crate::claim::Claim;
use crate::layout::Layout;
use crate::steps::{
    accesses_lengthen_one_part, addresses_are_apart, claims_make_steps, histories_begin_with_zeros,
};
use mb_deciding::{Act, Memory, Op, Reg, Turn};
use std::alloc::{AllocError, Allocator};
use std::marker::Model;

/// The words of the claims on some cells, in one block. One caller makes the accesses of the claims there, one by one.
#[derive(Drop)]
pub struct ClaimWords<A: Allocator + Drop> {
    words: Vec<u64, A>,
}

impl<A: Allocator + Drop> Model for ClaimWords<A> {
    ghost use Rattle.std.specs.Prelude.{ℕ, List};

    ghost Value = { List ℕ };

    ghost view = { λ block. block.words.items };
}

impl<A: Allocator + Drop> ClaimWords<A> {
    ghost use Rattle.std.specs.Prelude.{◌≡◌, ◌<◌, ◌≤◌, ◌*◌, ℕ, List, [], ◌∷◌, IfOk, true, length};
    ghost use Rattle.mb_deciding.specs.Vocabulary.{reg_of};
    ghost use Rattle.mb_claim.specs.{ClaimAccess, Going, MAX_LARGE_CELLS, IsMemoryOf, IsClaimOn, claims_in, claim_access};
    ghost use Rattle.mb_claim.specs.{consumer_of, claim_stage, is_begun, steps_left, IsWordInLayout, word_address, cell_words};

    /// The words of `cells` cells, at most 2^24, before the first access. The error is that memory ran out.
    pub fn new(alloc: A, layout: &Layout, cells: u32) -> Result<ClaimWords<A>, AllocError>
        requires { cells ≤ MAX_LARGE_CELLS }
        ensures { IfOk result (λ words. IsMemoryOf (claims_in layout.now cells) words []) }
    {
        histories_begin_with_zeros();
        Ok(ClaimWords {
            words: vec![in alloc; 0u64; layout.words(cells)]?,
        })
    }

    /// Makes the next access of a claim on its cell, with the random word of this step. It needs a claim that is
    /// `Going`, and a lawful history that leaves these words and has the claim's accesses (`held`). There is one if all
    /// accesses to these words were steps of claims that began here as new ones, one for each consumer and cell.
    #[inline(always)]
    pub fn step(&mut self, layout: &Layout, claim: &mut Claim, cell: u32, word: u64) -> ClaimStep
        requires going { claim_stage claim.old ≡ Going }
        requires cell { cell < MAX_LARGE_CELLS }
        requires held { (cells : ℕ) × (h : List ClaimAccess)
            × IsClaimOn layout.now cells cell claim.old self.old h }

        // If a lawful history left the words and had the claim's accesses, it still does with the new access added.
        ensures held { (cells : ℕ) (h : List ClaimAccess)
            → IsClaimOn layout.now cells cell claim.old self.old h
            → IsClaimOn layout.now cells cell claim.new self.new
            (claim_access claim.old cell result.step ∷ h) }
        ensures word { result.step.turn.word ≡ word }
        ensures consumer { consumer_of claim.new ≡ consumer_of claim.old }
        ensures begun { is_begun claim.new ≡ true }
        ensures stage { result.stage ≡ claim_stage claim.new }
        ensures fewer { steps_left layout.now claim.new < steps_left layout.now claim.old }
    {
        claims_make_steps();
        accesses_lengthen_one_part();
        let mut memory = CellWords {
            words: &mut self.words,
            layout,
            cell,
            made: ObjectTurn {
                object: 0,
                turn: Turn {
                    act: Act::Load {
                        reg: Reg::Value,
                        value: 0,
                    },
                    word,
                },
            },
        };
        let stage = claim.step(layout, &mut memory, word);
        let CellWords {
            words: _,
            layout: _,
            cell: _,
            made,
        } = memory;
        ClaimStep { step: made, stage }
    }
}

/// The words while one access is made to one cell, and that access once it is made.
#[derive(Drop)]
struct CellWords<'a, A: Allocator + Drop> {
    words: &'a mut Vec<u64, A>,
    layout: &'a Layout,
    cell: u32,
    made: ObjectTurn,
}

impl<'a, A: Allocator + Drop> Memory for CellWords<'a, A> {
    ghost use Rattle.std.specs.Prelude.{◌≡◌, ◌<◌, ◌≤◌, ◌*◌, ℕ, length, slice_index, slice_set};
    ghost use Rattle.mb_deciding.specs.Vocabulary.{act_of, reg_of, IsActInWords};
    ghost use Rattle.mb_claim.specs.{MAX_LARGE_CELLS, IsWordInLayout, word_address, cell_words, after_op, step_of};

    ghost can_make = { λ m object op. IsWordInLayout m.layout.now object (reg_of op)
        × (m.cell < MAX_LARGE_CELLS)
        × ((cells : ℕ) × (m.cell < cells)
        × (cells * cell_words m.layout.now ≤ length m.words.now.items)) };

    ghost makes = { λ m object op seen after.
        let address = word_address m.layout.now m.cell object (reg_of op) in
        (seen ≡ slice_index m.words.now.items address)
        × (after.words.now.items ≡ slice_set m.words.now.items address (after_op op seen))
        × (after.words.ghost_name ≡ m.words.ghost_name)
        × (after.made ≡ step_of object op seen m.made.turn.word)
        × IsActInWords (act_of op seen) };

    #[inline(always)]
    fn perform(&mut self, object: u32, op: Op) -> u64 {
        addresses_are_apart();
        let address = self.layout.address(self.cell, object, op.reg());
        let seen = self.words[address];
        self.words[address] = word_after(op, seen);
        self.made.object = object;
        self.made.turn.act = op.act(seen);
        seen
    }
}

/// What an access leaves in its word, which held `seen`.
#[inline(always)]
fn word_after(op: Op, seen: u64) -> u64
    ensures exact { result ≡ after_op op seen }
    ensures small { IsActInWords (act_of op seen) }
{
    match op {
        Op::Load(_) => seen,
        Op::Store(_, value) => value,
        Op::Exchange(_, value) => { if seen == 0 { value } else { seen } }
    }
}
