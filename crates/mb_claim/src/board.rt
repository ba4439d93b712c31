//! Runs of all claims on one cell, step by step.
use crate::claim::Claim;
use crate::claim_words::ClaimWords;
use crate::layout::Layout;
use crate::run::{ClaimEntry, ClaimRun};
use crate::steps::accesses_lengthen_one_part;
use std::alloc::{AllocError, Allocator};
use std::marker::Model;

/// The words of one cell, the claims on it, and what they have done so far.
#[derive(Drop)]
pub struct Board<A: Allocator + Drop> {
    words: ClaimWords<A>,
    claims: Vec<Claim, A>,
    entries: Vec<ClaimEntry, A>,
}

impl<A: Allocator + Drop> Model for Board<A> {
    ghost use Rattle.mb_claim.specs.{BoardState};

    ghost Value = { BoardState };

    ghost view = { λ board. record {
      words = board.words;
      claims = board.claims.items;
      entries = board.entries.items;
    } };
}

impl<A: Allocator + Copy + Drop> Board<A> {
    ghost use Rattle.std.specs.Prelude.{◌≡◌, ◌<◌, ◌++◌, ◌∷◌, [], ℕ, List, IfOk, OnOk, map};
    ghost use Rattle.mb_claim.specs.{IsBoard, claim_stage, consumer_count};

    /// The board before the first step: all words are 0, and no claim has made an access. It has room for `steps`
    /// entries.
    pub fn begin(alloc: A, layout: &Layout, steps: usize) -> Result<Board<A>, AllocError>
        ensures { IfOk result (λ board. IsBoard layout.now [] board) }
    {
        let words = ClaimWords::new(alloc, layout, 1)?;
        let mut claims = Vec::with_capacity(alloc, layout.consumers() as usize)?;
        for consumer in 0..layout.consumers() {
            claims.push(Claim::new(layout, consumer))?;
        }
        let entries = Vec::with_capacity(alloc, steps)?;
        Ok(Board {
            words,
            claims,
            entries,
        })
    }

    /// Adds one step of a consumer, with its random word. If its claim has ended, the step makes no access.
    pub fn step(&mut self, layout: &Layout, consumer: u32, word: u64) -> Result<(), AllocError>
        requires board { (steps : List (ℕ × ℕ)) × IsBoard layout.now steps self.old }
        requires consumer { consumer < consumer_count layout.now }
        ensures board { OnOk result ((steps : List (ℕ × ℕ)) → IsBoard layout.now steps self.old
            → IsBoard layout.now (steps ++ (consumer, word) ∷ []) self.new) }
    {
        accesses_lengthen_one_part();
        let claim = &mut self.claims[consumer as usize];
        if !claim.stage().is_going() {
            self.entries.push(ClaimEntry::Done { consumer })?;
            return Ok(());
        }
        let made = self.words.step(layout, claim, 0, word);
        self.entries.push(ClaimEntry::Access {
            consumer,
            object: made.step.object,
            act: made.step.turn.act,
        })?;
        Ok(())
    }

    /// The entries, and how far each claim has come.
    pub fn finish(self, alloc: A) -> Result<ClaimRun<A>, AllocError>
        ensures entries { IfOk result (λ run. run.entries.items ≡ self.entries) }
        ensures stages { IfOk result (λ run. run.stages.items ≡ map claim_stage self.claims) }
    {
        let mut stages = Vec::with_capacity(alloc, self.claims.len())?;
        for claim in &self.claims {
            stages.push(claim.stage())?;
        }
        let Board {
            words: _,
            claims: _,
            entries,
        } = self;
        Ok(ClaimRun { entries, stages })
    }
}
