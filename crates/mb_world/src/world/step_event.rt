//! The steps of consumers on lanes.
ghost use Rattle.std.specs.Prelude.{◌≡◌};
ghost use Rattle.mb_world.specs.ConsumerPath.{note_of};

use super::World;
use super::states::{claims_leave_states, looks_leave_states, takes_leave_states};
use crate::event::Answer;
use crate::place::Place;
use crate::report::Note;
use mb_cells::{Cursor, Look};
use mb_claim::{Claim, Stage};
use std::alloc::Allocator;

impl<A: Allocator + Drop> World<A> {
    ghost use Rattle.std.specs.Prelude.{ℕ, ◌≡◌, ◌≢◌, ◌<◌};
    ghost use Rattle.mb_claim.specs.declared.access.Stage.TheVariants as stage;
    ghost use Rattle.mb_claim.specs.declared.claim.Claim.{Claim};
    ghost use Rattle.mb_claim.specs.OneClaim.{claim_stage};
    ghost use Rattle.mb_world.specs.declared.event.Event.TheVariants as event;
    ghost use Rattle.mb_world.specs.declared.place.Place.TheVariants.{At, Before};
    ghost use Rattle.mb_world.specs.Plan.{consumers_of};
    ghost use Rattle.mb_world.specs.Setups.{plan_in};
    ghost use Rattle.mb_world.specs.World.{WorldHistory};
    ghost use Rattle.mb_world.specs.WorldState.{IsWorldAfter};
    ghost use Rattle.mb_world.specs.EventSteps.{EventAdds, HasPlace};

    /// Makes the next access of consumer `c` on lane `p`, with this random word.
    #[inline(always)]
    pub(super) fn step(&mut self, c: u32, p: u32, word: u64) -> Answer
        requires consumer { c < consumers_of (plan_in self.old.setup) }
        requires lane { p < (plan_in self.old.setup).lanes }
        ensures adds { (h : WorldHistory) → IsWorldAfter h self.old
            → EventAdds (event.Step c p word) result self.new h }
        ensures setup { self.new.setup ≡ self.old.setup }
    {
        let at = c as usize * self.setup.producers() as usize + p as usize;
        match self.places[at] {
            Place::Before(cursor) => self.look(c, p, cursor),
            Place::At { cell, claim } => match claim.stage() {
                Stage::Won => self.take(c, p, cell),
                _ => self.compete(c, p, cell, word),
            },
        }
    }

    /// Consumer `c` holds no claim on lane `p`: it loads the link at the cursor.
    #[inline(always)]
    fn look(&mut self, c: u32, p: u32, cursor: Cursor) -> Answer
        requires { HasPlace c p (Before cursor) self.old }
        ensures adds { (h : WorldHistory) (word : ℕ) → IsWorldAfter h self.old
            → EventAdds (event.Step c p word) result self.new h }
        ensures setup { self.new.setup ≡ self.old.setup }
    {
        looks_leave_states();
        let look = self.pool.look(cursor);
        if let Look::Cell(cell) = look {
            let claim = Claim::new(self.setup.as_layout(), c);
            let at = c as usize * self.setup.producers() as usize + p as usize;
            self.places[at] = Place::At { cell, claim };
        }
        Answer::Looked(look)
    }

    /// The claim of consumer `c` on cell `k` is won: the consumer loads the item.
    #[inline(always)]
    fn take(&mut self, c: u32, p: u32, k: u32) -> Answer
        requires { (claim : Claim) × HasPlace c p (At k claim) self.old
            × (claim_stage claim ≡ stage.Won) }
        ensures adds { (h : WorldHistory) (word : ℕ) → IsWorldAfter h self.old
            → EventAdds (event.Step c p word) result self.new h }
        ensures setup { self.new.setup ≡ self.old.setup }
    {
        claims_leave_states();
        takes_leave_states();
        let item = self.pool.item(k);
        let at = c as usize * self.setup.producers() as usize + p as usize;
        self.places[at] = Place::Before(Cursor::Past(k));
        let noted = c as usize * self.setup.cells() as usize + k as usize;
        self.notes[noted] = Some(Note::Took(item));
        Answer::Took { cell: k, item }
    }

    /// The claim of consumer `c` on cell `k` is not won: the consumer makes the claim's next access.
    #[inline(always)]
    fn compete(&mut self, c: u32, p: u32, k: u32, word: u64) -> Answer
        requires { (claim : Claim) × HasPlace c p (At k claim) self.old
            × (claim_stage claim ≢ stage.Won) }
        ensures adds { (h : WorldHistory) → IsWorldAfter h self.old
            → EventAdds (event.Step c p word) result self.new h }
        ensures setup { self.new.setup ≡ self.old.setup }
    {
        claims_leave_states();
        let at = c as usize * self.setup.producers() as usize + p as usize;
        let Place::At { cell: _, claim } = &mut self.places[at] else {
            unreachable!()
        };
        let made = self.words.step(self.setup.as_layout(), claim, k, word);
        if let Some(note) = end_note(made.stage) {
            self.places[at] = Place::Before(Cursor::Past(k));
            let noted = c as usize * self.setup.cells() as usize + k as usize;
            self.notes[noted] = Some(note);
        }
        Answer::Claimed {
            cell: k,
            object: made.step.object,
            act: made.step.turn.act,
            stage: made.stage,
        }
    }
}

/// The note of a claim whose last access led to this stage, if the stage is lost or undecided, and else none.
#[inline(always)]
fn end_note(stage: Stage) -> Option<Note>
    ensures { result ≡ note_of stage }
{
    match stage {
        Stage::Going | Stage::Won => None,
        Stage::Lost(w) => Some(Note::Lost(w)),
        Stage::Undecided => Some(Note::Undecided),
    }
}
