//! A new claim goes straight on the words of a table, each access with a random word of its own.
ghost use Rattle.std.specs.Prelude.{◌<◌, ◌^◌};

use crate::rule::MakeAccess;
use crate::seat::ClaimSeat;
use crate::table::SharedClaims;
use mb_claim::laws::{claims_are_bounded, last_objects_decide_claims, layouts_are_sound};
use mb_claim::steps::{
    accesses_lengthen_one_part, addresses_are_apart, claims_make_steps, places_show_prefixes,
};
use mb_claim::{Claim, ClaimOp, Layout, Stretch};
use mb_deciding::{Drawing, Memory, Op, Site};
use rand_core::Rng;
use std::alloc::Allocator;
use std::marker::Brand;

impl<A: Allocator + Drop> SharedClaims<A> {
    ghost use Rattle.std.specs.Prelude.{◌≡◌, ◌≢◌, ◌<◌, ◌≤◌, ◌+◌, ℕ, [], true, length};
    ghost use Rattle.mb_claim.specs.Vocabulary.{IsClaimIn, IsStanding, HasEnd, HasStopped, consumer_count, kinds_of};
    ghost use Rattle.mb_claim.specs.Vocabulary.{most_accesses, part_on, shape_of};
    ghost use Rattle.mb_claim.specs.declared.access.Stage.TheVariants.{Undecided};
    ghost use Rattle.mb_shared_claims.specs.{Claim, Going, name_of, AreSeatSteps};

    /// Makes the accesses of a new claim of the seat's consumer on a cell, each with the next word of `rng`. It goes
    /// object by object, as long as 10 accesses, and 2 more for each quorum register, are left of `most`. For a last
    /// object one is enough. As many calls of [`SharedClaims::step`] make the same accesses. If the claim goes on after
    /// them, `step` makes the rest, from the claim of [`Claim::standing`].
    #[inline(always)]
    pub fn straight<R: Rng>(
        &self,
        seat: &mut ClaimSeat,
        cell: u32,
        rng: &mut R,
        most: u64,
    ) -> Stretch
        requires table { seat.old.table ≡ name_of self.now }
        requires cell { cell < self.now.cells }

        // The consumer has done nothing on the cell.
        requires fresh { part_on seat.old.consumer cell seat.old.part ≡ [] }

        // Each access is the next one of the claim, with the next word of `rng`. The claim has then made all that its
        // consumer has done on the cell, and at most what its layout allows.
        ensures steps { (start : Claim)
            × IsStanding self.now.layout seat.old.consumer 0 seat.old.consumer start
            × (n : ℕ) × (end : Claim) × (n + result.left ≡ most)
            × AreSeatSteps self.now.layout cell start seat.old (R.stream rng.old) n
            end seat.new (R.stream rng.new)
            × HasEnd self.now.layout seat.old.consumer result end
            × IsClaimIn self.now.layout end (part_on seat.new.consumer cell seat.new.part)
            × (n ≤ most_accesses self.now.layout) }

        // It stopped no earlier than it had to. If the claim goes on, `Claim::standing` can make that claim.
        ensures goes { HasStopped self.now.layout result }
        ensures object { result.stage ≡ Going → result.object < length (kinds_of self.now.layout) }
        ensures value { result.value < consumer_count self.now.layout }

        // With a last object no claim is undecided.
        ensures decided { (shape_of self.now.layout).last ≡ true → result.stage ≢ Undecided }
    {
        claims_make_steps();
        claims_are_bounded();
        accesses_lengthen_one_part();
        last_objects_decide_claims();
        places_show_prefixes();
        addresses_are_apart();
        let consumer = seat.consumer;
        let layout = &self.size.layout;
        let mut memory = DrawingWords {
            table: self,
            seat: &mut *seat,
            cell,
            word: 0,
            rng: &mut *rng,
        };
        Claim::straight(layout, &mut memory, layout.begin(cell), consumer, most)
    }
}

/// The words of a cell while a seat makes accesses to them, each with the next word of `rng`.
#[derive(Drop)]
struct DrawingWords<'a, A: Allocator + Drop, R: Rng> {
    table: &'a SharedClaims<A>,
    seat: &'a mut ClaimSeat,
    cell: u32,
    word: u64,
    rng: &'a mut R,
}

impl<'a, A: Allocator + Drop, R: Rng> Memory for DrawingWords<'a, A, R> {
    ghost use Rattle.std.specs.Prelude.{◌≡◌, ◌<◌};
    ghost use Rattle.mb_deciding.specs.Vocabulary.{reg_of};
    ghost use Rattle.mb_claim.specs.Vocabulary.{IsWordInLayout, claims_in};
    ghost use Rattle.mb_shared_claims.specs.{name_of, MayComeNext, ComesAfter, access_of, with_access};

    // Seat and cell are of the table. The seat's consumer may make this op next on the cell, to a word of the layout.
    ghost can_make = { λ m object op. (m.seat.now.table ≡ name_of m.table.now)
        × (m.cell < m.table.now.cells)
        × IsWordInLayout m.table.now.layout object (reg_of op)
        × MayComeNext (claims_in m.table.now.layout m.table.now.cells) m.seat.now.consumer m.cell
        m.seat.now.part (record { object = object; op = op }) };

    // The seat's part gets the access, made after a lawful history with the part before. Table, cell and source stay.
    ghost makes = { λ m object op seen after.
        let a = access_of m.seat.now.consumer m.cell (record { object = object; op = op }) seen
        m.word in
        (after.seat.now ≡ with_access a m.seat.now)
        × ComesAfter (claims_in m.table.now.layout m.table.now.cells) a m.seat.now.part
        × (R.stream after.rng.now ≡ R.stream m.rng.now)
        × (after.table.now ≡ m.table.now) × (after.cell ≡ m.cell)
        × (after.seat.ghost_name ≡ m.seat.ghost_name) × (after.rng.ghost_name ≡ m.rng.ghost_name) };

    #[inline(always)]
    fn perform(&mut self, object: u32, op: Op) -> u64 {
        self.table
            .make::<Brand>(self.seat, self.cell, ClaimOp { object, op }, self.word)
    }
}

impl<'a, A: Allocator + Drop, R: Rng> Drawing for DrawingWords<'a, A, R> {
    ghost use Rattle.std.specs.Prelude.{◌≡◌, ◌<◌, ◌+◌, ◌*◌, ◌^◌};
    ghost use Rattle.rand_core.specs.Stream.{next_u64};
    ghost use Rattle.mb_deciding.specs.Vocabulary.{reg_of};
    ghost use Rattle.mb_claim.specs.Vocabulary.{IsWordInLayout, cell_words, claims_in, site_of};
    ghost use Rattle.mb_shared_claims.specs.{name_of, MayComeNext};

    // The random word is the source's next one. Nothing else changes.
    ghost draws = { λ m word after.
        ((word, R.stream after.rng.now) ≡ next_u64 (R.stream m.rng.now))
        × (after.word ≡ word) × (after.seat.now ≡ m.seat.now)
        × (after.table.now ≡ m.table.now) × (after.cell ≡ m.cell)
        × (after.seat.ghost_name ≡ m.seat.ghost_name) × (after.rng.ghost_name ≡ m.rng.ghost_name) };

    // Seat and cell are of the table. The seat's consumer may make this op next on the cell, to a word of the site's
    // object. The site is where that object is in the cell, whose words can be addressed.
    ghost can_make_at = { λ m site op. (m.seat.now.table ≡ name_of m.table.now)
        × (m.cell < m.table.now.cells)
        × IsWordInLayout m.table.now.layout site.object (reg_of op)
        × MayComeNext (claims_in m.table.now.layout m.table.now.cells) m.seat.now.consumer m.cell
        m.seat.now.part (record { object = site.object; op = op })
        × (site ≡ site_of m.table.now.layout (m.cell * cell_words m.table.now.layout) site.object)
        × (m.cell * cell_words m.table.now.layout + cell_words m.table.now.layout < 2 ^ 64) };

    #[inline(always)]
    fn draw(&mut self) -> u64 {
        let word = self.rng.next_u64();
        self.word = word;
        word
    }

    #[inline(always)]
    fn perform_at(&mut self, site: Site, op: Op) -> u64 {
        layouts_are_sound();
        addresses_are_apart();
        let address = site.begin + Layout::place_in_object(op.reg()) as usize;
        let next = ClaimOp {
            object: site.object,
            op,
        };
        self.table
            .make_at::<Brand>(self.seat, address, self.cell, next, self.word)
    }
}
