//! One step of a claim on the words of a table.
ghost use Rattle.std.specs.Prelude.{ℕ, ◌≡◌, ◌+◌, ◌<◌, ◌≤◌, ◌^◌};
ghost use Rattle.mb_claim.specs.declared.access.Stage.TheVariants.{Won, Lost};

use crate::rule::{AccessSpec, MakeAccess};
use crate::seat::ClaimSeat;
use crate::table::SharedClaims;
use mb_claim::laws::{
    last_objects_decide_claims, layouts_are_sound, objects_have_lawful_histories,
    older_histories_are_lawful, prefixes_have_one_stage,
};
use mb_claim::steps::{accesses_lengthen_one_part, addresses_are_apart, claims_make_steps};
use mb_claim::{Claim, ClaimOp, Stage};
use mb_deciding::{Memory, Op};
use std::alloc::Allocator;
use std::marker::Brand;

impl<A: Allocator + Drop> SharedClaims<A> {
    ghost use Rattle.std.specs.Prelude.{◌≡◌, ◌≢◌, ◌<◌, ◌≤◌, ℕ, true, [], ◌∷◌};
    ghost use Rattle.mb_deciding.specs.Vocabulary.{reg_of};
    ghost use Rattle.mb_claim.specs.Vocabulary.{IsStanding, IsWordInLayout, IsClaimIn, claim_stage, claims_in, consumer_of, is_begun};
    ghost use Rattle.mb_claim.specs.Vocabulary.{kinds_of, part_on, shape_of, steps_left, word_address};
    ghost use Rattle.mb_deciding.specs.declared.object.Kind.TheVariants.{LastObject};
    ghost use Rattle.mb_claim.specs.declared.access.Stage.TheVariants.{Undecided};
    ghost use Rattle.mb_shared_claims.specs.{Claim, Going, name_of, IsSeatStep, MayComeNext, ComesAfter, access_of, with_access};

    /// Makes the next access of a claim of the seat's consumer on a cell, with the random word of this step. Returns
    /// the claim's stage after it.
    #[inline(always)]
    pub fn step(&self, seat: &mut ClaimSeat, claim: &mut Claim, cell: u32, word: u64) -> Stage
        requires table { seat.old.table ≡ name_of self.now }
        requires cell { cell < self.now.cells }
        requires consumer { consumer_of claim.old ≡ seat.old.consumer }
        requires standing { IsClaimIn self.now.layout claim.old
            (part_on seat.old.consumer cell seat.old.part) }
        requires going { claim_stage claim.old ≡ Going }

        // The seat's part has one access more: the one that the claim names, with the value found and the random word.
        // The access came after a lawful history, and the claim is then the one after that access.
        ensures step { IsSeatStep self.now.layout cell word claim.old seat.old claim.new seat.new }

        // So the claim has made all that its consumer has done on the cell, and can be stepped again if it goes on.
        ensures standing { IsClaimIn self.now.layout claim.new
            (part_on seat.new.consumer cell seat.new.part) }
        ensures consumer { consumer_of claim.new ≡ consumer_of claim.old }
        ensures begun { is_begun claim.new ≡ true }
        ensures stage { result ≡ claim_stage claim.new }

        // With a last object no claim is undecided.
        ensures decided { (shape_of self.now.layout).last ≡ true → result ≢ Undecided }
        ensures fewer { steps_left self.now.layout claim.new
            < steps_left self.now.layout claim.old }
    {
        claims_make_steps();
        accesses_lengthen_one_part();
        last_objects_decide_claims();
        let mut memory = SeatWords {
            table: self,
            seat: &mut *seat,
            cell,
            word,
        };
        claim.step(&self.size.layout, &mut memory, word)
    }

    /// Makes the only access of a new claim of the seat's consumer on a cell, if each cell has a last object alone.
    /// Returns how the claim ended: won or lost. The random word of the access counts for nothing. The caller passes
    /// the number of the seat's consumer, so that a loop can keep this number in a register.
    #[inline(always)]
    pub fn exchange(&self, seat: &mut ClaimSeat, consumer: u32, cell: u32, word: u64) -> Stage
        requires table { seat.old.table ≡ name_of self.now }
        requires consumer { consumer ≡ seat.old.consumer }
        requires cell { cell < self.now.cells }
        requires alone { kinds_of self.now.layout ≡ LastObject ∷ [] }

        // The consumer has done nothing on the cell.
        requires fresh { part_on seat.old.consumer cell seat.old.part ≡ [] }

        // The access is that of a new claim, which has then made all that its consumer has done on the cell.
        ensures step { (start : Claim) × (end : Claim)
            × IsStanding self.now.layout seat.old.consumer 0 seat.old.consumer start
            × (claim_stage start ≡ Going) × (consumer_of start ≡ seat.old.consumer)
            × (consumer_of end ≡ seat.old.consumer)
            × IsSeatStep self.now.layout cell word start seat.old end seat.new
            × (claim_stage end ≡ result)
            × IsClaimIn self.now.layout end (part_on seat.new.consumer cell seat.new.part) }
        ensures ended { result ≢ Going }
        ensures decided { result ≢ Undecided }
    {
        claims_make_steps();
        accesses_lengthen_one_part();
        layouts_are_sound();
        objects_have_lawful_histories();
        older_histories_are_lawful();
        prefixes_have_one_stage();
        // The call is for its contract alone: the number is one of the table's consumers.
        seat.consumer();
        let layout = &self.size.layout;
        let mut claim = Claim::alone(layout, consumer);
        let next = claim.next(layout);

        // A cell has one word, so the address of that word is the cell's number.
        let found = self.make_at::<Brand>(seat, cell as usize, cell, next, word);

        // Only the contract names the claim. What was found determines its stage.
        claim.after(layout, found, word);
        stage_found(found)
    }

    /// Makes an access of a claim that may come next. Returns the value that a load or an exchange found, and any value
    /// after a store.
    #[inline(always)]
    pub(super) fn make<W: AccessSpec>(
        &self,
        seat: &mut ClaimSeat,
        cell: u32,
        next: ClaimOp,
        word: u64,
    ) -> u64
        requires table { seat.old.table ≡ name_of self.now }
        requires cell { cell < self.now.cells }
        requires word { IsWordInLayout self.now.layout next.object (reg_of next.op) }
        requires next { MayComeNext (claims_in self.now.layout self.now.cells) seat.old.consumer
            cell seat.old.part next }
        requires access { (found : ℕ) → W.access found ≡ access_of
            seat.old.consumer cell next found word }
        ensures seat { seat.new ≡ with_access (access_of
            seat.old.consumer cell next result word) seat.old }
        ensures comes { ComesAfter (claims_in self.now.layout self.now.cells)
            (access_of seat.old.consumer cell next result word) seat.old.part }
    {
        addresses_are_apart();
        let address = self.size.layout.address(cell, next.object, next.op.reg());
        self.make_at::<W>(seat, address, cell, next, word)
    }

    /// Makes an access of a claim that may come next, at the address of its word. The result is that of
    /// [`SharedClaims::make`].
    #[inline(always)]
    pub(super) fn make_at<W: AccessSpec>(
        &self,
        seat: &mut ClaimSeat,
        address: usize,
        cell: u32,
        next: ClaimOp,
        word: u64,
    ) -> u64
        requires table { seat.old.table ≡ name_of self.now }
        requires cell { cell < self.now.cells }
        requires word { IsWordInLayout self.now.layout next.object (reg_of next.op) }
        requires address { address ≡ word_address self.now.layout cell next.object
            (reg_of next.op) }
        requires next { MayComeNext (claims_in self.now.layout self.now.cells) seat.old.consumer
            cell seat.old.part next }
        requires access { (found : ℕ) → W.access found ≡ access_of
            seat.old.consumer cell next found word }
        ensures seat { seat.new ≡ with_access (access_of
            seat.old.consumer cell next result word) seat.old }
        ensures comes { ComesAfter (claims_in self.now.layout self.now.cells)
            (access_of seat.old.consumer cell next result word) seat.old.part }
    {
        accesses_lengthen_one_part();
        addresses_are_apart();
        // Only the contract uses the cell and the random word.
        let _ = (cell, word);
        match next.op {
            Op::Load(_) => self
                .table
                .shared
                .load::<MakeAccess<W>>(&mut seat.seat, address),
            Op::Store(_, value) => {
                is_word(value);
                self.table
                    .shared
                    .store::<MakeAccess<W>>(&mut seat.seat, address, value);
                value
            }
            Op::Exchange(_, value) => {
                is_word(value);
                self.table
                    .shared
                    .compare_exchange::<MakeAccess<W>>(&mut seat.seat, address, 0, value)
            }
        }
    }
}

/// How a claim that is one exchange ends, if the exchange found this value. The exchange never finds its own consumer's
/// number, since that consumer had done nothing on the cell.
#[inline(always)]
fn stage_found(found: u64) -> Stage
    requires { found ≤ 2 ^ 8 }
    ensures empty { found ≡ 0 → result ≡ Won }
    ensures other { (w : ℕ) → found ≡ w + 1 → result ≡ Lost w }
{
    if found == 0 {
        return Stage::Won;
    }
    // The cast tells the compiler that the number has eight bits, and so which kind of note a caller makes of it.
    Stage::Lost(u32::from((found - 1) as u8))
}

/// Tells the prover that a `u64` is below 2 ^ 64, also one that was taken out of an op.
#[inline(always)]
fn is_word(value: u64)
    ensures { value < 2 ^ 64 }
{
    let _ = value;
}

/// The words of a cell while a seat makes one access to them.
#[derive(Drop)]
struct SeatWords<'a, A: Allocator + Drop> {
    table: &'a SharedClaims<A>,
    seat: &'a mut ClaimSeat,
    cell: u32,
    word: u64,
}

impl<'a, A: Allocator + Drop> Memory for SeatWords<'a, A> {
    ghost use Rattle.std.specs.Prelude.{◌≡◌, ◌<◌};
    ghost use Rattle.mb_deciding.specs.Vocabulary.{reg_of};
    ghost use Rattle.mb_claim.specs.Vocabulary.{IsWordInLayout, claims_in};
    ghost use Rattle.mb_shared_claims.specs.{name_of, MayComeNext, ComesAfter, access_of, with_access};

    // Seat and cell are of the table. The seat's consumer may make this op next on the cell, to a word of the layout.
    ghost can_make = { λ m object op. (m.seat.now.table ≡ name_of m.table.now)
        × (m.cell < m.table.now.cells)
        × IsWordInLayout m.table.now.layout object (reg_of op)
        × MayComeNext (claims_in m.table.now.layout m.table.now.cells) m.seat.now.consumer m.cell
        m.seat.now.part (record { object = object; op = op }) };

    // The seat's part gets the access, which came after a lawful history with the part before. The seat is the same.
    ghost makes = { λ m object op seen after.
        let a = access_of m.seat.now.consumer m.cell (record { object = object; op = op }) seen
        m.word in
        (after.seat.now ≡ with_access a m.seat.now)
        × (after.seat.ghost_name ≡ m.seat.ghost_name)
        × ComesAfter (claims_in m.table.now.layout m.table.now.cells) a m.seat.now.part };

    #[inline(always)]
    fn perform(&mut self, object: u32, op: Op) -> u64 {
        self.table
            .make::<Brand>(self.seat, self.cell, ClaimOp { object, op }, self.word)
    }
}
