//! Accesses of a claim, one after another, until it has ended or the budget is used up.
ghost use Rattle.std.specs.Prelude.{ℕ, ◌≡◌, ◌≢◌, ◌+◌, ◌<◌, true};
ghost use Rattle.mb_claim.specs.declared.access.Stage.TheVariants as stage;
ghost use Rattle.mb_mailbox.specs.Imports.{AreSeatSteps, IsClaimIn, claim_stage, consumer_of, name_of, part_on, shape_of};

use mb_claim::{Claim, Stage};
use mb_shared_claims::{ClaimSeat, SharedClaims};
use rand_core::Rng;
use std::alloc::Allocator;

/// Makes accesses of a claim that is going, each with the next word of `rng`, until it has ended or the budget `left`
/// is used up. Returns the claim's stage.
#[inline(always)]
pub(super) fn compete<B: Allocator + Drop, R: Rng>(
    claims: &SharedClaims<B>,
    seat: &mut ClaimSeat,
    claim: &mut Claim,
    cell: u32,
    rng: &mut R,
    left: &mut u64,
) -> Stage
    requires table { seat.old.table ≡ name_of claims.now }
    requires cell { cell < claims.now.cells }
    requires consumer { consumer_of claim.old ≡ seat.old.consumer }
    requires standing { IsClaimIn claims.now.layout claim.old
        (part_on seat.old.consumer cell seat.old.part) }
    requires going { claim_stage claim.old ≡ stage.Going }
    ensures steps { (n : ℕ) × (n + left.new ≡ left.old)
        × AreSeatSteps claims.now.layout cell claim.old seat.old (R.stream rng.old) n claim.new
        seat.new (R.stream rng.new) }
    ensures stage { result ≡ claim_stage claim.new }
    ensures all { result ≡ stage.Going → left.new ≡ 0 }
    ensures decided { (shape_of claims.now.layout).last ≡ true → result ≢ stage.Undecided }
{
    if *left == 0 {
        return Stage::Going;
    }
    'steps: loop {
        *left -= 1;
        let stage = claims.step(seat, claim, cell, rng.next_u64());
        if stage != Stage::Going || *left == 0 {
            return stage;
        }
    }
}
