//! Small histories of the claims of two consumers on one cell: what the definitions admit, and what they refuse. The
//! functions compute nothing. The proofs begin in `proofs/samples`.
ghost use Rattle.mb_claim.specs.{IsClaimLawful, HasStage, Going, Won, Lost, Undecided};
ghost use Rattle.mb_claim.specs.{two_consumers, won_and_lost, begun_again, left_undecided};
ghost use Rattle.mb_claim.specs.{two_with_fast, lost_at_second, skip_both_ratifiers};
ghost use Rattle.mb_claim.specs.{two_with_last, last_comes_first};
ghost use Rattle.mb_claim.specs.{two_alone, exchanged_once_each, both_found_empty};

use crate::laws::{last_objects_decide_claims, prefixes_have_one_stage};
use mb_deciding::laws::objects_keep_their_promises;

/// A history that is lawful, and the stages of its claims.
pub fn samples_are_lawful()
    // Consumer 0 wins alone, then consumer 1 comes and loses.
    ensures lawful { IsClaimLawful two_consumers won_and_lost }
    ensures won { HasStage two_consumers 0 0 Won won_and_lost }
    ensures lost { HasStage two_consumers 1 0 (Lost 0) won_and_lost }

    // Consumer 1 has not won.
    ensures not_won { HasStage two_consumers 1 0 Won won_and_lost → ⊥ }
{
    prefixes_have_one_stage();
}

/// A history that is not lawful.
pub fn faulty_samples_are_unlawful()
    // Consumer 0 has its output from the first object, and begins there again.
    ensures { IsClaimLawful two_consumers begun_again → ⊥ }
{
    objects_keep_their_promises();
}

/// Histories with a fast path before the pair: a lawful one, and one that is not.
pub fn fast_paths_come_first()
    // Consumer 0 wins on the first ratifier. Then consumer 1 comes, and loses on the second.
    ensures lawful { IsClaimLawful two_with_fast lost_at_second }

    // No consumer may skip both ratifiers and begin with the conciliator.
    ensures skipped { IsClaimLawful two_with_fast skip_both_ratifiers → ⊥ }
{}

/// What a last object after the pair changes. `HasStage` asks nothing of other consumers' accesses.
pub fn last_objects_come_last()
    // Consumer 0 has found an announcement of consumer 1. Without a last object its claim is undecided.
    ensures undecided { HasStage two_consumers 0 0 Undecided left_undecided }

    // With a last object its claim goes on, and is not undecided.
    ensures going { HasStage two_with_last 0 0 Going left_undecided }
    ensures not_undecided { HasStage two_with_last 0 0 Undecided left_undecided → ⊥ }

    // No consumer may begin with the last object.
    ensures first { IsClaimLawful two_with_last last_comes_first → ⊥ }
{
    last_objects_decide_claims();
}

/// Histories with a last object alone: a lawful one, and one that is not.
pub fn last_objects_stand_alone()
    // Consumer 0 comes first and wins, and consumer 1 loses to it.
    ensures lawful { IsClaimLawful two_alone exchanged_once_each }

    // After consumer 0's exchange, consumer 1's exchange does not find 0.
    ensures empty { IsClaimLawful two_alone both_found_empty → ⊥ }
{}
