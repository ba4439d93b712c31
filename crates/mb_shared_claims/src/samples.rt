//! Samples of the rule of the table: what it admits, and what it refuses. The functions compute nothing: their
//! contracts are the samples.
ghost use Rattle.std.specs.Prelude.{ℕ, ◌≡◌, ◌+◌, ◌<◌, List, [], ◌∷◌, replicate, slice_index};
ghost use Rattle.mb_claim.specs.Vocabulary.{IsWordIn, address_in};
ghost use Rattle.mb_shared_claims.specs.{Issuing, IsClaimsState, Reg, TableSize, claims_of_size, roster};

use crate::laws::steps_keep_states;
use mb_claim::steps::accesses_lengthen_one_part;

/// Words and views of a table of any size that are a state.
pub fn words_and_views_agree()
    // All words are 0, and the hub alone has a view, with no number issued.
    ensures new { (k : TableSize)
        → IsClaimsState k (replicate (roster k + 1) 0) (Issuing k [] ∷ []) }
{
    steps_keep_states();
}

/// Words and views of a table of any size that are no state.
pub fn words_and_views_disagree()
    // A word of cell 0 holds 1, and nobody stored that: no number was issued.
    ensures { (k : TableSize) (o : ℕ) (reg : Reg) (words : List ℕ) → 0 < k.cells
        → IsWordIn (claims_of_size k) o reg
        → slice_index words (address_in (claims_of_size k) 0 o reg) ≡ 1
        → IsClaimsState k words (Issuing k [] ∷ []) → ⊥ }
{
    accesses_lengthen_one_part();
}
