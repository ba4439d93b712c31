//! Sample parts of a consumer that do not fit each other.
ghost use Rattle.mb_world.specs.PathSamples.{claimed_unseen, passed_unclaimed, passed_unloaded, read_head_again, read_unclaimed, two_cells};
ghost use Rattle.mb_world.specs.Vocabulary.{Fits};

use mb_claim::laws::prefixes_have_one_stage;
use mb_claim::samples::samples_are_lawful;
use mb_claim::steps::claims_have_one_next_op;
use mb_quorum::laws::named_tables_are_lawful;

/// Each clause has two parts of consumer 0 that do not fit each other. They break one rule of `Fits` alone.
pub fn parts_do_not_fit()
    // The head is loaded again after it led to a cell.
    ensures follows { Fits two_cells 0 read_head_again → ⊥ }

    // A claim is on a cell that no load gave.
    ensures met { Fits two_cells 0 claimed_unseen → ⊥ }

    // The link of a cell is loaded although the claim has not ended, or is won and its item is not loaded.
    ensures ended { Fits two_cells 0 passed_unclaimed → ⊥ }
    ensures taken { Fits two_cells 0 passed_unloaded → ⊥ }

    // An item is loaded although the claim is not won.
    ensures won { Fits two_cells 0 read_unclaimed → ⊥ }
{
    named_tables_are_lawful();
    samples_are_lawful();
    prefixes_have_one_stage();
    claims_have_one_next_op();
}
