//! Samples of the rule of the table: what it admits, and what only looks right. The functions compute nothing: their
//! contracts are the samples.
ghost use Rattle.std.specs.Prelude.{[], ◌∷◌};
ghost use Rattle.mb_cells.specs.Vocabulary.{one_put};
ghost use Rattle.mb_shared_cells.specs.Samples.{IsStateOfOne, hub_of_one, lane_with};

use mb_cells::laws::parts_tell_lanes;
use mb_cells::samples::one_item_is_put_and_read;

/// Words and views of a table of one lane and one cell. The words are, in this order, the counter,
/// the head, the link, the item and the roster.
pub fn words_and_views_agree()
    // The lane was issued, and its producer has put the item 8.
    ensures { IsStateOfOne (1 ∷ 1 ∷ 0 ∷ 8 ∷ 1 ∷ [])
        (hub_of_one ∷ lane_with one_put ∷ []) }
{
    one_item_is_put_and_read();
}

/// Words and views that are no state of such a table.
pub fn words_and_views_disagree()
    // The head lacks a link that was stored.
    ensures { IsStateOfOne (1 ∷ 0 ∷ 0 ∷ 8 ∷ 1 ∷ [])
        (hub_of_one ∷ lane_with one_put ∷ []) → ⊥ }
{
    parts_tell_lanes();
}
