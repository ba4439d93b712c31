//! How consumers come to the ends of lanes. The functions compute nothing. Their contracts are laws, and their bodies
//! name the laws of other crates from which these follow.
ghost use Rattle.std.specs.Prelude.{ℕ, ◌≡◌, ◌≢◌, Some, length, slice_get};
ghost use Rattle.mb_cells.specs.declared.size.PoolSize.{PoolSize};
ghost use Rattle.mb_shared_cells.specs.Vocabulary.{IsRollOf};
ghost use Rattle.mb_shared_cells.specs.declared.views.Roll.{Roll};
ghost use Rattle.mb_world.specs.Reporting.{values_put};
ghost use Rattle.mb_mailbox.specs.Imports.{History, Stream};
ghost use Rattle.mb_mailbox.specs.Consumers.{ConsumerView};
ghost use Rattle.mb_mailbox.specs.Jobs.{HasReadToEnd, IsSameConsumer};
ghost use Rattle.mb_mailbox.specs.Moves.{HasLoads};
ghost use Rattle.mb_mailbox.specs.Steps.{HasLoadedEnd, HasNoteOnEach, IsPollOf, notes_on};
ghost use Rattle.mb_mailbox.specs.declared.consumer.Poll.{Poll};

use mb_cells::laws::{end_marks_are_last, parts_tell_lanes, readers_follow_lanes};
use mb_cells::steps::parts_have_accesses;
use mb_world::steps::loads_meet_cells;

/// If a consumer has loaded the end mark past all cells that it met on a lane, with a note on each, it has read the
/// lane to its end. This still holds after a poll of another lane. No poll changes a consumer's tables and numbers.
pub(super) fn ends_are_kept()
    ensures read { (s : ConsumerView) (p : ℕ) → HasLoads s → HasLoadedEnd p s → HasNoteOnEach p s
        → HasReadToEnd p s }
    ensures same { (p budget : ℕ) (answer : Poll) (s t : Stream) (old new : ConsumerView)
        → IsPollOf p budget answer s t old new → IsSameConsumer old new }
    ensures kept { (p q budget : ℕ) (answer : Poll) (s t : Stream) (old new : ConsumerView)
        → IsPollOf p budget answer s t old new → q ≢ p → HasReadToEnd q old → HasReadToEnd q new }
{
    loads_meet_cells();
    parts_have_accesses();
    readers_follow_lanes();
}

/// If a consumer has read a lane to its end, and it and the lane's producer were returned, it has as many notes there
/// as the lane has items.
pub(super) fn ends_tell_notes()
    ensures { (size : PoolSize) (roll : Roll) (h : History) (p : ℕ) (done : History)
        (s : ConsumerView)
        → IsRollOf size roll h → slice_get roll.lanes p ≡ Some (Some done)
        → slice_get roll.readers s.reader.reader ≡ Some (Some s.reader.part) → HasReadToEnd p s
        → length (notes_on p s.notes) ≡ length (values_put p done) }
{
    end_marks_are_last();
    parts_have_accesses();
    parts_tell_lanes();
    readers_follow_lanes();
}
