//! How a consumer moves on by one access. The functions compute nothing. Their contracts are laws of a consumer's
//! accesses, and their bodies name the laws of other crates from which these follow.
ghost use Rattle.std.specs.Prelude.{ℕ, ◌≡◌, ◌≢◌, ◌+◌, ◌<◌, ◌⊎◌, List, [], ◌∷◌, None, Some, length, sum_by};
ghost use Rattle.mb_claim.specs.declared.access.ClaimOp.{ClaimOp};
ghost use Rattle.mb_claim.specs.declared.access.Stage.TheVariants as stage;
ghost use Rattle.mb_cells.specs.declared.cursor.Cursor.TheVariants.{Past};
ghost use Rattle.mb_mailbox.specs.Imports.{Claim, Cursor, END, Gave, IsAccessAfter, Item, MayRead, Note, Took, access_of, claim_stage, consumer_of, load, note_of, part_on, word_of, ReaderSeatView};
ghost use Rattle.mb_mailbox.specs.Imports.{ToCells, ToClaims, claims_at, look_of};
ghost use Rattle.mb_mailbox.specs.ConsumerWords.{ConsumerView, IsConsumer, parts_of, ConsumerStep, link_answer, stage_answer, Laws, HasLoads, HasPlace, HasTurns, reads_with_item, reads_with_link};
ghost use Rattle.mb_mailbox.specs.ConsumerWords.{moved_to, AnswerTells, HasNoteOnEach};
ghost use Rattle.mb_world.specs.Places.{place_after};
ghost use Rattle.mb_mailbox.specs.declared.consumer.Poll.TheVariants as poll;
ghost use Rattle.mb_shared_cells.specs.Vocabulary.{LookMakes};
ghost use Rattle.mb_cells.specs.declared.answer.Look.TheVariants as look;
ghost use Rattle.mb_world.specs.declared.place.Place.TheVariants.{At, Before};

use mb_cells::laws::{cells_stand_once, lanes_share_cells, looks_tell_links, readers_follow_lanes};
use mb_cells::steps::{
    accesses_lengthen_one_part as loads_lengthen_one_part, history_extends, parts_have_accesses,
};
use mb_claim::laws::{layouts_are_sound, prefixes_have_one_stage};
use mb_claim::steps::accesses_lengthen_one_part;
use mb_shared_cells::laws::{known_lanes_are_read_whole, lanes_are_empty_if_nothing_is_found};
use mb_world::steps::{loads_meet_cells, parts_fit_on};

/// The laws of the crates below from which those of a consumer's moves follow, in one record.
fn laws_hold()
    ensures { Laws }
{
    cells_stand_once();
    lanes_share_cells();
    readers_follow_lanes();
    history_extends();
    parts_have_accesses();
    loads_lengthen_one_part();
    layouts_are_sound();
    prefixes_have_one_stage();
    accesses_lengthen_one_part();
    loads_meet_cells();
    parts_fit_on();
}

/// What a consumer's place on a lane lets it do, and what the consumer is after an access there.
pub(super) fn consumers_move_on()
    ensures laws { Laws }

    // Before a link the consumer may load that link.
    ensures may_look { (s : ConsumerView) (p : ℕ) (at : Cursor) → IsConsumer s → HasLoads s
        → HasPlace p (Before at) s
        → MayRead s.reader.table.size.lanes (word_of at) s.reader.part }

    // If the link leads to no cell, the consumer stays before it.
    ensures waits { (s : ConsumerView) (p v : ℕ) (at : Cursor) → IsConsumer s → HasLoads s
        → HasPlace p (Before at) s → (v ≡ 0) ⊎ (v ≡ END)
        → IsConsumer (moved_to p (Before at) None (reads_with_link s at v) s.seat.part s) }

    // If the link leads to a cell, the consumer then holds a new claim there.
    ensures finds { (s : ConsumerView) (p k : ℕ) (at : Cursor) (claim : Claim) → IsConsumer s
        → HasLoads s → HasPlace p (Before at) s → k + 1 ≢ END
        → IsAccessAfter s.reader.table.size s.reader.known
        (load s.reader.reader (word_of at) (k + 1)) s.reader.part
        → consumer_of claim ≡ s.seat.consumer → claim_stage claim ≡ stage.Going
        → HasTurns s claim []
        → IsConsumer (moved_to p (At k claim) None (reads_with_link s at (k + 1)) s.seat.part s) }

    // After an access of a claim that the consumer holds, the claim's stage determines the consumer's place, and its
    // note if it has one.
    ensures competes { (s : ConsumerView) (p k word seen : ℕ) (claim now : Claim) (next : ClaimOp)
        → IsConsumer s → HasLoads s → HasPlace p (At k claim) s
        → consumer_of now ≡ s.seat.consumer
        → let made = access_of s.seat.consumer k next seen word ∷ s.seat.part in
        HasTurns s now (part_on s.seat.consumer k made)
        → IsConsumer (moved_to p (place_after k now (claim_stage now)) (note_of (claim_stage now))
        s.reader.part made s) }

    // If the claim is won, the consumer loads the item, and then stands past the cell with a note.
    ensures takes { (s : ConsumerView) (p k v : ℕ) (claim : Claim) → IsConsumer s → HasLoads s
        → HasPlace p (At k claim) s → claim_stage claim ≡ stage.Won
        → IsConsumer (moved_to p (Before (Past k)) (Some (Took v)) (reads_with_item s k v)
        s.seat.part s) }
{
    laws_hold();
}

/// The next access of a consumer on a lane, by its place there.
pub(super) fn places_tell_steps()
    // Before a link the next access is the load of that link.
    ensures looks { (s : ConsumerView) (p v : ℕ) (at : Cursor) → IsConsumer s
        → HasPlace p (Before at) s
        → ConsumerStep (claims_at s.seat.table) s.seat.consumer p (parts_of s.reader s.seat)
        (ToCells (load s.reader.reader (word_of at) v)) (link_answer (look_of v)) }

    // With a claim that goes on, the next access is the claim's. The stage after it determines the answer.
    ensures competes { (s : ConsumerView) (p k word seen : ℕ) (claim now : Claim) (next : ClaimOp)
        → IsConsumer s → HasPlace p (At k claim) s → claim_stage claim ≡ stage.Going
        → consumer_of now ≡ s.seat.consumer
        → let a = access_of s.seat.consumer k next seen word in
        HasTurns s now (part_on s.seat.consumer k (a ∷ s.seat.part))
        → ConsumerStep (claims_at s.seat.table) s.seat.consumer p (parts_of s.reader s.seat)
        (ToClaims a) (stage_answer (claim_stage now)) }

    // With a claim that is won, the next access is the load of the item.
    ensures takes { (s : ConsumerView) (p k v : ℕ) (claim : Claim) → IsConsumer s
        → HasPlace p (At k claim) s → claim_stage claim ≡ stage.Won
        → ConsumerStep (claims_at s.seat.table) s.seat.consumer p (parts_of s.reader s.seat)
        (ToCells (load s.reader.reader (Item k) v)) (Some (poll.Took v)) }
{
    laws_hold();
}

/// What the answers of a consumer's accesses say of their lane.
pub(super) fn answers_tell_lanes()
    // Before a link the consumer has a note on each cell that it met on the lane.
    ensures noted { (s : ConsumerView) (p : ℕ) (at : Cursor) → IsConsumer s
        → HasPlace p (Before at) s
        → HasNoteOnEach p s }

    // After a load of a link that leads to no cell, `AnswerTells` holds: each cell met has a note. If the lane's
    // producer was returned before the consumer was issued, the consumer has met all that was put there.
    ensures nothing { (s : ConsumerView) (p : ℕ) (at : Cursor) (now : ReaderSeatView) → IsConsumer s
        → HasLoads s → HasPlace p (Before at) s → LookMakes s.reader at look.Nothing now
        → AnswerTells p (Some poll.Nothing) s (record s { reader = now }) }
    ensures ended { (s : ConsumerView) (p : ℕ) (at : Cursor) (now : ReaderSeatView) → IsConsumer s
        → HasLoads s → HasPlace p (Before at) s → LookMakes s.reader at look.Ended now
        → AnswerTells p (Some poll.Ended) s (record s { reader = now }) }
{
    laws_hold();
    looks_tell_links();
    lanes_are_empty_if_nothing_is_found();
    known_lanes_are_read_whole();
}
