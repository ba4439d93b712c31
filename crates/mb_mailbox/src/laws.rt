//! Laws of polls, of what a hub has taken back, and of what is gathered. The functions compute nothing: their contracts
//! are the laws.
ghost use Rattle.std.specs.Prelude.{ℕ, ◌≡◌, ◌≢◌, ◌≤◌, ◌<◌, ◌+◌, ◌-◌, ◌*◌, ◌^◌, List, [], ◌∷◌, Some, None, false, true, length, map, slice_get};
ghost use Rattle.mb_claim.specs.Vocabulary.{HasStage, IsClaimLawful, claims_in, kinds_of, most_accesses, shape_of};
ghost use Rattle.mb_claim.specs.declared.access.Stage.TheVariants as stage;
ghost use Rattle.mb_deciding.specs.declared.object.Kind.TheVariants.{LastObject};
ghost use Rattle.mb_mailbox.specs.Imports.{Claim, ClaimAccess, IsLawfulPart, Layout, Note, Stream, Undecided, cells_met, claims_at, has_ended};
ghost use Rattle.mb_mailbox.specs.ConsumerWords.{ConsumerView, HasLoads, HasNoteOnEach, IsConsumer, IsConsumerOf, IsPollOf, Poll};
ghost use Rattle.mb_mailbox.specs.Gathering.{IsGathered, IsReportIn, UndecidedHasCompany, begun_in, count_missing, ended_in, items_in, notes_in};
ghost use Rattle.mb_mailbox.specs.{Calls.{AreCalls, Call}, Mailboxes.{MailboxView, plan_at}, Producers.{ProducerView}};
ghost use Rattle.mb_mailbox.specs.{Jobs.{accesses_made}, Steps.{AreDrawn, outcome}, Takes.{IsTakeOf}};
ghost use Rattle.mb_mailbox.specs.declared.consumer.Poll.TheVariants.{Lost, Spent, Took};
ghost use Rattle.mb_world.specs.{Agreement.{AreAllTaken, IsLeftBesideBegun}, Places.{has_begun_at}, Plan.{consumers_of}, Theorem.{ReportView, items_left, items_put, note, notes}};
ghost use Rattle.mb_mailbox.specs.{Emptiness.{HasFoundEmpty}, EmptinessSamples.{looked_past, met_one, with_loads}, GatheringSamples.{alone_undecided, two_undecided}};
ghost use Rattle.mb_mailbox.specs.Hubs.{HubView, with_taken_consumer, with_taken_producer};
ghost use Rattle.mb_world.specs.declared.place.Place.{Place, TheVariants.At};

use mb_cells::laws::{cells_stand_once, looks_tell_links, readers_follow_lanes};
use mb_claim::laws::{
    claims_are_bounded, claims_have_one_winner, last_objects_decide_claims, layouts_are_sound,
    prefixes_have_one_stage,
};
use mb_claim::steps::accesses_lengthen_one_part;
use mb_shared_cells::laws::lanes_are_empty_if_nothing_is_found;
use mb_world::laws::{
    last_objects_settle_items, reports_have_all_diaries, shaped_setups_have_last_objects,
};
use mb_world::steps::loads_meet_cells;

/// Whatever its budget, a poll makes at most two accesses more than a whole claim may have: the load of a link, and the
/// load of an item. The poll and its consumer are as [`Consumer::poll`](crate::Consumer::poll) and
/// [`keeps_its_parts`](crate::Consumer::keeps_its_parts) say.
pub fn polls_are_short()
    ensures { (m : MailboxView) (p budget : ℕ) (answer : Poll) (s t : Stream)
        (old new : ConsumerView) (poll : IsPollOf p budget answer s t old new)
        → p < m.cells.size.lanes → IsConsumer old → IsConsumer new → IsConsumerOf m new
        → IsLawfulPart (claims_at new.seat.table) new.seat.consumer new.seat.part
        → (outcome answer ≢ None → HasNoteOnEach p new)
        → length poll.accesses ≤ most_accesses m.claims.layout + 2 }
{
    accesses_lengthen_one_part();
    claims_are_bounded();
    layouts_are_sound();
    loads_meet_cells();
    looks_tell_links();
    prefixes_have_one_stage();
}

/// Whatever its budget, a take makes few accesses: at most one more than a whole claim may have, for each cell that it
/// meets, and as many once more. So with a budget for all cells it is never spent. The take and its consumer are as
/// [`Consumer::take`](crate::Consumer::take) and [`keeps_its_parts`](crate::Consumer::keeps_its_parts) say.
pub fn takes_are_short()
    ensures few { (m : MailboxView) (p most : ℕ) (answer : Poll) (s t : Stream)
        (old new : ConsumerView) → IsTakeOf p most answer s t old new → IsConsumerOf m new
        → IsLawfulPart (claims_at new.seat.table) new.seat.consumer new.seat.part
        → let each = most_accesses m.claims.layout + 1 in
        accesses_made new + each * length (cells_met p old.reader.part)
        ≤ accesses_made old + each * length (cells_met p new.reader.part) + each }
    ensures unspent { (m : MailboxView) (p most : ℕ) (answer : Poll) (s t : Stream)
        (old new : ConsumerView) → IsTakeOf p most answer s t old new → IsConsumerOf m new
        → HasLoads new
        → IsLawfulPart (claims_at new.seat.table) new.seat.consumer new.seat.part
        → (most_accesses m.claims.layout + 1) * (m.cells.size.cells + 1) < most
        → answer ≢ Spent }
{
    accesses_lengthen_one_part();
    cells_stand_once();
    claims_are_bounded();
    loads_meet_cells();
    looks_tell_links();
    readers_follow_lanes();
}

/// A take with the budget 2^64 - 1 is never spent: for up to 2^24 cells the bound of [`takes_are_short`] is below that,
/// whatever the layout.
pub fn full_budgets_suffice()
    ensures { (layout : Layout) (cells : ℕ) → cells ≤ 2 ^ 24
        → (most_accesses layout + 1) * (cells + 1) < 2 ^ 64 - 1 }
{
    layouts_are_sound();
}

/// A lane that was never issued is open and empty. A consumer that was never issued has noted and begun nothing.
pub fn what_was_not_issued_is_empty()
    ensures items { (h : HubView) (p : ℕ) → length h.puts ≤ p → items_in p h ≡ [] }
    ensures ended { (h : HubView) (p : ℕ) → length h.puts ≤ p → ended_in p h ≡ false }
    ensures notes { (h : HubView) (c p : ℕ) → length h.records ≤ c → notes_in c p h ≡ [] }
    ensures begun { (h : HubView) (c p : ℕ) → length h.records ≤ c → begun_in c p h ≡ false }
{}

/// The report has what those issued bring back: a producer's items and end mark, a consumer's notes and begun claims.
pub fn what_was_returned_is_told()
    ensures items { (h : HubView) (s : ProducerView)
        → slice_get h.puts s.seat.lane ≡ Some None
        → items_in s.seat.lane (with_taken_producer s h) ≡ s.items }
    ensures ended { (h : HubView) (s : ProducerView)
        → slice_get h.puts s.seat.lane ≡ Some None
        → ended_in s.seat.lane (with_taken_producer s h) ≡ has_ended s.seat.lane s.seat.part }
    ensures notes { (h : HubView) (s : ConsumerView) (p : ℕ) (notes : List Note)
        → slice_get h.records s.seat.consumer ≡ Some None → slice_get s.notes p ≡ Some notes
        → notes_in s.seat.consumer p (with_taken_consumer s h) ≡ notes }
    ensures begun { (h : HubView) (s : ConsumerView) (p : ℕ) (place : Place)
        → slice_get h.records s.seat.consumer ≡ Some None → slice_get s.places p ≡ Some place
        → begun_in s.seat.consumer p (with_taken_consumer s h) ≡ has_begun_at place }
{}

/// If a consumer has a note on each cell that it met on a lane, it holds no claim there. This holds after each poll
/// of the lane that is not spent. If the consumer is returned then, its diary of the lane has no claim begun.
pub fn noted_lanes_hold_no_claim()
    ensures place { (s : ConsumerView) (p k : ℕ) (claim : Claim) → IsConsumer s → HasNoteOnEach p s
        → slice_get s.places p ≢ Some (At k claim) }
    ensures begun { (h : HubView) (s : ConsumerView) (p : ℕ) → IsConsumer s → HasNoteOnEach p s
        → begun_in s.seat.consumer p (with_taken_consumer s h) ≡ false }
{}

/// If each cell of a mailbox has a last object, its report has no undecided note. If nobody took an item that was
/// competed for, it is left: some diary's notes end just before it, and the claim there is begun. On a lane on which
/// no claim is begun, each item that was competed for is taken. If each consumer has a note on each item of a lane,
/// nothing is left of it.
pub fn last_objects_settle_what_is_gathered()
    ensures notes { (m : MailboxView) (h : HubView) (r : ReportView) (c p j : ℕ)
        → (shape_of m.claims.layout).last ≡ true → IsGathered m h r
        → note c p j r ≢ Some Undecided }
    ensures beside { (m : MailboxView) (h : HubView) (r : ReportView)
        → (shape_of m.claims.layout).last ≡ true → IsGathered m h r → IsLeftBesideBegun r }
    ensures taken { (m : MailboxView) (h : HubView) (r : ReportView)
        → (shape_of m.claims.layout).last ≡ true → IsGathered m h r → AreAllTaken r }
    ensures none_left { (m : MailboxView) (h : HubView) (r : ReportView) (p : ℕ)
        → (shape_of m.claims.layout).last ≡ true → IsGathered m h r
        → ((c : ℕ) → c < consumers_of (plan_at m)
        → length (notes c p r) ≡ length (items_put p r))
        → items_left p r ≡ [] }
{
    last_objects_settle_items();
    layouts_are_sound();
    reports_have_all_diaries();
    shaped_setups_have_last_objects();
}

/// If each cell has a last object alone, an item is lost only to a consumer that has won it by then. A claim never goes
/// back, so that consumer has won it in each longer history, too.
pub fn exchanges_are_lost_to_winners()
    ensures { (layout : Layout) (cells k c w : ℕ) (h : List ClaimAccess)
        → kinds_of layout ≡ LastObject ∷ [] → IsClaimLawful (claims_in layout cells) h
        → HasStage (claims_in layout cells) c k (stage.Lost w) h
        → HasStage (claims_in layout cells) w k stage.Won h }
{
    claims_have_one_winner();
    last_objects_decide_claims();
    layouts_are_sound();
}

/// If a consumer's claims had no access before its calls, the claims' random words are the source's first, in order.
pub fn calls_draw_the_first_words()
    ensures { (from end budget : ℕ) (made : List Call) (source left : Stream)
        (old new : ConsumerView)
        → AreCalls from end budget made source left old new → old.seat.part ≡ []
        → AreDrawn source (map (λ a. a.step.turn.word) new.seat.part) left }
{}

/// A sample of takes. A poll that lost its item and a poll that took one make a take, if the second has the budget that
/// the first left.
pub fn sample_takes()
    ensures past_one { (p most left w x : ℕ) (s t u : Stream) (old mid new : ConsumerView)
        → IsPollOf p most (Lost w) s t old mid
        → accesses_made mid + left ≡ accesses_made old + most
        → IsPollOf p left (Took x) t u mid new → IsTakeOf p most (Took x) s u old new }

    // No take ends with a loss.
    ensures lost { (p most w : ℕ) (s t : Stream) (old new : ConsumerView)
        → IsTakeOf p most (Lost w) s t old new → ⊥ }
{}

/// Samples of `HasFoundEmpty`, of a consumer that meets cell 0 on lane 0, and loses it. A take that then looks past it
/// and finds nothing may return [`Poll::Nothing`](crate::Poll::Nothing), though another cell may be linked after that.
pub fn sample_emptiness()
    ensures whole { (s : ConsumerView)
        → HasFoundEmpty 0 (with_loads s []) (with_loads s (looked_past s)) }

    // A take that stops one cell early may not: it has not looked past the last cell that it met.
    ensures early { (s : ConsumerView)
        → HasFoundEmpty 0 (with_loads s []) (with_loads s (met_one s)) → ⊥ }
{
    lanes_are_empty_if_nothing_is_found();
    loads_meet_cells();
    readers_follow_lanes();
}

/// A hub has at most one report of what was returned to it.
pub fn hubs_have_one_report()
    ensures { (lanes consumers : ℕ) (h : HubView) (r s : ReportView)
        → IsReportIn lanes consumers h r → IsReportIn lanes consumers h s → r ≡ s }
{}

/// Samples of `count_missing` and of `UndecidedHasCompany`. The latter admits a report in which two consumers have an
/// undecided note, and refuses one in which one has, and no other competed.
pub fn sample_reports()
    ensures two_missing { count_missing {X = ℕ} (None ∷ Some 7 ∷ None ∷ []) ≡ 2 }
    ensures company { UndecidedHasCompany two_undecided }
    ensures alone { UndecidedHasCompany alone_undecided → ⊥ }
{}
