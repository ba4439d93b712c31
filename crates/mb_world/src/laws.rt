//! Laws of mailboxes, their reports, and the events of worlds. The functions compute nothing: their contracts are the
//! laws, and their bodies name the laws that they use. The proof of each is in its own folder of `proofs/laws/`, and uses
//! lemmas of `proofs/`.
ghost use Rattle.std.specs.Prelude.{ℕ, ◌+◌, ◌^◌, ◌≡◌, ◌≢◌, ◌↔◌, ◌<◌, List, [], ◌∷◌, ◌++◌, IsSome, Option, Some, true, false, reverse, slice_get};
ghost use Rattle.mb_world.specs.Vocabulary.{ReportView, diary, note, Assignment, AgreesWith, AreAllTaken, HasCompeted, IsLeftBesideBegun, IsSettled, HasLastObject, Histories, Plan, consumers_of};
ghost use Rattle.mb_world.specs.Vocabulary.{cells_met, parts_of, AreSound, HasMetAll, IsDiaryOf, IsReportOf, MainTheorem, Claims, IsQuorumTable, ObjectTurn, claim_part, linked_cells, Note};
ghost use Rattle.mb_world.specs.Vocabulary.{Setup, plan_in, shape_in, shaped_plan, ConsumerPath, diary_at, Answer, Event, EventKnown, IsAccessOf, HasAnswer, IsRefused, IsRefusedOrMade};
ghost use Rattle.mb_world.specs.Vocabulary.{IsReplay, WorldAccess, WorldHistory, claim_accesses, histories_of, lane_part, pool_accesses, HasFoundNone, HasPending, has_ended, HasNothing};
ghost use Rattle.mb_world.specs.Vocabulary.{IsWorldLawful, Undecided};
ghost use Rattle.mb_claim.specs.declared.shape.Shape.{Shape};
ghost use Rattle.mb_quorum.specs.declared.table.TableName.{TableName};
ghost use Rattle.mb_cells.specs.declared.answer.Finish.TheVariants as finish;
ghost use Rattle.mb_cells.specs.declared.answer.Look.TheVariants as look;
ghost use Rattle.mb_cells.specs.declared.answer.Offer.TheVariants as offer;
ghost use Rattle.mb_cells.specs.declared.answer.Push.TheVariants as push;
ghost use Rattle.mb_world.specs.declared.event.Answer.TheVariants as answer;
ghost use Rattle.mb_world.specs.declared.event.Event.TheVariants as event;

use crate::known::{sound_histories_are_known, worlds_are_known};
use mb_cells::laws::{
    cells_stand_once, end_marks_are_last, lanes_refuse_by_what_was_done, numbers_are_issued_once,
    readers_keep_to_lanes, words_lead_through_lanes,
};
use mb_cells::steps::{accesses_stay_within, history_extends, lanes_lead_on};
use mb_claim::laws::{last_objects_decide_claims, prefixes_have_one_stage};
use mb_claim::steps::claims_have_one_next_op;
use mb_deciding::laws::objects_keep_their_promises;

/// A report is settled, one assignment of items to competitors agrees with it, and nothing follows an end mark.
/// This holds for every order of the accesses to the claims, every order of those to the cells, and all random words.
pub fn reports_have_one_assignment()
    ensures { (plan : Plan) (hs : Histories) (r : ReportView) → AreSound plan hs
        → IsReportOf plan hs r → MainTheorem hs.pool hs.reader_of r }
{
    sound_histories_are_known();
    end_marks_are_last();
}

/// A report has a diary exactly of each consumer of its mailbox on each lane. So the main theorem's point on end marks
/// speaks of all of them.
pub fn reports_have_all_diaries()
    ensures { (plan : Plan) (hs : Histories) (r : ReportView) (c p : ℕ) → IsReportOf plan hs r
        → IsSome (diary c p r) ↔ ((c < consumers_of plan) × (p < plan.lanes)) }
{}

/// There is at most one report of what was done.
pub fn histories_have_one_report()
    ensures { (plan : Plan) (hs : Histories) (r s : ReportView) → AreSound plan hs
        → IsReportOf plan hs r → IsReportOf plan hs s → r ≡ s }
{
    sound_histories_are_known();
}

/// A report that agrees with an assignment is settled: an item that was competed for is left only if a
/// competitor neither took nor lost it.
pub fn agreeing_reports_are_settled()
    ensures { (t : Assignment) (r : ReportView) → AgreesWith t r → IsSettled r }
{}

/// If each cell has a last object, no note is undecided. So an item that was competed for is left only if a claim on it
/// is begun. On a lane without a begun claim, each item that was competed for is taken.
pub fn last_objects_settle_items()
    ensures notes { (plan : Plan) (hs : Histories) (r : ReportView) (c p j : ℕ) → HasLastObject plan
        → AreSound plan hs → IsReportOf plan hs r → note c p j r ≢ Some Undecided }
    ensures beside { (plan : Plan) (hs : Histories) (r : ReportView) → HasLastObject plan
        → AreSound plan hs → IsReportOf plan hs r → IsLeftBesideBegun r }
    ensures taken { (plan : Plan) (hs : Histories) (r : ReportView) → HasLastObject plan
        → AreSound plan hs → IsReportOf plan hs r → AreAllTaken r }
{
    last_objects_decide_claims();
    reports_have_one_assignment();
}

/// If the shape of a setup or plan has a last object, each of its cells ends with one.
pub fn shaped_setups_have_last_objects()
    ensures setups { (setup : Setup) → (shape_in setup).last ≡ true
        → HasLastObject (plan_in setup) }
    ensures plans { (shape : Shape) (p c m k : ℕ) (t : TableName) → shape.last ≡ true
        → HasLastObject (shaped_plan shape p c m k t) }
{}

/// A report agrees with at most one assignment, compared lane by lane and position by position.
pub fn reports_agree_with_one_assignment()
    ensures { (t u : Assignment) (r : ReportView) → AgreesWith t r → AgreesWith u r
        → (p j : ℕ) → t p j ≡ u p j }
{}

/// By the report a consumer competed for an item exactly if it made an access to its claim there. Each cell needs an
/// object: without objects a claim would end without an access.
pub fn competitors_have_accesses()
    ensures { (plan : Plan) (hs : Histories) (r : ReportView) (c p j k : ℕ) → AreSound plan hs
        → IsReportOf plan hs r → plan.claims.kinds ≢ [] → c < consumers_of plan → p < plan.lanes
        → slice_get (reverse (linked_cells p hs.pool)) j ≡ Some k
        → HasCompeted c p j r ↔ (claim_part c k hs.claims ≢ []) }
{
    objects_keep_their_promises();
    sound_histories_are_known();
}

/// The cells that `cells_met` reads off a consumer's own loads are all that the consumer met on the lane.
pub fn parts_tell_cells_met()
    ensures { (plan : Plan) (hs : Histories) (c p : ℕ) → AreSound plan hs → c < consumers_of plan
        → HasMetAll (hs.reader_of c) p (cells_met p (parts_of c hs).reads) hs.pool }
{
    sound_histories_are_known();
}

/// A lawful history of a world, cut into that of its claims and that of its cells, is sound, if the quorum table is
/// lawful. So the main theorem holds of its report.
pub fn worlds_are_sound()
    ensures sound { (plan : Plan) (h : WorldHistory) → IsQuorumTable plan.claims.table
        → IsWorldLawful plan h → AreSound plan (histories_of h) }
    ensures main_theorem { (plan : Plan) (h : WorldHistory) (r : ReportView)
        → IsQuorumTable plan.claims.table → IsWorldLawful plan h
        → IsReportOf plan (histories_of h) r → MainTheorem (pool_accesses h) (λ c. c) r }
{
    worlds_are_known();
    readers_keep_to_lanes();
    reports_have_one_assignment();
}

/// What a consumer has done on a lane leads to at most one place. If it leads to one, so does each older part of it.
pub fn paths_lead_to_one_place()
    ensures one { (cs : Claims) (c p : ℕ) (done : WorldHistory) (ks js : List ℕ) (ns ms : List Note)
        (held other : Option (List ObjectTurn)) → IsQuorumTable cs.table
        → ConsumerPath cs c p done ks ns held → ConsumerPath cs c p done js ms other
        → (ks ≡ js) × (ns ≡ ms) × (held ≡ other) }
    ensures older { (cs : Claims) (c p : ℕ) (later older : WorldHistory) (ks : List ℕ)
        (ns : List Note) (held : Option (List ObjectTurn))
        → ConsumerPath cs c p (later ++ older) ks ns held
        → (js : List ℕ) × (ms : List Note) × (was : Option (List ObjectTurn))
        × ConsumerPath cs c p older js ms was }
{
    prefixes_have_one_stage();
    claims_have_one_next_op();
}

/// In a lawful world the diary of a consumer on a lane follows from the place to which its path there has led.
pub fn places_tell_diaries()
    ensures diary { (plan : Plan) (h : WorldHistory) (c p : ℕ) (ks : List ℕ) (ns : List Note)
        (held : Option (List ObjectTurn)) → IsQuorumTable plan.claims.table → IsWorldLawful plan h
        → ConsumerPath plan.claims c p (lane_part c p h) ks ns held
        → IsDiaryOf plan c p (histories_of h) (diary_at c p ns held) }

    // The steps of the claim that the consumer holds are all that it has made on that cell.
    ensures held { (plan : Plan) (h : WorldHistory) (c p k : ℕ) (ks : List ℕ) (ns : List Note)
        (xs : List ObjectTurn) → IsQuorumTable plan.claims.table → IsWorldLawful plan h
        → ConsumerPath plan.claims c p (lane_part c p h) (k ∷ ks) ns (Some xs)
        → (claim_part c k (claim_accesses h) ≡ xs) × (k < plan.claims.cells) }
{
    worlds_are_sound();
    worlds_are_known();
}

/// A step's answer is that it found nothing exactly if there is nothing: its consumer holds no claim on the lane
/// and has met all cells that are linked there, and the lane has not ended.
pub fn nothing_is_exact()
    ensures { (plan : Plan) (h : WorldHistory) (c p word : ℕ) (r : Answer) (a : Option WorldAccess)
        → IsQuorumTable plan.claims.table → IsWorldLawful plan h
        → HasAnswer plan (event.Step c p word) r a h
        → (r ≡ answer.Looked look.Nothing) ↔ HasNothing plan c p h }
{
    words_lead_through_lanes();
    worlds_are_sound();
    worlds_are_known();
    paths_lead_to_one_place();
}

/// What the laws of claims, of cells and of worlds give for one more access after a lawful history of a world.
fn events_are_known()
    ensures { (plan : Plan) (h : WorldHistory) → IsQuorumTable plan.claims.table
        → IsWorldLawful plan h → EventKnown plan h }
{
    prefixes_have_one_stage();
    claims_have_one_next_op();
    cells_stand_once();
    lanes_lead_on();
    worlds_are_sound();
}

/// After a lawful history, events have at most one replay. Each event has at most one answer, with one access or with
/// none. No event has both a refusal and an access that keeps the history lawful.
pub fn replays_do_not_differ()
    ensures never_both { (plan : Plan) (e : Event) (r : Answer) (a : WorldAccess) (h : WorldHistory)
        → IsQuorumTable plan.claims.table → IsWorldLawful plan h → IsRefused plan e r h
        → IsAccessOf e a h → IsWorldLawful plan (a ∷ h) → ⊥ }
    ensures entry { (plan : Plan) (e : Event) (r s : Answer) (a b : Option WorldAccess)
        (h : WorldHistory) → IsQuorumTable plan.claims.table → IsWorldLawful plan h
        → HasAnswer plan e r a h → HasAnswer plan e s b h → (r ≡ s) × (a ≡ b) }
    ensures replay { (plan : Plan) (es : List Event) (rs ss : List Answer)
        (was now then : WorldHistory) → IsQuorumTable plan.claims.table → IsWorldLawful plan was
        → IsReplay plan es rs was now → IsReplay plan es ss was then → (rs ≡ ss) × (now ≡ then) }

    // A replay leads to a lawful history.
    ensures lawful { (plan : Plan) (es : List Event) (rs : List Answer) (was now : WorldHistory)
        → IsQuorumTable plan.claims.table → IsWorldLawful plan was → IsReplay plan es rs was now
        → IsWorldLawful plan now }
{
    events_are_known();
}

/// What a producer has done decides whether its event is refused, and with which answer.
pub fn events_are_refused_for_what_was_done()
    // An offer is refused as `Closed` after the end mark, as `Busy` while an item is pending, and as `Full` after a
    // fetch-add that found no cell, if the lane has not ended. In no other case is it refused.
    ensures closed { (plan : Plan) (h : WorldHistory) (p x : ℕ) → IsQuorumTable plan.claims.table
        → IsWorldLawful plan h → p < plan.lanes
        → IsRefused plan (event.Offer p x) (answer.Offered offer.Closed) h
        ↔ (has_ended p (pool_accesses h) ≡ true) }
    ensures busy { (plan : Plan) (h : WorldHistory) (p x : ℕ) → IsQuorumTable plan.claims.table
        → IsWorldLawful plan h → p < plan.lanes
        → IsRefused plan (event.Offer p x) (answer.Offered offer.Busy) h
        ↔ HasPending plan.claims.cells p (pool_accesses h) }
    ensures full { (plan : Plan) (h : WorldHistory) (p x : ℕ) → IsQuorumTable plan.claims.table
        → IsWorldLawful plan h → p < plan.lanes
        → IsRefused plan (event.Offer p x) (answer.Offered offer.Full) h
        ↔ ((has_ended p (pool_accesses h) ≡ false)
        × HasFoundNone plan.claims.cells p (pool_accesses h)) }
    ensures offered { (plan : Plan) (h : WorldHistory) (p x : ℕ) (r : Answer)
        → IsQuorumTable plan.claims.table → IsWorldLawful plan h → p < plan.lanes
        → has_ended p (pool_accesses h) ≡ false
        → (HasPending plan.claims.cells p (pool_accesses h) → ⊥)
        → (HasFoundNone plan.claims.cells p (pool_accesses h) → ⊥)
        → IsRefused plan (event.Offer p x) r h → ⊥ }

    // A push is refused exactly if no item is pending, and only as `Idle`.
    ensures idle { (plan : Plan) (h : WorldHistory) (p : ℕ) (r : Answer)
        → IsQuorumTable plan.claims.table → IsWorldLawful plan h → p < plan.lanes
        → IsRefused plan (event.Push p) r h
        ↔ ((r ≡ answer.Pushed push.Idle)
        × (HasPending plan.claims.cells p (pool_accesses h) → ⊥)) }

    // A finish is refused as `Closed` and as `Busy` just as an offer is, but never as `Full`.
    ensures over { (plan : Plan) (h : WorldHistory) (p : ℕ) → IsQuorumTable plan.claims.table
        → IsWorldLawful plan h → p < plan.lanes
        → IsRefused plan (event.Finish p) (answer.Finished finish.Closed) h
        ↔ (has_ended p (pool_accesses h) ≡ true) }
    ensures held { (plan : Plan) (h : WorldHistory) (p : ℕ) → IsQuorumTable plan.claims.table
        → IsWorldLawful plan h → p < plan.lanes
        → IsRefused plan (event.Finish p) (answer.Finished finish.Busy) h
        ↔ HasPending plan.claims.cells p (pool_accesses h) }
    ensures finished { (plan : Plan) (h : WorldHistory) (p : ℕ) (r : Answer)
        → IsQuorumTable plan.claims.table → IsWorldLawful plan h → p < plan.lanes
        → has_ended p (pool_accesses h) ≡ false
        → (HasPending plan.claims.cells p (pool_accesses h) → ⊥)
        → IsRefused plan (event.Finish p) r h → ⊥ }
{
    lanes_lead_on();
    lanes_refuse_by_what_was_done();
    worlds_are_sound();
}

/// A producer's event that is not refused has an access that keeps the history lawful. So it is refused exactly if it
/// has none. For steps, `World::apply` says so.
pub fn events_of_producers_are_refused_or_made()
    // An offer's item has to be below 2^64, and so has the number of cells and lanes together. So the counter is, too.
    ensures offer { (plan : Plan) (h : WorldHistory) (p x : ℕ) → IsQuorumTable plan.claims.table
        → IsWorldLawful plan h → p < plan.lanes → x < 2 ^ 64
        → plan.claims.cells + plan.lanes < 2 ^ 64 → IsRefusedOrMade plan (event.Offer p x) h }
    ensures push { (plan : Plan) (h : WorldHistory) (p : ℕ) → IsQuorumTable plan.claims.table
        → IsWorldLawful plan h → p < plan.lanes → IsRefusedOrMade plan (event.Push p) h }
    ensures finish { (plan : Plan) (h : WorldHistory) (p : ℕ) → IsQuorumTable plan.claims.table
        → IsWorldLawful plan h → p < plan.lanes → IsRefusedOrMade plan (event.Finish p) h }
{
    cells_stand_once();
    lanes_lead_on();
    accesses_stay_within();
    numbers_are_issued_once();
    worlds_are_sound();
    history_extends();
    events_are_known();
}
