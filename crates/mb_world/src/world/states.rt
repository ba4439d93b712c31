//! The state of a world after one event. The functions compute nothing: their contracts are laws, which the calls of a
//! world or other laws here use. The body of each names the laws that it uses itself.
ghost use Rattle.std.specs.Prelude.{ℕ, ◌≡◌, ◌≢◌, ◌<◌, List, [], ◌∷◌};
ghost use Rattle.mb_claim.specs.declared.access.Stage.TheVariants as stage;
ghost use Rattle.mb_claim.specs.declared.claim.Claim.{Claim};
ghost use Rattle.mb_claim.specs.Vocabulary.{IsClaimIn, IsClaimOn, claim_access, claim_stage, consumer_of};
ghost use Rattle.mb_cells.specs.declared.answer.{Finish.Finish, Look.Look, Offer.Offer, Push.Push};
ghost use Rattle.mb_cells.specs.declared.answer.Look.TheVariants as look;
ghost use Rattle.mb_cells.specs.declared.cursor.Cursor.{Cursor, TheVariants.Past};
ghost use Rattle.mb_cells.specs.Vocabulary.{FinishKeeps, FinishMeets, OfferKeeps, OfferMeets, PushMeets, value_in, look_after, IsWithin, PoolState, SameSize};
ghost use Rattle.mb_world.specs.Vocabulary.{Answer, Item, ObjectTurn, consumers_of, layout_of, plan_in, StepKnown, WorldHistory, claim_accesses, pool_accesses, note_of, IsWorldAfter};
ghost use Rattle.mb_world.specs.Vocabulary.{Took, At, Before, WorldState, IsRefused, place_after, EventAdds, HasPlace, with_note, with_note_if, with_place, with_pool, with_words};
ghost use Rattle.mb_world.specs.declared.event.Answer.TheVariants as answer;
ghost use Rattle.mb_world.specs.declared.event.Event.TheVariants as event;

use crate::known::worlds_are_known;
use crate::laws::worlds_are_sound;
use crate::steps::history_extends;
use mb_cells::steps::loads_leave_pools;
use mb_claim::laws::layouts_are_sound;

/// What the laws of claims, of cells and of worlds give for a step of a consumer on a lane.
fn steps_are_known()
    ensures { (s : WorldState) (h : WorldHistory) (c p : ℕ) → IsWorldAfter h s
        → c < consumers_of (plan_in s.setup) → p < (plan_in s.setup).lanes → StepKnown s h c p }
{
    layouts_are_sound();
    loads_leave_pools();
    worlds_are_sound();
    worlds_are_known();
    history_extends();
}

/// How a look of a consumer that holds no claim changes the state. It *looks* as it loads the link at its cursor.
pub(super) fn looks_leave_states()
    // The cursor of the consumer is at a head or a link of the pool.
    ensures within { (s : WorldState) (h : WorldHistory) (c p : ℕ) (at : Cursor)
        → IsWorldAfter h s → HasPlace c p (Before at) s → IsWithin at s.pool }

    // If the link leads to a cell, the consumer then holds a new claim there.
    ensures found { (s : WorldState) (h : WorldHistory) (c p word k : ℕ) (at : Cursor)
        (claim : Claim) → IsWorldAfter h s → HasPlace c p (Before at) s
        → look_after at (pool_accesses h) ≡ look.Cell k → consumer_of claim ≡ c
        → claim_stage claim ≡ stage.Going → IsClaimIn (layout_of s.setup) claim []
        → EventAdds (event.Step c p word) (answer.Looked (look.Cell k))
        (with_place c p (At k claim) s) h }

    // If the link leads to no cell, the state stays.
    ensures waited { (s : WorldState) (h : WorldHistory) (c p word : ℕ) (at : Cursor)
        (z : Look) → IsWorldAfter h s → HasPlace c p (Before at) s
        → look_after at (pool_accesses h) ≡ z → ((k : ℕ) → z ≢ look.Cell k)
        → EventAdds (event.Step c p word) (answer.Looked z) s h }
{
    steps_are_known();
}

/// How the item's load by a consumer whose claim is won changes the state: the consumer has its note, and is past the
/// cell.
pub(super) fn takes_leave_states()
    ensures { (s : WorldState) (h : WorldHistory) (c p word k : ℕ) (claim : Claim)
        → IsWorldAfter h s → HasPlace c p (At k claim) s → claim_stage claim ≡ stage.Won
        → let v = value_in (Item k) (pool_accesses h) in
        EventAdds (event.Step c p word) (answer.Took k v)
        (with_note c k (Took v) (with_place c p (Before (Past k)) s)) h }
{
    steps_are_known();
}

/// How a step of a consumer's claim changes the state.
pub(super) fn claims_leave_states()
    // A claim that is held and not won goes on.
    ensures going { (s : WorldState) (h : WorldHistory) (c p k : ℕ) (claim : Claim)
        → IsWorldAfter h s → HasPlace c p (At k claim) s → claim_stage claim ≢ stage.Won
        → claim_stage claim ≡ stage.Going }

    // The history leaves the words, and in it the consumer has made the steps of this claim on cell k.
    ensures on { (s : WorldState) (h : WorldHistory) (c p k : ℕ) (claim : Claim)
        → IsWorldAfter h s → HasPlace c p (At k claim) s
        → IsClaimOn (layout_of s.setup) (plan_in s.setup).claims.cells k claim s.words
        (claim_accesses h) }

    // If the step leads to `words` and to the claim `now`, the event leaves the state with them, with the place that
    // the stage of `now` gives, and with the note of that stage if it has one.
    ensures competed { (s : WorldState) (h : WorldHistory) (c p word k : ℕ) (claim now : Claim)
        (words : List ℕ) (x : ObjectTurn)
        → IsWorldAfter h s → HasPlace c p (At k claim) s → claim_stage claim ≡ stage.Going
        → consumer_of now ≡ consumer_of claim → x.turn.word ≡ word
        → IsClaimOn (layout_of s.setup) (plan_in s.setup).claims.cells k now words
        (claim_access claim k x ∷ claim_accesses h)
        → EventAdds (event.Step c p word)
        (answer.Claimed k x.object x.turn.act (claim_stage now))
        (with_note_if c k (note_of (claim_stage now))
        (with_place c p (place_after k now (claim_stage now)) (with_words words s))) h }
{
    steps_are_known();
}

/// How a call of the pool for a producer changes the state.
pub(super) fn calls_leave_states()
    ensures offered { (s : WorldState) (h : WorldHistory) (p x : ℕ) (z : Offer) (pool : PoolState)
        → IsWorldAfter h s → p < (plan_in s.setup).lanes → OfferMeets s.pool p x z pool
        → SameSize s.pool pool
        → EventAdds (event.Offer p x) (answer.Offered z) (with_pool pool s) h }
    ensures pushed { (s : WorldState) (h : WorldHistory) (p : ℕ) (z : Push) (pool : PoolState)
        → IsWorldAfter h s → p < (plan_in s.setup).lanes → PushMeets s.pool p z pool
        → SameSize s.pool pool
        → EventAdds (event.Push p) (answer.Pushed z) (with_pool pool s) h }
    ensures finished { (s : WorldState) (h : WorldHistory) (p : ℕ) (z : Finish) (pool : PoolState)
        → IsWorldAfter h s → p < (plan_in s.setup).lanes → FinishMeets s.pool p z pool
        → SameSize s.pool pool
        → EventAdds (event.Finish p) (answer.Finished z) (with_pool pool s) h }

    // If the producer's place refuses an offer or a finish, the pool stays.
    ensures offer_refused { (s : WorldState) (h : WorldHistory) (p x : ℕ) (r : Answer)
        (pool : PoolState) → IsWorldAfter h s → p < (plan_in s.setup).lanes
        → IsRefused (plan_in s.setup) (event.Offer p x) r h → OfferKeeps s.pool p pool
        → pool ≡ s.pool }
    ensures finish_refused { (s : WorldState) (h : WorldHistory) (p : ℕ) (r : Answer)
        (pool : PoolState) → IsWorldAfter h s → p < (plan_in s.setup).lanes
        → IsRefused (plan_in s.setup) (event.Finish p) r h → FinishKeeps s.pool p pool
        → pool ≡ s.pool }
{
    history_extends();
}
