//! What holds of every lawful history of claims, and of every claim, layout and run. The functions compute nothing:
//! their contracts are the laws, and their bodies name the laws that they use. If the prover needs help with a law, its
//! proof is in `proofs/laws`, in a folder of its name. Laws of one access more, for callers that keep words and
//! histories of their own, are in `steps`.
ghost use Rattle.std.specs.Prelude.{ℕ, ◌≡◌, ◌≢◌, ◌+◌, ◌*◌, ◌<◌, ◌≤◌, List, [], ◌∷◌, ◌++◌, Bool, true, false, length};
ghost use Rattle.std.specs.Prelude.{slice_get, Some, ◌^◌};
ghost use Rattle.mb_quorum.specs.Vocabulary.{QuorumTable, IsQuorumTable};
ghost use Rattle.mb_quorum.specs.declared.values.TheConstants.{MAX_VALUES};
ghost use Rattle.mb_deciding.specs.declared.access.Op.TheVariants as to;
ghost use Rattle.mb_deciding.specs.Vocabulary.{ChecksKeepOut, IsCoherent, IsPath, IsValid, answer, largest_quorum, object_of, spread};
ghost use Rattle.mb_claim.specs.{Reg, Value, Kind, Conciliator, Ratifier, LastObject, Out, Claims, claims_of, ClaimsAreSound};
ghost use Rattle.mb_claim.specs.{ClaimAccess, ObjectTurn, Shape, plain, row_of, shaped_steps, shape_of};
ghost use Rattle.mb_claim.specs.{Stage, Going, Undecided, kinds_of, MAX_CELLS, MAX_LARGE_CELLS, MAX_PAIRS};
ghost use Rattle.mb_claim.specs.{IsClaimLawful, HasStage, HasOneWinner, IsWholeClaim, Enters, IsUsedWith};
ghost use Rattle.mb_claim.specs.{IsClaimPrefix, stage_of, part_on, part_at, held_at, on_cell, object_history, most_on_objects};
ghost use Rattle.mb_claim.specs.{max_steps, pairs_of, Layout, quorums_of, pair_count, consumer_count, claims_in, Claim};
ghost use Rattle.mb_claim.specs.{ClaimOp, consumer_of, claim_stage, is_begun, IsClaimIn, IsNextOp, CanClaimFind};
ghost use Rattle.mb_claim.specs.{FitsLayout, most_accesses, steps_left, ClaimEntry, IsPlayed};

use mb_deciding::laws::{
    checks_keep_out, objects_keep_their_promises, ratifiers_decide_unless_contested,
};
use mb_deciding::steps::{places_have_turns_left, turns_name_the_next_op};

/// All claims on a cell that are won or lost name one winner, which competed, for all orders of accesses and all random
/// words. `HasOneWinner` also says that who lost names another consumer, and when a claim is undecided.
pub fn claims_have_one_winner()
    ensures { (cs : Claims) (h : List ClaimAccess) (k : ℕ) → ClaimsAreSound cs → IsClaimLawful cs h
        → HasOneWinner cs k h }
{
    objects_keep_their_promises();
    ratifiers_decide_unless_contested();
}

/// The accesses of a lawful history to one object of a cell are a lawful history of that object alone. Its inputs are
/// those with which the consumers come to it on their claim paths. So the laws of deciding objects hold of it.
pub fn objects_have_lawful_histories()
    ensures lawful { (cs : Claims) (h : List ClaimAccess) (k o : ℕ) (kind : Kind)
        → ClaimsAreSound cs → IsClaimLawful cs h → slice_get cs.kinds o ≡ Some kind
        → (inputs : ℕ → ℕ) × IsUsedWith cs k o kind inputs h }

    // A consumer with an access to an object comes to it with one input. To object 0 that is its own number.
    ensures one { (cs : Claims) (h : List ClaimAccess) (k o c u w : ℕ)
        → ClaimsAreSound cs → IsClaimLawful cs h → part_at c k o h ≢ []
        → Enters cs.table cs.kinds 0 c (part_on c k h) o u
        → Enters cs.table cs.kinds 0 c (part_on c k h) o w → u ≡ w }
    ensures own { (cs : Claims) (h : List ClaimAccess) (k c : ℕ) (kind : Kind) (inputs : ℕ → ℕ)
        → IsUsedWith cs k 0 kind inputs h → part_at c k 0 h ≢ [] → inputs c ≡ c }

    // Validity and coherence hold, and of a ratifier what follows if registers were found unset (`ChecksKeepOut`). They
    // hold at every step, as the history up to any step is lawful ([`older_histories_are_lawful`]).
    ensures outputs { (cs : Claims) (h : List ClaimAccess) (k o : ℕ) (kind : Kind) (inputs : ℕ → ℕ)
        → ClaimsAreSound cs → IsUsedWith cs k o kind inputs h
        → let object = object_of cs.table kind inputs in
        IsValid object (object_history k o h) × IsCoherent object (object_history k o h) }
    ensures checks { (cs : Claims) (h : List ClaimAccess) (k o : ℕ) (inputs : ℕ → ℕ)
        → ClaimsAreSound cs → IsUsedWith cs k o Ratifier inputs h
        → ChecksKeepOut (object_of cs.table Ratifier inputs) (object_history k o h) }
{
    checks_keep_out();
    objects_keep_their_promises();
}

/// A claim makes at most the accesses that its objects allow together.
pub fn claims_are_bounded()
    ensures objects { (cs : Claims) (h : List ClaimAccess) (c k : ℕ) → ClaimsAreSound cs
        → IsClaimLawful cs h
        → length (part_on c k h) ≤ most_on_objects cs.table cs.kinds }
    ensures pairs { (t : QuorumTable) (n cells : ℕ) (h : List ClaimAccess) (c k : ℕ)
        → IsQuorumTable t
        → IsClaimLawful (claims_of t (pairs_of (spread t.values) n) cells) h
        → length (part_on c k h) ≤ max_steps t n }
    ensures rows { (t : QuorumTable) (shape : Shape) (n cells : ℕ) (h : List ClaimAccess) (c k : ℕ)
        → IsQuorumTable t
        → IsClaimLawful (claims_of t (row_of shape (spread t.values) n) cells) h
        → length (part_on c k h) ≤ shaped_steps t shape n }
    ensures layouts { (layout : Layout) (cells : ℕ) (h : List ClaimAccess) (c k : ℕ)
        → IsClaimLawful (claims_in layout cells) h
        → length (part_on c k h) ≤ most_accesses layout }

    // A row of pairs alone allows `max_steps`. A fast path adds two ratifiers to that, and a last object one access.
    // So a last object alone allows one.
    ensures plain { (t : QuorumTable) (n : ℕ) → shaped_steps t plain n ≡ max_steps t n }
    ensures fast { (t : QuorumTable) (n : ℕ) (last : Bool)
        → shaped_steps t (record { fast = true; last = last }) n
        ≡ shaped_steps t (record { fast = false; last = last }) n
        + 2 * (largest_quorum t.write t.values + 2 + largest_quorum t.read t.values) }
    ensures last { (t : QuorumTable) (n : ℕ) (fast : Bool)
        → shaped_steps t (record { fast = fast; last = true }) n
        ≡ shaped_steps t (record { fast = fast; last = false }) n + 1 }
    ensures alone { (layout : Layout) → pair_count layout ≡ 0 → (shape_of layout).fast ≡ false
        → most_accesses layout ≡ 1 }
{
    objects_keep_their_promises();
}

/// The prefixes of claims are exactly the beginnings of whole claim paths.
pub fn prefixes_begin_whole_claims()
    ensures completed { (cs : Claims) (c : ℕ) (xs : List ObjectTurn) (s : Stage)
        → IsClaimPrefix cs c xs s
        → (later : List ObjectTurn) × (output : Out) × IsWholeClaim cs c (later ++ xs) output }
    ensures begun { (cs : Claims) (c : ℕ) (later xs : List ObjectTurn) (output : Out)
        → IsWholeClaim cs c (later ++ xs) output → (s : Stage) × IsClaimPrefix cs c xs s }

    // A whole path has the stage of its output, and a prefix with a stage other than `Going` is a whole path.
    ensures whole { (cs : Claims) (c : ℕ) (xs : List ObjectTurn) (output : Out)
        → IsWholeClaim cs c xs output → IsClaimPrefix cs c xs (stage_of c output) }
    ensures ended { (cs : Claims) (c : ℕ) (xs : List ObjectTurn) (s : Stage)
        → IsClaimPrefix cs c xs s → s ≢ Going
        → (output : Out) × IsWholeClaim cs c xs output × (s ≡ stage_of c output) }
{}

/// A prefix of a claim path has one stage.
pub fn prefixes_have_one_stage()
    ensures { (cs : Claims) (c : ℕ) (xs : List ObjectTurn) (s r : Stage) → ClaimsAreSound cs
        → IsClaimPrefix cs c xs s → IsClaimPrefix cs c xs r → s ≡ r }
{
    objects_keep_their_promises();
}

/// If a claim has made its consumer's part of a history on a cell, the consumer has the claim's stage there.
pub fn claims_have_their_stages()
    ensures { (layout : Layout) (cells k : ℕ) (claim : Claim) (h : List ClaimAccess)
        → IsClaimIn layout claim (part_on (consumer_of claim) k h)
        → HasStage (claims_in layout cells) (consumer_of claim) k (claim_stage claim) h }
{}

/// A claim that is going has an access to make, and one that has ended has none. The number of accesses left is at most
/// `most_accesses` at first ([`crate::Claim::new`]), and falls with each access ([`crate::Claim::after`]).
pub fn claims_have_steps_left()
    ensures going { (layout : Layout) (claim : Claim)
        → FitsLayout layout claim → claim_stage claim ≡ Going → 0 < steps_left layout claim }
    ensures ended { (layout : Layout) (claim : Claim) → claim_stage claim ≢ Going
        → steps_left layout claim ≡ 0 }

    // The bound of a new claim holds of every claim, whatever accesses it has made.
    ensures most { (layout : Layout) (claim : Claim) (xs : List ObjectTurn)
        → IsClaimIn layout claim xs → steps_left layout claim ≤ most_accesses layout }
{
    places_have_turns_left();
}

/// Steps have one play at most: the entries and the stages are determined by the claims and the steps.
pub fn steps_have_one_play()
    ensures { (cs : Claims) (steps : List (ℕ × ℕ)) (es fs : List ClaimEntry) (ss rs : List Stage)
        → ClaimsAreSound cs
        → IsPlayed cs steps es ss → IsPlayed cs steps fs rs → (es ≡ fs) × (ss ≡ rs) }
{
    objects_keep_their_promises();
    turns_name_the_next_op();
}

/// If a row begins with two ratifiers, and the first has decided for one consumer, nobody goes on after the second.
pub fn fast_paths_take_two_ratifiers()
    ensures decided { (t : QuorumTable) (kinds : List Kind) (cells k c u : ℕ) (h : List ClaimAccess)
        → IsQuorumTable t → IsClaimLawful (claims_of t (Ratifier ∷ Ratifier ∷ kinds) cells) h
        → IsPath t Ratifier c (part_at c k 0 h) (answer true u) → (d o : ℕ) → 2 ≤ o
        → part_at d k o h ≡ [] }

    // Nobody goes on after the second, either, if a consumer has ended its claim before the first access of any other.
    ensures alone { (t : QuorumTable) (kinds : List Kind) (cells k c : ℕ) (s : Stage)
        (later h : List ClaimAccess)
        → IsQuorumTable t → let cs = claims_of t (Ratifier ∷ Ratifier ∷ kinds) cells in
        IsClaimLawful cs (later ++ h) → ((d : ℕ) → d ≢ c → part_on d k h ≡ [])
        → IsClaimPrefix cs c (part_on c k h) s → s ≢ Going
        → (d o : ℕ) → 2 ≤ o → part_at d k o (later ++ h) ≡ [] }
{
    objects_keep_their_promises();
    ratifiers_decide_unless_contested();
}

/// A claim in a row that ends with a last object is never undecided.
pub fn last_objects_decide_claims()
    ensures rows { (t : QuorumTable) (front : List Kind) (cells c k : ℕ) (h : List ClaimAccess)
        → HasStage (claims_of t (front ++ LastObject ∷ []) cells) c k Undecided h → ⊥ }
    ensures layouts { (layout : Layout) (claim : Claim) (xs : List ObjectTurn)
        → (shape_of layout).last ≡ true → IsClaimIn layout claim xs
        → claim_stage claim ≢ Undecided }
    ensures stages { (layout : Layout) (cells c k : ℕ) (h : List ClaimAccess)
        → (shape_of layout).last ≡ true
        → HasStage (claims_in layout cells) c k Undecided h → ⊥ }
{}

/// In a layout with a fast path: if object 0 of a cell has decided for a consumer, nobody comes to a conciliator there.
/// Nobody does either if a consumer has ended its claim before the first access of any other (`alone`). In this clause
/// `s` is the stage of that claim, and `i` the conciliator's last attempt.
pub fn fast_layouts_avoid_conciliators()
    ensures decided { (layout : Layout) (cells k c u : ℕ) (h : List ClaimAccess)
        → (shape_of layout).fast ≡ true → IsClaimLawful (claims_in layout cells) h
        → IsPath (quorums_of layout) Ratifier c (part_at c k 0 h) (answer true u)
        → (d o s : ℕ) → slice_get (kinds_of layout) o ≡ Some (Conciliator s)
        → part_at d k o h ≡ [] }
    ensures alone { (layout : Layout) (cells k c : ℕ) (s : Stage) (later h : List ClaimAccess)
        → (shape_of layout).fast ≡ true → let cs = claims_in layout cells in
        IsClaimLawful cs (later ++ h) → ((d : ℕ) → d ≢ c → part_on d k h ≡ [])
        → IsClaimPrefix cs c (part_on c k h) s → s ≢ Going
        → (d o i : ℕ) → slice_get (kinds_of layout) o ≡ Some (Conciliator i)
        → part_at d k o (later ++ h) ≡ [] }

    // If a consumer comes to a conciliator there, both ratifiers of the fast path have left it undecided. Its input to
    // the first was its own number, and to the second the first one's value.
    ensures undecided { (layout : Layout) (cells k d o s : ℕ) (h : List ClaimAccess)
        → (shape_of layout).fast ≡ true → IsClaimLawful (claims_in layout cells) h
        → slice_get (kinds_of layout) o ≡ Some (Conciliator s) → part_at d k o h ≢ []
        → let t = quorums_of layout in
        (u w : ℕ) × IsPath t Ratifier d (part_at d k 0 h) (answer false u)
        × IsPath t Ratifier u (part_at d k 1 h) (answer false w) }
{
    fast_paths_take_two_ratifiers();
}

/// A lawful history without its last accesses is lawful.
pub fn older_histories_are_lawful()
    ensures { (cs : Claims) (later h : List ClaimAccess) → IsClaimLawful cs (later ++ h)
        → IsClaimLawful cs h }
{}

/// A lawful history, cut down to one cell, is lawful. It keeps all parts and words of that cell, and nothing else.
pub fn cells_stand_alone()
    ensures lawful { (cs : Claims) (k : ℕ) (h : List ClaimAccess)
        → IsClaimLawful cs h → IsClaimLawful cs (on_cell k h) }
    ensures same { (c k : ℕ) (h : List ClaimAccess) → part_on c k (on_cell k h) ≡ part_on c k h }
    ensures others { (c j k : ℕ) (h : List ClaimAccess) → j ≢ k → part_on c j (on_cell k h) ≡ [] }
    ensures words { (k o : ℕ) (reg : Reg) (h : List ClaimAccess)
        → held_at k o reg (on_cell k h) ≡ held_at k o reg h }
{}

/// A layout has a lawful quorum table with 1 to `MAX_VALUES` values. It has a pair or a last object, and at most
/// `MAX_PAIRS` pairs.
pub fn layouts_are_sound()
    ensures table { (layout : Layout) → IsQuorumTable (quorums_of layout) }
    ensures consumers { (layout : Layout) → (1 ≤ consumer_count layout)
        × (consumer_count layout ≤ MAX_VALUES) }
    ensures pairs { (layout : Layout) → pair_count layout ≤ MAX_PAIRS }

    // Without pairs it has a last object.
    ensures some { (layout : Layout) → pair_count layout ≡ 0 → (shape_of layout).last ≡ true }
{}

/// The limits `MAX_PAIRS`, `MAX_CELLS` and `MAX_LARGE_CELLS` are 8, 256 and 2^24.
pub fn limits_have_their_numbers()
    ensures pairs { MAX_PAIRS ≡ 8 }
    ensures cells { MAX_CELLS ≡ 256 }
    ensures large { MAX_LARGE_CELLS ≡ 2 ^ 24 }
{}

/// The claim of a consumer that has made no access goes on, is not begun, and stands on the first object. If there are
/// pairs and no fast path, that object is a conciliator, and its word is loaded first.
pub fn claims_begin_on_the_first_object()
    ensures fresh { (layout : Layout) (claim : Claim) → IsClaimIn layout claim []
        → (claim_stage claim ≡ Going) × (is_begun claim ≡ false) }
    ensures object { (layout : Layout) (claim : Claim) (next : ClaimOp)
        → IsClaimIn layout claim [] → IsNextOp layout claim next → next.object ≡ 0 }
    ensures next { (layout : Layout) (claim : Claim) (next : ClaimOp)
        → 1 ≤ pair_count layout → (shape_of layout).fast ≡ false → IsClaimIn layout claim []
        → IsNextOp layout claim next → next.op ≡ to.Load Value }

    // This first load of a conciliator's word finds at most the number of consumers.
    ensures found { (layout : Layout) (claim : Claim) (next : ClaimOp) (seen : ℕ)
        → 1 ≤ pair_count layout → (shape_of layout).fast ≡ false → IsClaimIn layout claim []
        → IsNextOp layout claim next → CanClaimFind layout claim next seen
        → seen ≤ consumer_count layout }
{
    objects_keep_their_promises();
}
