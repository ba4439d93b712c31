//! Laws of one access more, and of words, for callers that keep the words and the history of many claims: a world, or a
//! table of words that threads share. The functions compute nothing: their contracts are the laws. The proofs begin in
//! `proofs/steps`.
//!
//! A table of shared words begins with [`histories_begin_with_zeros`]. Each access of a claim rests on
//! [`claims_make_steps`]: the claim can be called, its word is one of the cell's, and it can go on with what it finds
//! there. After the access the words are those that the history leaves with it. [`accesses_lengthen_one_part`] says
//! what an access adds to each part. [`other_words_are_free`]: words after those of the claims may hold anything.
ghost use Rattle.std.specs.Prelude.{ℕ, ◌≡◌, ◌≢◌, ◌+◌, ◌*◌, ◌<◌, ◌≤◌, List, [], ◌∷◌, length, slice_index, slice_set};
ghost use Rattle.mb_deciding.specs.declared.access.Op.TheVariants as to;
ghost use Rattle.mb_deciding.specs.Vocabulary.{IsInWords, IsSameOp, IsOpAt, CanFind, reg_of, seen_by};
ghost use Rattle.mb_claim.specs.{Op, Reg, Value, Proposal, Quorum, Last, Shape, Kind, Pc, Claims, ClaimsAreSound, ClaimAccess, ObjectTurn};
ghost use Rattle.mb_claim.specs.{Stage, Going, IsClaimLawful, MayFollow, Adds, IsClaimPrefix, part, part_on};
ghost use Rattle.mb_claim.specs.{object_history, StandsAt, HasPlace, access_after, words_in, address_in, IsWordIn};
ghost use Rattle.mb_claim.specs.{address_of, row_words, IsWordOf, pairs_of, fast_row, row_of, shaped_words};
ghost use Rattle.mb_claim.specs.{IsMemoryOf, found_in, access_in};
ghost use Rattle.mb_claim.specs.{words_after, Layout, Claim, ClaimOp, claims_in, consumer_of, claim_stage, FitsLayout};
ghost use Rattle.mb_claim.specs.{IsWordInLayout, IsClaimIn, IsNextOp, CanClaimFind, claim_access, step_of};

use mb_deciding::laws::objects_keep_their_promises;
use mb_deciding::steps::{
    history_extends as object_step, places_are_unfinished, places_lead_on, turns_name_the_next_op,
};

/// A lawful history with an access that may come next is lawful. The access adds one step to one part, and
/// changes at most one word.
pub fn history_extends()
    ensures { (cs : Claims) (a : ClaimAccess) (h : List ClaimAccess)
        → IsClaimLawful cs h → MayFollow cs a h → Adds cs a h }
{}

/// What an access adds to the parts of a history, also if the access may not come next in that history.
pub fn accesses_lengthen_one_part()
    ensures own { (a : ClaimAccess) (h : List ClaimAccess)
        → part a.consumer (a ∷ h) ≡ a ∷ part a.consumer h }
    ensures others { (c : ℕ) (a : ClaimAccess) (h : List ClaimAccess) → a.consumer ≢ c
        → part c (a ∷ h) ≡ part c h }

    // The access lengthens its consumer's part on its cell, and no other part on a cell.
    ensures own_cell { (a : ClaimAccess) (h : List ClaimAccess)
        → part_on a.consumer a.cell (a ∷ h) ≡ a.step ∷ part_on a.consumer a.cell h }
    ensures other_cells { (c k : ℕ) (a : ClaimAccess) (h : List ClaimAccess) → (a.consumer ≡ c
        → a.cell ≡ k → ⊥)
        → part_on c k (a ∷ h) ≡ part_on c k h }

    // A consumer's part on a cell depends on that consumer's accesses alone.
    ensures cells { (c k : ℕ) (h : List ClaimAccess) → part_on c k (part c h) ≡ part_on c k h }
{}

/// What a claim has done determines its next op, whatever memory holds. So after a history a consumer has one next
/// access on a cell at most, but for the random word.
pub fn claims_have_one_next_op()
    ensures op { (cs : Claims) (c : ℕ) (x y : ObjectTurn) (xs : List ObjectTurn) (s r : Stage)
        → ClaimsAreSound cs
        → IsClaimPrefix cs c (x ∷ xs) s → IsClaimPrefix cs c (y ∷ xs) r
        → (x.object ≡ y.object) × IsSameOp x.turn.act y.turn.act }

    // Before its newest step a claim was going: nothing follows an ended claim.
    ensures going { (cs : Claims) (c : ℕ) (x : ObjectTurn) (xs : List ObjectTurn) (s : Stage)
        → IsClaimPrefix cs c (x ∷ xs) s → IsClaimPrefix cs c xs Going }

    // Two accesses of one consumer on one cell, with one random word, are equal if each may come next.
    ensures access { (cs : Claims) (a b : ClaimAccess) (h : List ClaimAccess) → ClaimsAreSound cs
        → IsClaimLawful cs (a ∷ h) → IsClaimLawful cs (b ∷ h) → a.consumer ≡ b.consumer
        → a.cell ≡ b.cell
        → a.step.turn.word ≡ b.step.turn.word → a ≡ b }
{
    objects_keep_their_promises();
    turns_name_the_next_op();
}

/// Suppose that after the lawful history h the claim of consumer c on cell k is at the place pc, and that op comes next
/// there. Then the access with this op, which finds what h leaves in its word, may follow h.
pub fn places_make_steps()
    ensures follows { (cs : Claims) (c k object : ℕ) (pc : Pc) (op : Op) (word : ℕ)
        (h : List ClaimAccess)
        → ClaimsAreSound cs → IsClaimLawful cs h → k < cs.cells → HasPlace cs c k object pc h
        → IsOpAt cs.table pc op
        → IsInWords (access_after c k object op word h).step.turn
        → MayFollow cs (access_after c k object op word h) h }

    // This access finds a value that the place allows (`CanFind`).
    ensures found { (cs : Claims) (c k object : ℕ) (pc : Pc) (op : Op) (h : List ClaimAccess)
        → ClaimsAreSound cs → IsClaimLawful cs h → HasPlace cs c k object pc h
        → IsOpAt cs.table pc op
        → CanFind cs.table pc op (seen_by op (object_history k object h)) }
{
    objects_keep_their_promises();
    places_lead_on();
    object_step();
}

/// The turns of a claim at a place are a prefix of its path, and the claim is going. The word of its next access is one
/// of the cell's.
pub fn places_show_prefixes()
    ensures prefix { (cs : Claims) (c object : ℕ) (pc : Pc) (xs : List ObjectTurn)
        → ClaimsAreSound cs → StandsAt cs.table cs.kinds c object pc xs
        → IsClaimPrefix cs c xs Going }
    ensures word { (cs : Claims) (c object : ℕ) (pc : Pc) (op : Op) (xs : List ObjectTurn)
        → ClaimsAreSound cs → StandsAt cs.table cs.kinds c object pc xs → IsOpAt cs.table pc op
        → IsWordIn cs object (reg_of op) }
{
    places_are_unfinished();
}

/// The empty history is lawful, and leaves words that are all 0.
pub fn histories_begin_with_zeros()
    ensures lawful { (cs : Claims) → IsClaimLawful cs [] }
    ensures memory { (cs : Claims) (words : List ℕ)
        → words_in cs ≤ length words → ((i : ℕ) → slice_index words i ≡ 0)
        → IsMemoryOf cs words [] }
{}

/// A word after those of the cells may hold anything.
pub fn other_words_are_free()
    ensures { (cs : Claims) (at n : ℕ) (words : List ℕ) (h : List ClaimAccess)
        → words_in cs ≤ at → IsMemoryOf cs words h → IsMemoryOf cs (slice_set words at n) h }
{}

/// A claim at its place makes one access on words that a history leaves. The words are then those that the history
/// leaves with that access.
pub fn words_follow_steps()
    ensures memory { (cs : Claims) (c k object : ℕ) (pc : Pc) (op : Op) (word : ℕ) (words : List ℕ)
        (h : List ClaimAccess) → ClaimsAreSound cs → IsMemoryOf cs words h
        → k < cs.cells → HasPlace cs c k object pc h → IsOpAt cs.table pc op
        → let a = access_in cs c k object op word words in
        IsInWords a.step.turn → IsMemoryOf cs (words_after cs k object op words) (a ∷ h) }

    // This access finds a value that the place allows (`CanFind`).
    ensures found { (cs : Claims) (c k object : ℕ) (pc : Pc) (op : Op) (words : List ℕ)
        (h : List ClaimAccess)
        → ClaimsAreSound cs → IsMemoryOf cs words h
        → k < cs.cells → HasPlace cs c k object pc h → IsOpAt cs.table pc op
        → CanFind cs.table pc op (found_in cs k object op words) }
{
    objects_keep_their_promises();
    places_lead_on();
    object_step();
    places_are_unfinished();
}

/// What a claim promises to callers that keep the words themselves, as a world or a table of shared words does.
pub fn claims_make_steps()
    // If a claim that is going belongs to a consumer that has made these turns, its calls may be made.
    ensures fits { (layout : Layout) (claim : Claim) (xs : List ObjectTurn)
        → IsClaimIn layout claim xs → FitsLayout layout claim }

    // The word of the claim's next access is one of the cell's.
    ensures word { (layout : Layout) (claim : Claim) (next : ClaimOp) (xs : List ObjectTurn)
        → IsClaimIn layout claim xs → claim_stage claim ≡ Going → IsNextOp layout claim next
        → IsWordInLayout layout next.object (reg_of next.op) }

    // The claim can go on with the value that its next access finds in that word.
    ensures found { (layout : Layout) (cells k : ℕ) (claim : Claim) (next : ClaimOp)
        (words : List ℕ)
        (h : List ClaimAccess) → let cs = claims_in layout cells in IsMemoryOf cs words h
        → k < cells
        → IsClaimIn layout claim (part_on (consumer_of claim) k h)
        → claim_stage claim ≡ Going → IsNextOp layout claim next
        → CanClaimFind layout claim next (found_in cs k next.object next.op words) }

    // A store finds no value, so `CanClaimFind` holds of it with any `seen`.
    ensures stored { (layout : Layout) (claim : Claim) (next : ClaimOp) (reg : Reg) (value seen : ℕ)
        → next.op ≡ to.Store reg value → CanClaimFind layout claim next seen }

    // If a lawful history ends with the claim's next access, the claim can go on with the value that the access found.
    ensures told { (layout : Layout) (cells k : ℕ) (claim : Claim) (next : ClaimOp) (seen word : ℕ)
        (h : List ClaimAccess)
        → IsClaimLawful (claims_in layout cells)
        (claim_access claim k (step_of next.object next.op seen word) ∷ h) → k < cells
        → IsClaimIn layout claim (part_on (consumer_of claim) k h)
        → claim_stage claim ≡ Going → IsNextOp layout claim next
        → CanClaimFind layout claim next seen }

    // After the claim's access the words are those that the history with that access leaves.
    ensures memory { (layout : Layout) (cells k : ℕ) (claim : Claim) (next : ClaimOp) (word : ℕ)
        (words : List ℕ)
        (h : List ClaimAccess) → let cs = claims_in layout cells in IsMemoryOf cs words h
        → k < cells
        → IsClaimIn layout claim (part_on (consumer_of claim) k h)
        → claim_stage claim ≡ Going → IsNextOp layout claim next
        → let a = access_in cs (consumer_of claim) k next.object next.op word words in
        IsInWords a.step.turn → IsMemoryOf cs (words_after cs k next.object next.op words) (a ∷ h) }
{
    places_show_prefixes();
    places_make_steps();
    words_follow_steps();
}

/// Different words have different addresses, which are below the number of words. In a row of pairs the words lie cell
/// by cell, pair by pair: the conciliator's word, the proposal, the quorum registers. In a row of any shape the words
/// of the fast path come first, and the last object's word comes after those of the pairs.
pub fn addresses_are_apart()
    ensures apart { (r : ℕ) (kinds : List Kind) (j k o p : ℕ) (reg other : Reg)
        → IsWordOf r kinds o reg → IsWordOf r kinds p other
        → address_of r kinds j o reg ≡ address_of r kinds k p other → (j ≡ k) × (o ≡ p)
        × (reg ≡ other) }
    ensures within { (r : ℕ) (kinds : List Kind) (cells k o : ℕ) (reg : Reg)
        → IsWordOf r kinds o reg → k < cells
        → address_of r kinds k o reg < cells * row_words r kinds }
    ensures conciliator { (r s n k i : ℕ) → i < n
        → address_of r (pairs_of s n) k (2 * i) Value ≡ k * (n * (2 + r)) + i * (2 + r) }
    ensures proposal { (r s n k i : ℕ) → i < n
        → address_of r (pairs_of s n) k (2 * i + 1) Proposal ≡ k * (n * (2 + r)) + i * (2 + r) + 1 }
    ensures register { (r s n k i q : ℕ) → i < n
        → address_of r (pairs_of s n) k (2 * i + 1) (Quorum q) ≡ k * (n * (2 + r)) + i * (2 + r) +
        (2 + q) }
    ensures words { (r s n : ℕ) → row_words r (pairs_of s n) ≡ n * (2 + r) }

    // With a fast path the objects 0 and 1 are its ratifiers.
    ensures fast_proposal { (r s n k i : ℕ) (shape : Shape) → i < length (fast_row shape.fast)
        → address_of r (row_of shape s n) k i Proposal ≡ k * shaped_words r shape n + i * (1 + r) }
    ensures fast_register { (r s n k i q : ℕ) (shape : Shape) → i < length (fast_row shape.fast)
        → address_of r (row_of shape s n) k i (Quorum q)
        ≡ k * shaped_words r shape n + i * (1 + r) + (1 + q) }

    // Let f objects come before the pairs. Of pair i the conciliator is object f + 2i, and the ratifier f + 2i + 1.
    ensures shaped_conciliator { (r s n k i : ℕ) (shape : Shape) → i < n
        → let f = length (fast_row shape.fast) in
        address_of r (row_of shape s n) k (f + 2 * i) Value
        ≡ k * shaped_words r shape n + f * (1 + r) + i * (2 + r) }
    ensures shaped_proposal { (r s n k i : ℕ) (shape : Shape) → i < n
        → let f = length (fast_row shape.fast) in
        address_of r (row_of shape s n) k (f + 2 * i + 1) Proposal
        ≡ k * shaped_words r shape n + f * (1 + r) + i * (2 + r) + 1 }
    ensures shaped_register { (r s n k i q : ℕ) (shape : Shape) → i < n
        → let f = length (fast_row shape.fast) in
        address_of r (row_of shape s n) k (f + 2 * i + 1) (Quorum q)
        ≡ k * shaped_words r shape n + f * (1 + r) + i * (2 + r) + (2 + q) }

    // After the pairs comes the last object.
    ensures last { (r s n k : ℕ) (shape : Shape) → let f = length (fast_row shape.fast) in
        address_of r (row_of shape s n) k (f + 2 * n) Last
        ≡ k * shaped_words r shape n + f * (1 + r) + n * (2 + r) }
    ensures shaped { (r s n : ℕ) (shape : Shape)
        → row_words r (row_of shape s n) ≡ shaped_words r shape n }
{}
