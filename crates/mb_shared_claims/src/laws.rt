//! What the rule of a table says, the law that each kind of step keeps it, and that no cell has two winners. The
//! functions compute nothing: their contracts are the laws.
//!
//! Between any two steps of any seats, the words and the views of a table are a state of the claims. The rule of each
//! table says so: [`ClaimsRule`](crate::rule::ClaimsRule). The prover sees to it at each step.
ghost use Rattle.std.specs.Prelude.{ℕ, suc, ◌≡◌, ◌≢◌, ◌+◌, ◌<◌, ◌≤◌, Some, None, List, [], ◌∷◌, ◌++◌, length};
ghost use Rattle.std.specs.Prelude.{replicate, slice_get, slice_index, slice_set};
ghost use Rattle.mb_deciding.specs.declared.object.Kind.TheVariants.{Ratifier};
ghost use Rattle.mb_deciding.specs.Vocabulary.{ChecksKeepOut, IsInWords, object_of, reg_of};
ghost use Rattle.mb_claim.specs.declared.access.Stage.TheVariants.{Won};
ghost use Rattle.mb_claim.specs.Vocabulary.{part, consumer_count, IsWordInLayout, IsMemoryOf, access_in, words_after};
ghost use Rattle.mb_claim.specs.Vocabulary.{IsClaimPrefix, IsUsedWith, StageNames, kinds_of, object_history, part_on, quorums_of};
ghost use Rattle.mb_shared_claims.specs.{ClaimAccess, ClaimOp, Stage, TableSize, View, Issuing, Drawing, Standing, Taking, Spent};
ghost use Rattle.mb_shared_claims.specs.{claims_of_size, Roll, IsViewAt, HasPartAt, roster, IsClaimsState, MayComeNext};

use mb_claim::laws::{claims_have_one_winner, layouts_are_sound, objects_have_lawful_histories};
use mb_claim::steps::{
    accesses_lengthen_one_part, addresses_are_apart, histories_begin_with_zeros,
    other_words_are_free,
};

/// What holds of each state of the claims: its words and parts are those of one lawful history.
pub fn states_have_one_history()
    // Some lawful history leaves the words. Its parts are exactly those that the seats have.
    ensures history { (k : TableSize) (words : List ℕ) (views : List View)
        → IsClaimsState k words views
        → (h : List ClaimAccess) × IsMemoryOf (claims_of_size k) words h
        × ((seat c : ℕ) (xs : List ClaimAccess) → HasPartAt views seat c xs → xs ≡ part c h)
        × ((c : ℕ) → part c h ≢ [] → (seat : ℕ) × HasPartAt views seat c (part c h)) }

    // No number has two seats, or two parts.
    ensures once { (k : TableSize) (words : List ℕ) (views : List View) (i j c : ℕ)
        (xs ys : List ClaimAccess)
        → IsClaimsState k words views → HasPartAt views i c xs → HasPartAt views j c ys
        → (i ≡ j) × (xs ≡ ys) }

    // The roster counts at most as many numbers as there are consumers. Each number at a seat is one of those counted.
    ensures roster { (k : TableSize) (words : List ℕ) (views : List View)
        → IsClaimsState k words views
        → slice_index words (roster k) ≤ consumer_count k.layout }
    ensures numbers { (k : TableSize) (words : List ℕ) (views : List View) (i c : ℕ)
        (xs : List ClaimAccess)
        → IsClaimsState k words views → HasPartAt views i c xs → c < slice_index words (roster k) }
{}

/// Each kind of step leads from a state to a state. It changes only the view of the seat that makes it, with two
/// exceptions: issuing a number adds the view of its seat, and a seat returned has no part any more.
pub fn steps_keep_states()
    // The words of a new table, all 0, and the view of its hub, with no number issued, are a state.
    ensures new { (k : TableSize)
        → IsClaimsState k (replicate (roster k + 1) 0) (Issuing k [] ∷ []) }

    // An access that may come next leads to a state, be it a load, a store or an exchange. It changes one view alone.
    ensures access { (k size : TableSize) (words : List ℕ) (views : List View)
        (id own cell word : ℕ) (done : List ClaimAccess)
        (next : ClaimOp) → let cs = claims_of_size k in
        let a = access_in cs own cell next.object next.op word words in
        IsClaimsState k words views → IsViewAt views id (Standing size own done)
        → cell < k.cells → IsWordInLayout k.layout next.object (reg_of next.op)
        → MayComeNext cs own cell done next → IsInWords a.step.turn
        → IsClaimsState k (words_after cs cell next.object next.op words)
        (slice_set views id (Standing size own (a ∷ done))) }

    // The hub draws a number by a fetch-add on the roster. Then it issues the number, by a split of its view.
    ensures draw { (k size : TableSize) (words : List ℕ) (views : List View) (id : ℕ) (roll : Roll)
        → IsClaimsState k words views → IsViewAt views id (Issuing size roll)
        → length roll < consumer_count k.layout
        → IsClaimsState k (slice_set words (roster k) (suc (slice_index words (roster k))))
        (slice_set views id (Drawing size roll)) }
    ensures give { (k size : TableSize) (words : List ℕ) (views : List View) (id : ℕ) (roll : Roll)
        → IsClaimsState k words views → IsViewAt views id (Drawing size roll)
        → IsClaimsState k words (slice_set views id (Issuing size (roll ++ None ∷ []))
        ++ Standing size (length roll) [] ∷ []) }

    // The hub takes a seat back by a join of its view. The load after it puts the seat's part into the roll.
    ensures take { (k size its : TableSize) (words : List ℕ) (views : List View) (id other own : ℕ)
        (roll : Roll) (done : List ClaimAccess)
        → IsClaimsState k words views → other ≢ id → IsViewAt views id (Issuing size roll)
        → IsViewAt views other (Standing its own done)
        → IsClaimsState k words
        (slice_set (slice_set views id (Taking size roll own done)) other Spent) }
    ensures settle { (k size : TableSize) (words : List ℕ) (views : List View) (id own : ℕ)
        (roll : Roll) (done : List ClaimAccess)
        → IsClaimsState k words views → IsViewAt views id (Taking size roll own done)
        → IsClaimsState k words
        (slice_set views id (Issuing size (slice_set roll own (Some done)))) }
{
    accesses_lengthen_one_part();
    addresses_are_apart();
    histories_begin_with_zeros();
    other_words_are_free();
}

/// In every state of a table all seats that have won or lost a cell name one winner. So no cell has two winners at any
/// time, whatever the threads do.
pub fn seats_have_one_winner()
    // If two seats have both won a cell, they are seats of one consumer.
    ensures won { (k : TableSize) (words : List ℕ) (views : List View) (i j c d cell : ℕ)
        (xs ys : List ClaimAccess)
        → IsClaimsState k words views → HasPartAt views i c xs → HasPartAt views j d ys
        → IsClaimPrefix (claims_of_size k) c (part_on c cell xs) Won
        → IsClaimPrefix (claims_of_size k) d (part_on d cell ys) Won → c ≡ d }

    // Two seats that have each won or lost a cell name one winner. If one has won, a seat that has lost names that one.
    ensures named { (k : TableSize) (words : List ℕ) (views : List View) (i j c d cell u w : ℕ)
        (xs ys : List ClaimAccess) (s r : Stage)
        → IsClaimsState k words views → HasPartAt views i c xs → HasPartAt views j d ys
        → IsClaimPrefix (claims_of_size k) c (part_on c cell xs) s
        → IsClaimPrefix (claims_of_size k) d (part_on d cell ys) r
        → StageNames c s u → StageNames d r w → u ≡ w }

    // This rests on what a clear read rules out (`ChecksKeepOut`), in each ratifier of each cell. It holds of a lawful
    // history that leaves the words, and whose parts are exactly those that the seats have.
    ensures checks { (k : TableSize) (words : List ℕ) (views : List View)
        → IsClaimsState k words views
        → (h : List ClaimAccess) × IsMemoryOf (claims_of_size k) words h
        × ((seat c : ℕ) (xs : List ClaimAccess) → HasPartAt views seat c xs → xs ≡ part c h)
        × ((c : ℕ) → part c h ≢ [] → (seat : ℕ) × HasPartAt views seat c (part c h))
        × ((cell o : ℕ) → slice_get (kinds_of k.layout) o ≡ Some Ratifier → (inputs : ℕ → ℕ)
        × IsUsedWith (claims_of_size k) cell o Ratifier inputs h
        × ChecksKeepOut (object_of (quorums_of k.layout) Ratifier inputs)
        (object_history cell o h)) }
{
    accesses_lengthen_one_part();
    claims_have_one_winner();
    layouts_are_sound();
    objects_have_lawful_histories();
    states_have_one_history();
}
