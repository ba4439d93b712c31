//! The laws of a segment, over all histories. The functions compute nothing: their contracts are the laws.
ghost use Rattle.std.specs.Prelude.{List, Some, [], slice_index, true, ℕ, ◌%◌, ◌+◌, ◌<◌, ◌∷◌, ◌≡◌, ◌≤◌, ◌⊎◌};
ghost use mathlib.Core.Option.{some};
ghost use lib.ListN.{get_elem?};
ghost use Rattle.mb_segment.specs.{Event, FindsEmpty, FoundEmpty, GoesOn, draws, found_empty, positions_in, times_empty, waiting_after};
ghost use Rattle.mb_segment.specs.{Claim, Entry, Has, Heeds, IsCut, IsOfPass, IsOver, IsPassOf, IsViewOf, Issuer, Keeps, Match, Member};
ghost use Rattle.mb_segment.specs.{Rises, SawAllTaken, SegmentState, View, all_entries, claimed_in, closing, drawn_in};
ghost use Rattle.mb_segment.specs.{got_by, is_over, listed, new_hub, owed, sent_by, sleeping, tokens_given, tokens_taken, total};

/// All positions drawn stand in one order, and the first of them are those claimed. What a pass sent and what it
/// received stand there in its own order. What is drawn or claimed next stands after all that was before.
pub fn one_order<T>()
    ensures sent { (s : SegmentState T) (k : Keeps s) (n : ℕ) (v : View T) → IsPassOf s n v
        → (v.account.sent ≡ sent_by n k.history) × Rises 0 v.account.sent }
    ensures got { (s : SegmentState T) (k : Keeps s) (n : ℕ) (v : View T) → IsPassOf s n v
        → (v.account.got ≡ got_by n k.history) × Rises 0 v.account.got }
    ensures later_drawn { (s : SegmentState T) (k : Keeps s) (n : ℕ) (v : View T) (p : ℕ) (x : T)
        → IsPassOf s n v → Has p x v.account.sent → p < drawn_in s }
    ensures later_claimed { (s : SegmentState T) (k : Keeps s) (n : ℕ) (v : View T) (p : ℕ) (x : T)
        → IsPassOf s n v → Has p x v.account.got → p < claimed_in s }
{}

/// A position has one drawer and one taker, and its taker got what its drawer gave. Each position below the number drawn
/// was drawn by a pass. Each below the number claimed was taken by one, so nobody overtakes. What passes that came back
/// had done is in the same history.
pub fn one_taker<T>()
    ensures taker { (s : SegmentState T) (k : Keeps s) (i j : ℕ) (u v : View T) (p : ℕ) (x y : T)
        → IsPassOf s i u → IsPassOf s j v
        → Has p x u.account.got → Has p y v.account.got → (i ≡ j) × (x ≡ y) }
    ensures drawer { (s : SegmentState T) (k : Keeps s) (i j : ℕ) (u v : View T) (p : ℕ) (x y : T)
        → IsPassOf s i u → IsPassOf s j v
        → Has p x u.account.sent → Has p y v.account.sent → (i ≡ j) × (x ≡ y) }
    ensures same { (s : SegmentState T) (k : Keeps s) (i j : ℕ) (u v : View T) (p : ℕ) (x y : T)
        → IsPassOf s i u → IsPassOf s j v
        → Has p x u.account.sent → Has p y v.account.got → x ≡ y }
    ensures beginning { (s : SegmentState T) (k : Keeps s) (p : ℕ) → p < claimed_in s
        → (c : Claim T) × (get_elem? k.history.claims p ≡ some c)
        × IsOfPass s c.to (λ a. Has p c.entry.value a.got) }
    ensures drawn { (s : SegmentState T) (k : Keeps s) (p : ℕ) → p < drawn_in s
        → (e : Entry T) × (get_elem? (all_entries k.history) p ≡ some e)
        × IsOfPass s e.by (λ a. Has p e.value a.sent) }
    ensures back { (s : SegmentState T) (k : Keeps s) (n : ℕ) (v : View T) → IsViewOf s n v
        → v.role ≡ Issuer → Match k.history k.roll v.ends }
{}

/// Where a receiver loaded the number claimed, and then finds no more drawn, each position drawn is claimed at that
/// load. What it had sent or seen marked then was claimed, and stays so. Where a pass was told that the segment is done,
/// none waits and no more will be drawn; where it was told that the segment is full or cut, it is.
pub fn over_is_true<T>()
    ensures empty { (s : SegmentState T) (k : Keeps s) (n : ℕ) (v : View T) → IsViewOf s n v
        → drawn_in s ≤ v.sight.low → (drawn_in s ≡ claimed_in s) × (k.history.rest ≡ []) }
    ensures over { (s : SegmentState T) (k : Keeps s) (n : ℕ) (v : View T) → IsViewOf s n v
        → v.over ≡ true → IsOver s × (drawn_in s ≡ claimed_in s) × (k.history.rest ≡ []) }
    ensures taken { (s : SegmentState T) (k : Keeps s) (n : ℕ) (v : View T) (p : ℕ) (x : T)
        → IsViewOf s n v → SawAllTaken v
        → Has p x v.account.sent ⊎ (v.sight.ripe ≡ Some p) → p < claimed_in s }
    ensures full { (s : SegmentState T) (k : Keeps s) (n : ℕ) (v : View T) → IsViewOf s n v
        → v.sight.full ≡ true → drawn_in s ≡ positions_in s }
    ensures cut { (s : SegmentState T) (k : Keeps s) (n : ℕ) (v : View T) → IsViewOf s n v
        → v.sight.cut ≡ true → IsCut s }
    ensures over_all { (s : SegmentState T) (k : Keeps s) (n : ℕ) (v : View T) → IsViewOf s n v
        → is_over v ≡ true → IsOver s }
{}

/// The walk has each draw, each claim, and each look that found nothing, in one order. At each such look nothing waited.
/// A pass counts its own, and knows the walk before the last one. At the moment at which it counts one, the segment is not
/// over.
pub fn empty_is_true<T>()
    ensures walk { (s : SegmentState T) (k : Keeps s)
        → (draws k.walk ≡ drawn_in s) × (drawn_in s ≡ claimed_in s + waiting_after k.walk) }
    ensures counted { (s : SegmentState T) (k : Keeps s) (n : ℕ) (v : View T) → IsPassOf s n v
        → found_empty v ≡ times_empty n k.walk }
    ensures empty { (s : SegmentState T) (k : Keeps s) (n : ℕ) (earlier : List Event)
        → GoesOn (FoundEmpty n ∷ earlier) k.walk → waiting_after earlier ≡ 0 }
    ensures last { (s : SegmentState T) (k : Keeps s) (n : ℕ) (v : View T) → IsPassOf s n v
        → 0 < found_empty v → GoesOn (FoundEmpty n ∷ v.sight.walk) k.walk
        × (found_empty v ≡ times_empty n v.sight.walk + 1)
        × (draws v.sight.walk ≡ v.sight.empty) × (waiting_after v.sight.walk ≡ 0) }
    ensures moment { (s : SegmentState T) (k : Keeps s) → FindsEmpty s
        → (drawn_in s ≡ claimed_in s) × (k.history.rest ≡ []) × (IsOver s → ⊥) }
{}

/// What a pass has learned of is so, and it has learned of all that it sent and received. Each of its sends stands behind
/// all sends that it had learned of before, and each receive behind all receives.
pub fn knowledge_is_true<T>()
    ensures so { (s : SegmentState T) (k : Keeps s) (n : ℕ) (v : View T) → IsViewOf s n v
        → (v.known.drawn ≤ drawn_in s) × (v.known.taken ≤ claimed_in s) }
    ensures sent { (s : SegmentState T) (k : Keeps s) (n : ℕ) (v : View T) (p : ℕ) (x : T)
        → IsViewOf s n v → Has p x v.account.sent → p < v.known.drawn }
    ensures got { (s : SegmentState T) (k : Keeps s) (n : ℕ) (v : View T) (p : ℕ) (x : T)
        → IsViewOf s n v → Has p x v.account.got → (p < v.known.drawn) × (p < v.known.taken) }
    ensures behind { (s : SegmentState T) (k : Keeps s) (n : ℕ) (v : View T) → IsViewOf s n v
        → Heeds v.account.sent v.account.sent_knew × Heeds v.account.got v.account.got_knew }
{}

/// Only a pass cuts the segment, and only one: its account says so. Before a pass is issued, nothing is drawn or cut.
pub fn one_cutter<T>()
    ensures cutter { (s : SegmentState T) (k : Keeps s) → IsCut s
        → (n : ℕ) × (k.history.cutter ≡ Some n) × IsOfPass s n (λ a. a.cut ≡ true) }
    ensures cut { (s : SegmentState T) (k : Keeps s) (n : ℕ) (v : View T) → IsPassOf s n v
        → v.account.cut ≡ true → IsCut s × (k.history.cutter ≡ Some n) }
    ensures new { (s : SegmentState T) (k : Keeps s) → s.views ≡ new_hub ∷ []
        → (drawn_in s ≡ 0) × (IsCut s → ⊥) }
{}

/// Between any two steps: if a receiver sleeps without a token, no more values wait than there are tokens given and debts
/// owed: looks, wakes, and what closers owe. And if no more will be drawn, a closer still owes tokens. Whoever owes or is
/// in the list is a pass that is out. A token that was given is in the list's word until it is taken.
pub fn no_wake_up_is_lost<T>()
    ensures owed { (s : SegmentState T) (k : Keeps s) → 0 < total sleeping s.views
        → claimed_in s < drawn_in s → 0 < k.tokens + total owed s.views }
    ensures enough { (s : SegmentState T) (k : Keeps s) → k.tokens < total sleeping s.views
        → drawn_in s ≤ claimed_in s + (k.tokens + total owed s.views) }
    ensures over { (s : SegmentState T) (k : Keeps s) → k.tokens < total sleeping s.views
        → IsOver s → 0 < total closing s.views }
    ensures debtor { (s : SegmentState T) (k : Keeps s) (n : ℕ) (v : View T) → IsViewOf s n v
        → 0 < owed v + listed v → v.role ≡ Member }
    ensures given { (s : SegmentState T) (k : Keeps s) → total tokens_given s.views
        ≡ slice_index s.words 8 % 4294967296 + total tokens_taken s.views }
{}
