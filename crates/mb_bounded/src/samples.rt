//! Samples of the definitions: what they admit, and what only looks right. The functions compute nothing: their
//! contracts are the samples.
ghost use Rattle.std.specs.Prelude.{List, Some, [], ℕ, ◌+◌, ◌∷◌, ◌≡◌};
ghost use mathlib.Core.Option.{none};
ghost use Rattle.atomic_table.specs.Table.{opening};
ghost use Rattle.mb_segment.specs.SegmentSamples.{receiver, sender};
ghost use Rattle.mb_segment.specs.Vocabulary.{nothing_done};
ghost use Rattle.mb_ring.specs.Vocabulary.{blank};
ghost use Rattle.mb_bounded.specs.BoundedSamples.{cutter, got_ten, having, sent_ten, two_ends};
ghost use Rattle.mb_bounded.specs.Desks.{AreCounted, HasCounted, HasHired, HasRetired, IsDeskOf, Keeps};
ghost use Rattle.mb_bounded.specs.Desks.{first_view, knows, locked, settled, splits_off};
ghost use Rattle.mb_bounded.specs.Ends.{HasCut, IsSame, NoMore, OneGot, OneSent};
ghost use Rattle.mb_bounded.specs.Lives.{IsLife, calls_of, end_by};
ghost use Rattle.mb_bounded.specs.Types.{Desk, Global, Knows, Ring};
ghost use Rattle.mb_bounded.specs.declared.end.End.{End};

/// A sender and a receiver are counted once each. A new desk counts a sender and a receiver. Refused: one more sender,
/// a desk without a sender while there is one, and a desk that is out while nobody has the lock.
pub fn sample_desks()
    ensures counted { (r : Ring ℕ Global) → AreCounted (two_ends r) 1 1 }
    ensures one_more { (r : Ring ℕ Global) → AreCounted (two_ends r) 2 1 → ⊥ }
    ensures new { (r : Ring ℕ Global) (d : Desk ℕ) → IsDeskOf r d → d.senders ≡ 1
        → d.receivers ≡ 1 → Keeps r (opening (0 ∷ []) (Some d ∷ []) (first_view r)) }
    ensures deserted { (r : Ring ℕ Global) (d : Desk ℕ) → d.senders ≡ 0
        → Keeps r (opening (0 ∷ []) (Some d ∷ []) (first_view r)) → ⊥ }
    ensures out { (r : Ring ℕ Global)
        → Keeps r record { words = 1 ∷ []; homes = none ∷ []; views = two_ends r } → ⊥ }
{}

/// An end counts what the desk says that it finds. Refused: numbers that it knew before, if it found no desk, and any
/// numbers, if it hired a sender meanwhile and split that off.
pub fn sample_counts()
    ensures counted { (d : Desk ℕ) (v : Knows ℕ)
        → HasCounted v (settled d (locked d v)) d.senders d.receivers }
    ensures before { (v : Knows ℕ) → HasCounted v v v.senders v.receivers → ⊥ }
    ensures phantom { (d e : Desk ℕ) (v : Knows ℕ) (m n : ℕ) → e.senders ≡ d.senders + 1
        → HasCounted v (splits_off 1 0 (settled e (locked d v))) m n → ⊥ }
{}

/// An end that leaves a sender more at the desk hired it, and one that leaves a sender less retired it. An end that was
/// not there is the same. Refused: one that left as many as it found, and only split its right off. Refused as the same:
/// one that took the lock.
pub fn sample_visits()
    ensures hired { (d e : Desk ℕ) (v : Knows ℕ) → e.senders ≡ d.senders + 1
        → e.receivers ≡ d.receivers → HasHired 1 0 v (settled e (locked d v)) }
    ensures not_hired { (d : Desk ℕ) (v : Knows ℕ)
        → HasHired 1 0 v (settled d (locked d v)) → ⊥ }
    ensures retired { (d e : Desk ℕ) (v : Knows ℕ) → d.senders ≡ e.senders + 1
        → d.receivers ≡ e.receivers → HasRetired 1 0 v (settled e (locked d v)) }
    ensures split_off { (d : Desk ℕ) (v : Knows ℕ)
        → HasRetired 1 0 v (splits_off 1 0 (settled d (locked d v))) → ⊥ }
    ensures away { (e : End ℕ) → IsSame e e }
    ensures there { (e f : End ℕ) → (knows f.chair).looks ≡ (knows e.chair).looks + 1
        → IsSame e f → ⊥ }
{}

/// Lives. Two accounts and what is left are a whole life. The end with the second number did what the second account
/// says. Refused: a value that two received.
pub fn sample_lives()
    ensures life { IsLife (sender ∷ receiver ∷ []) (11 ∷ []) }
    ensures second { end_by (3 ∷ 4 ∷ []) (sent_ten ∷ got_ten ∷ []) 4 ≡ calls_of got_ten }
    ensures twice { (left : List ℕ) → IsLife (receiver ∷ receiver ∷ []) left → ⊥ }
{
    mb_segment::samples::sample_ends();
}

/// A pass that sent 10, received it, did nothing, or cut the ring. Refused: that the value was 11, that the sender
/// received it, or did nothing, and that one cut the ring that did nothing.
pub fn sample_deeds()
    ensures sent { OneSent 10 blank (having sent_ten) }
    ensures another { OneSent 11 blank (having sent_ten) → ⊥ }
    ensures got { OneGot 10 blank (having got_ten) }
    ensures not_got { OneGot 10 blank (having sent_ten) → ⊥ }
    ensures idle { NoMore blank (having nothing_done) }
    ensures busy { NoMore blank (having sent_ten) → ⊥ }
    ensures cut { HasCut blank cutter }
    ensures uncut { HasCut blank (having nothing_done) → ⊥ }
{}
