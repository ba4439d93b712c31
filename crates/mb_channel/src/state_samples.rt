//! Samples of what a state of a channel says of a moment. The functions compute nothing: their contracts are the samples.
ghost use Rattle.std.specs.Prelude.{ℕ, [], false, true, ◌∷◌, ◌≡◌};
ghost use Rattle.mb_segment.specs.Vocabulary.{IsPassOf, IsViewOf, SegmentState, claimed_in, sleeping, total};
ghost use Rattle.mb_segment.specs.declared.view.Role.{TheVariants.Issuer};
ghost use Rattle.mb_channel.specs.Closing.{AreStates, ListState};
ghost use Rattle.mb_channel.specs.HomeSamples.{told_none};
ghost use Rattle.mb_channel.specs.Homes.{Keeps, came_back, first_view};
ghost use Rattle.mb_channel.specs.LifeSamples.{position};
ghost use Rattle.mb_channel.specs.Remembers.{Remembers};
ghost use Rattle.mb_channel.specs.States.{OnlyReceiversTake, moment_of, segments_in, starts_visited};
ghost use Rattle.mb_channel.specs.Types.{Home, View};

/// Who takes values in a segment, or sleeps there. Admitted: anybody in segment 0 beside an end that may receive there,
/// where the home knows what the hub does. Refused: one in segment 1 that took a value beside an end that may send alone,
/// and one that sleeps there while the only receiver is in segment 0.
pub fn sample_takers()
    ensures first { (now : ℕ → SegmentState ℕ) (h : Home ℕ) (n : ℕ) (w : View ℕ)
        → IsViewOf (now 0) n w → w.role ≡ Issuer → w.ends ≡ came_back h
        → OnlyReceiversTake (first_view ∷ []) now (h ∷ []) }
    ensures took { (now : ℕ → SegmentState ℕ) (h g : Home ℕ) (n : ℕ) (v : View ℕ)
        → IsPassOf (now 1) n v → v.account.got ≡ position 0 10 ∷ []
        → OnlyReceiversTake (record first_view { at = 1; takes = false } ∷ []) now (h ∷ g ∷ [])
        → ⊥ }
    ensures sleeps { (now : ℕ → SegmentState ℕ) (h g : Home ℕ) (n : ℕ) (v : View ℕ)
        → IsPassOf (now 1) n v → v.duty.asleep ≡ 1
        → OnlyReceiversTake (first_view ∷ []) now (h ∷ g ∷ []) → ⊥ }
{}

/// What ends say of the list's end. A new one says nothing. One that closed the list counts as a closer until it is told
/// how many segments there are. By then a send may have told "closed". Refused: a closed list of which no end knows it.
pub fn sample_views()
    ensures new_ { (c : ListState ℕ) (k : Keeps c) (now : ℕ → SegmentState ℕ)
        (a : AreStates now k.homes) → c.views ≡ first_view ∷ []
        → ((moment_of c k now a).closers ≡ 0) × ((moment_of c k now a).is_told ≡ false)
        × ((moment_of c k now a).is_refused ≡ false) }
    ensures closer { (c : ListState ℕ) (k : Keeps c) (now : ℕ → SegmentState ℕ)
        (a : AreStates now k.homes) → c.views ≡ record first_view { shut = true } ∷ []
        → (moment_of c k now a).closers ≡ 1 }
    ensures cut { (c : ListState ℕ) (k : Keeps c) (now : ℕ → SegmentState ℕ)
        (a : AreStates now k.homes) → c.views ≡ told_none ∷ []
        → ((moment_of c k now a).closers ≡ 0) × ((moment_of c k now a).is_refused ≡ true) }
    ensures remembered { Remembers 0 1 (told_none ∷ []) }
    ensures forgotten { Remembers 0 1 (first_view {T = ℕ} ∷ []) → ⊥ }
{}

/// To which segments a receiver has come: to one where a value was taken, and to one before that. Refused: to one where
/// none was taken, nobody sleeps, and no end is that may receive.
pub fn sample_visited()
    ensures taken { (now : ℕ → SegmentState ℕ) (h : Home ℕ) (a : AreStates now (h ∷ []))
        → claimed_in (now 0) ≡ 1
        → starts_visited (segments_in (h ∷ []) (λ _. false) now a) ≡ true }
    ensures before { (now : ℕ → SegmentState ℕ) (h g : Home ℕ) (a : AreStates now (h ∷ g ∷ []))
        → claimed_in (now 1) ≡ 1
        → starts_visited (segments_in (h ∷ g ∷ []) (λ _. false) now a) ≡ true }
    ensures nobody { (now : ℕ → SegmentState ℕ) (h : Home ℕ) (a : AreStates now (h ∷ []))
        → claimed_in (now 0) ≡ 0 → total sleeping (now 0).views ≡ 0
        → starts_visited (segments_in (h ∷ []) (λ _. false) now a) ≡ false }
{}
