//! The laws of a channel's desk, over all states. The functions compute nothing: their contracts are the laws.
ghost use Rattle.std.specs.Prelude.{Some, [], slice_index, true, ℕ, ◌≡◌, ◌∷◌};
ghost use mathlib.Core.Option.{some};
ghost use lib.ListN.{get_elem?};
ghost use Rattle.mb_bounded.specs.Types.{Desk, Global, Knows, Ring};
ghost use Rattle.mb_bounded.specs.Desks.{AreCounted, Holds, IsDeskOf, Keeps, OfficeState, receives, sends, total};

/// While the lock is free, the desk is there. Its hub is the ring's, and has issued a pass for each end that was ever
/// made. It counts the senders and the receivers that are left.
pub fn ends_are_counted<T: Drop>()
    ensures counted { (r : Ring T Global) (s : OfficeState T) → Keeps r s
        → slice_index s.words 0 ≡ 0 → (d : Desk T) × (s.homes ≡ some (Some d) ∷ [])
        × IsDeskOf r d × AreCounted s.views d.senders d.receivers }
{}

/// While the lock is taken, just one end has it. The numbers that this end then knows are those of all ends.
pub fn holder_knows_the_numbers<T: Drop>()
    ensures there { (r : Ring T Global) (s : OfficeState T) → Keeps r s
        → slice_index s.words 0 ≡ 1 → (n : ℕ) × Holds s.views n }
    ensures alone { (r : Ring T Global) (s : OfficeState T) → Keeps r s → (m n : ℕ) (v w : Knows T)
        → get_elem? s.views m ≡ some v → v.holds ≡ true
        → get_elem? s.views n ≡ some w → w.holds ≡ true → m ≡ n }
    ensures numbers { (r : Ring T Global) (s : OfficeState T) (k : Keeps r s) (n : ℕ) (v : Knows T)
        → get_elem? s.views n ≡ some v → v.holds ≡ true
        → AreCounted s.views v.senders v.receivers }
{}

/// If an end was told that it was the last sender, no sender is left, and none will be. The same holds for receivers.
pub fn last_is_true<T: Drop>()
    ensures senders { (r : Ring T Global) (s : OfficeState T) (k : Keeps r s) (n : ℕ)
        (v : Knows T) → get_elem? s.views n ≡ some v → v.no_sender ≡ true
        → total sends s.views ≡ 0 }
    ensures receivers { (r : Ring T Global) (s : OfficeState T) (k : Keeps r s) (n : ℕ)
        (v : Knows T) → get_elem? s.views n ≡ some v → v.no_receiver ≡ true
        → total receives s.views ≡ 0 }
{}
