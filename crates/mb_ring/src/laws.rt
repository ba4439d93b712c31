//! The laws of a ring, over all histories. The functions compute nothing: their contracts are the laws.
ghost use Rattle.std.specs.Prelude.{List, Some, [], length, slice_index, true, ℕ, ◌%◌, ◌+◌, ◌-◌, ◌<◌, ◌∷◌, ◌≡◌, ◌≤◌, ◌⊎◌};
ghost use mathlib.Core.Option.{some};
ghost use lib.ListN.{get_elem?};
ghost use Rattle.mb_ring.specs.{Claim, Duty, Entry, Event, FoundEmpty, FoundFull, GoesOn, Has, IsAwake, IsCut, IsOfPass, IsPassOf, IsViewOf};
ghost use Rattle.mb_ring.specs.{Issuer, Keeps, Match, Member, Reads, RingState, Rises, Room, Sat, SawAllGot, SawAllTaken, Values, View, Want};
ghost use Rattle.mb_ring.specs.{Writes, all_entries, claimed_in, closing, counting, draws, drawn_in, found_empty, found_full, got_by, listed};
ghost use Rattle.mb_ring.specs.{list_word, load_in, looking, new_hub, owed, sent_by, sleepers, sleeping, spot, times_empty, times_full};
ghost use Rattle.mb_ring.specs.{tokens_given, tokens_taken, total, waiting_after, waiting_in};

/// All positions drawn stand in one order, and the first of them are those claimed. What a pass sent and what it
/// received stand there in its own order. What is drawn or claimed next stands after all that was before.
pub fn one_order<T>()
    ensures sent { (s : RingState T) (k : Keeps s) (n : ℕ) (v : View T) → IsPassOf s n v
        → (v.account.sent ≡ sent_by n k.history) × Rises 0 v.account.sent }
    ensures got { (s : RingState T) (k : Keeps s) (n : ℕ) (v : View T) → IsPassOf s n v
        → (v.account.got ≡ got_by n k.history) × Rises 0 v.account.got }
    ensures later_drawn { (s : RingState T) (k : Keeps s) (n : ℕ) (v : View T) (p : ℕ) (x : T)
        → IsPassOf s n v → Has p x v.account.sent → p < drawn_in s }
    ensures later_claimed { (s : RingState T) (k : Keeps s) (n : ℕ) (v : View T) (p : ℕ) (x : T)
        → IsPassOf s n v → Has p x v.account.got → p < claimed_in s }
{}

/// A position has one drawer and one taker, and its taker got what its drawer gave. Each position below the number drawn
/// was drawn by a pass. Each below the number claimed was taken by one, so nobody overtakes. What passes that came back
/// had done is in the same history.
pub fn one_taker<T>()
    ensures taker { (s : RingState T) (k : Keeps s) (i j : ℕ) (u v : View T) (p : ℕ) (x y : T)
        → IsPassOf s i u → IsPassOf s j v
        → Has p x u.account.got → Has p y v.account.got → (i ≡ j) × (x ≡ y) }
    ensures drawer { (s : RingState T) (k : Keeps s) (i j : ℕ) (u v : View T) (p : ℕ) (x y : T)
        → IsPassOf s i u → IsPassOf s j v
        → Has p x u.account.sent → Has p y v.account.sent → (i ≡ j) × (x ≡ y) }
    ensures same { (s : RingState T) (k : Keeps s) (i j : ℕ) (u v : View T) (p : ℕ) (x y : T)
        → IsPassOf s i u → IsPassOf s j v
        → Has p x u.account.sent → Has p y v.account.got → x ≡ y }
    ensures beginning { (s : RingState T) (k : Keeps s) (p : ℕ) → p < claimed_in s
        → (c : Claim T) × (get_elem? k.history.claims p ≡ some c)
        × IsOfPass s c.to (λ a. Has p c.entry.value a.got) }
    ensures drawn { (s : RingState T) (k : Keeps s) (p : ℕ) → p < drawn_in s
        → (e : Entry T) × (get_elem? (all_entries k.history) p ≡ some e)
        × IsOfPass s e.by (λ a. Has p e.value a.sent) }
    ensures back { (s : RingState T) (k : Keeps s) (n : ℕ) (v : View T) → IsViewOf s n v
        → v.role ≡ Issuer → Match k.history k.roll v.ends }
{}

/// At each moment no more values wait than there are slots. Suppose a sender loaded the number drawn, and then finds so
/// few claimed that a value waits for each slot. Then exactly as many values wait at that load as there are slots. The
/// bounds of `full` stay true. All that it had received is below the number claimed that it counted.
pub fn full_is_true<T>()
    ensures within { (s : RingState T) (k : Keeps s)
        → (claimed_in s ≤ drawn_in s) × (drawn_in s ≤ claimed_in s + length s.homes) }
    ensures exact { (s : RingState T) (k : Keeps s) (n : ℕ) (v : View T) → IsViewOf s n v
        → claimed_in s + length s.homes ≤ v.sight.top
        → drawn_in s ≡ claimed_in s + length s.homes }
    ensures full { (s : RingState T) (k : Keeps s) (n : ℕ) (v : View T) (t : ℕ) → IsViewOf s n v
        → v.sight.full ≡ Some t → (t ≤ claimed_in s) × (t + length s.homes ≤ drawn_in s) }
    ensures got { (v : View T) (t p : ℕ) (x : T) → SawAllGot v → v.sight.full ≡ Some t
        → Has p x v.account.got → p < t }
{}

/// Where a receiver loaded the number claimed, and then finds no more drawn, each position drawn is claimed at that
/// load. What it had sent or seen marked then was claimed, and stays so. Where a pass was told that no value can come any
/// more, none waits, and the ring is cut; where it was told that the ring is cut, it is.
pub fn over_is_true<T>()
    ensures empty { (s : RingState T) (k : Keeps s) (n : ℕ) (v : View T) → IsViewOf s n v
        → drawn_in s ≤ v.sight.low → (drawn_in s ≡ claimed_in s) × (k.history.rest ≡ []) }
    ensures over { (s : RingState T) (k : Keeps s) (n : ℕ) (v : View T) → IsViewOf s n v
        → v.over ≡ true → IsCut s × (drawn_in s ≡ claimed_in s) × (k.history.rest ≡ []) }
    ensures taken { (s : RingState T) (k : Keeps s) (n : ℕ) (v : View T) (p : ℕ) (x : T)
        → IsViewOf s n v → SawAllTaken v
        → Has p x v.account.sent ⊎ (v.sight.ripe ≡ Some p) → p < claimed_in s }
    ensures cut { (s : RingState T) (k : Keeps s) (n : ℕ) (v : View T) → IsViewOf s n v
        → v.sight.cut ≡ true → IsCut s }
{}

/// The walk has each draw and each claim, and each look that found nothing or no room. A pass counted its own such looks,
/// and saw the walk before the last of each kind. At each look that found nothing, nothing waited. At each that found no
/// room, as many values waited as there are slots. `step_empty` and `step_full`: so it is at each load at which the count
/// of a pass rises.
pub fn looks_are_true<T>()
    ensures walk { (s : RingState T) (k : Keeps s)
        → (draws k.walk ≡ drawn_in s) × (drawn_in s ≡ claimed_in s + waiting_after k.walk) }
    ensures counted { (s : RingState T) (k : Keeps s) (n : ℕ) (v : View T) → IsPassOf s n v
        → (found_empty v ≡ times_empty n k.walk) × (found_full v ≡ times_full n k.walk) }
    ensures empty { (s : RingState T) (k : Keeps s) (n : ℕ) (earlier : List Event)
        → GoesOn (FoundEmpty n ∷ earlier) k.walk → waiting_after earlier ≡ 0 }
    ensures full { (s : RingState T) (k : Keeps s) (n : ℕ) (earlier : List Event)
        → GoesOn (FoundFull n ∷ earlier) k.walk → waiting_after earlier ≡ length s.homes }
    ensures last_empty { (s : RingState T) (k : Keeps s) (n : ℕ) (v : View T) → IsPassOf s n v
        → 0 < found_empty v → GoesOn (FoundEmpty n ∷ v.sight.empty_walk) k.walk
        × (found_empty v ≡ times_empty n v.sight.empty_walk + 1)
        × (draws v.sight.empty_walk ≡ v.sight.empty) × (waiting_after v.sight.empty_walk ≡ 0) }
    ensures last_full { (s : RingState T) (k : Keeps s) (n : ℕ) (v : View T) → IsPassOf s n v
        → 0 < found_full v → GoesOn (FoundFull n ∷ v.sight.full_walk) k.walk
        × (found_full v ≡ times_full n v.sight.full_walk + 1)
        × (waiting_after v.sight.full_walk ≡ length s.homes)
        × ((t : ℕ) × (v.sight.full ≡ Some t) × (draws v.sight.full_walk ≡ t + length s.homes)) }
    ensures step_empty { (s : RingState T) (k : Keeps s) (n : ℕ) (f g : Duty → Duty) (v w : Sat T)
        → IsViewOf s n v.0 → looking f g (load_in 0 s) v (slice_index s.words 0) w
        → found_empty v.0 < found_empty w.0 → (waiting_in s ≡ 0) × (IsCut s → ⊥) }
    ensures step_full { (s : RingState T) (k : Keeps s) (n : ℕ) (f : Duty → Duty) (v w : Sat T)
        → IsViewOf s n v.0 → counting f (load_in 1 s) v (slice_index s.words 1) w
        → found_full v.0 < found_full w.0 → waiting_in s ≡ length s.homes }
{}

/// A slot is not used again too early. As long as a pass still has to mark or read a position, nobody draws the position
/// that comes a lap later. Meanwhile the one to mark waits, and the one to read is claimed.
pub fn one_lap<T>()
    ensures reads { (s : RingState T) (k : Keeps s) (n : ℕ) (v : View T) (p : ℕ) (x : T)
        → IsViewOf s n v → v.half ≡ Reads (spot p x)
        → (p < claimed_in s) × (drawn_in s ≤ p + length s.homes) }
    ensures writes { (s : RingState T) (k : Keeps s) (n : ℕ) (v : View T) (p : ℕ) (x : T)
        → IsViewOf s n v → v.half ≡ Writes (spot p x)
        → (claimed_in s ≤ p) × (p < drawn_in s) × (drawn_in s ≤ p + length s.homes) }
{}

/// What a pass loaded stays true. If it loaded that 2^62 positions are drawn, exactly that many are, for good. A position
/// that it saw marked is drawn, and all positions before it are claimed.
pub fn seen_is_true<T>()
    ensures low { (s : RingState T) (k : Keeps s) (n : ℕ) (v : View T) → IsViewOf s n v
        → v.sight.low ≤ claimed_in s }
    ensures top { (s : RingState T) (k : Keeps s) (n : ℕ) (v : View T) → IsViewOf s n v
        → v.sight.top ≤ drawn_in s }
    ensures worn { (s : RingState T) (k : Keeps s) (n : ℕ) (v : View T) → IsViewOf s n v
        → 4611686018427387904 ≤ v.sight.top → drawn_in s ≡ 4611686018427387904 }
    ensures marked { (s : RingState T) (k : Keeps s) (n : ℕ) (v : View T) (p : ℕ) → IsViewOf s n v
        → v.sight.ripe ≡ Some p → (p ≤ claimed_in s) × (p < drawn_in s) }
{}

/// Only a pass cuts the ring, and only one: its account says so. Before a pass is issued, nothing is drawn or cut.
pub fn one_cutter<T>()
    ensures cutter { (s : RingState T) (k : Keeps s) → IsCut s
        → (n : ℕ) × (k.history.cutter ≡ Some n) × IsOfPass s n (λ a. a.cut ≡ true) }
    ensures cut { (s : RingState T) (k : Keeps s) (n : ℕ) (v : View T) → IsPassOf s n v
        → v.account.cut ≡ true → IsCut s × (k.history.cutter ≡ Some n) }
    ensures new { (s : RingState T) (k : Keeps s) → s.views ≡ new_hub ∷ []
        → (drawn_in s ≡ 0) × (IsCut s → ⊥) }
{}

/// Between any two steps: let a receiver sleep without a token. Then at most as many values wait as there are tokens
/// given to receivers, plus looks and wakes owed for values. Let a sender sleep without a token while the ring is open.
/// Then at most as many places are free as there are tokens given to senders, plus looks and wakes owed for room. If no
/// more will be drawn, and one sleeps in a list without a token, somebody still owes a token to each that sleeps there.
/// Whoever owes or is in a list is a pass that is issued and not yet returned. A token that was given is in the word of
/// its list until it is taken.
pub fn no_wake_up_is_lost<T>()
    ensures values { (s : RingState T) (k : Keeps s)
        → k.tokens Values < total (sleeping Values) s.views
        → drawn_in s ≤ claimed_in s + (k.tokens Values + total (owed Values) s.views) }
    ensures room { (s : RingState T) (k : Keeps s) → k.tokens Room < total (sleeping Room) s.views
        → (IsCut s → ⊥) → claimed_in s + length s.homes
        ≤ drawn_in s + (k.tokens Room + total (owed Room) s.views) }
    ensures over { (s : RingState T) (k : Keeps s) (q : Want)
        → k.tokens q < total (sleeping q) s.views → IsCut s → 0 < total (closing q) s.views }
    ensures debtor { (s : RingState T) (k : Keeps s) (q : Want) (n : ℕ) (v : View T)
        → IsViewOf s n v → 0 < owed q v + listed q v + closing q v → v.role ≡ Member }
    ensures given { (s : RingState T) (k : Keeps s) (q : Want) → total (tokens_given q) s.views
        ≡ slice_index s.words (list_word q) % 4294967296 + total (tokens_taken q) s.views }
{}

/// What the theorem of the channel asks of each moment, and a little more: `EachBounded`, and of `EachMoment` the part
/// `awake`. It is told of a ring with as many slots as the bound, to which no value comes back. `full`: at the load at
/// which a draw finds so few claimed.
pub fn each_bounded<T>()
    ensures within { (s : RingState T) (k : Keeps s) → waiting_in s ≤ length s.homes }
    ensures full { (s : RingState T) (k : Keeps s) (n : ℕ) (v : View T) → IsViewOf s n v
        → claimed_in s + length s.homes ≤ v.sight.top → length s.homes ≤ waiting_in s }
    ensures awake { (s : RingState T) (k : Keeps s)
        → IsAwake (IsCut s → ⊥) (waiting_in s) (sleepers Values s k) }
    ensures room { (s : RingState T) (k : Keeps s)
        → IsAwake (IsCut s → ⊥) (length s.homes - waiting_in s) (sleepers Room s k) }
{}
