//! The laws of a channel. The functions compute nothing: their contracts are the laws.
ghost use Rattle.std.specs.Prelude.{ℕ, List, Option, Some, length, suc, true, ◌++◌, ◌<◌, ◌≡◌};
ghost use mathlib.Core.Option.{some};
ghost use lib.ListN.{get_elem?};
ghost use Rattle.atomic_table.specs.Table.{Step};
ghost use Rattle.mb_channel.specs.ChannelTheorem.{EachMoment, End, History, Moment, Segment, TakenInTurn, WholeLife, entries, left, life, sent, taken};
ghost use Rattle.mb_channel.specs.Stays.{AreStays, Told, life_of};
ghost use Rattle.mb_channel.specs.Types.{Fates, Home, Homes, Knows};
ghost use Rattle.mb_segment.specs.Vocabulary.{FindsEmpty, SegmentState};
ghost use Rattle.mb_channel.specs.Closing.{AreStates, IsClosedOff, IsFinished, ListState, NoneWaits};
ghost use Rattle.mb_channel.specs.Homes.{AllHomes, At, IsShut, IsWhole, Keeps, Sat, sends, total};
ghost use Rattle.mb_channel.specs.Inside.{Log};
ghost use Rattle.mb_channel.specs.Lives.{HaveEnded, HaveLived, all_left, end_in};
ghost use Rattle.mb_channel.specs.Returned.{OneReturned};
ghost use Rattle.mb_channel.specs.Segments.{AreLogs, EachKeeps, InTurn, KeepsEnd};
ghost use Rattle.mb_channel.specs.States.{OnlyReceiversTake, moment_of};
ghost use Rattle.mb_channel.specs.Tallies.{sees_senders};
ghost use Rattle.mb_channel.specs.Owned.{Fate, HasTaken, IsFateOf, IsOwned, IsTrue, Place, gives_fates, is_fate};
ghost use Rattle.mb_channel.specs.Lengths.{HasSummed, IsKnown, gives_length};
ghost use Rattle.mb_channel.specs.Deeds.{Deed, IsUpTo, OneMore};
ghost use Rattle.mb_channel.specs.Told.{AllTell, KeepsOrder, index};

/// At each moment: let each segment keep its own rule, let them follow each other in turn, and let what is said of the
/// channel's end be true. Then the channel's points hold.
pub fn moments_keep_the_theorem<T>()
    ensures moment { (m : Moment T) → EachKeeps m.segments → InTurn m.segments → KeepsEnd m
        → EachMoment m }
    ensures turn { (m : Moment T) → EachKeeps m.segments → InTurn m.segments
        → TakenInTurn (life m) }
{}

/// Of a state of the list, and of a state of each segment: let only those that may receive in a segment take values there
/// or sleep. Then the channel's points hold of this moment. The moment tells what an end was told, and where it is.
pub fn states_keep_the_theorem<T: Drop>()
    ensures moment { (c : ListState T) (k : Keeps c) (now : ℕ → SegmentState T)
        (a : AreStates now k.homes)
        → OnlyReceiversTake c.views now k.homes → EachMoment (moment_of c k now a) }
    ensures visited { (c : ListState T) (k : Keeps c) (now : ℕ → SegmentState T)
        (a : AreStates now k.homes) (id : ℕ) (v : Knows T) (s : Segment T)
        → get_elem? c.views id ≡ some v → v.takes ≡ true
        → get_elem? (moment_of c k now a).segments v.at ≡ some s → s.is_visited ≡ true }
    ensures told { (c : ListState T) (k : Keeps c) (now : ℕ → SegmentState T)
        (a : AreStates now k.homes) (id : ℕ) (v : Knows T)
        → get_elem? c.views id ≡ some v → v.takes ≡ true → v.last ≡ Some v.at
        → (moment_of c k now a).is_told ≡ true }
    ensures refused { (c : ListState T) (k : Keeps c) (now : ℕ → SegmentState T)
        (a : AreStates now k.homes) (id : ℕ) (v : Knows T)
        → get_elem? c.views id ≡ some v → v.shut ≡ true
        → (moment_of c k now a).is_refused ≡ true }
{
    mb_segment::laws::one_taker::<T>();
    mb_segment::laws::over_is_true::<T>();
    mb_segment::laws::no_wake_up_is_lost::<T>();
}

/// Of a whole life: segments that were taken in turn make one channel. Each end did there what it did in the segments.
/// What was taken is the beginning of what was sent.
pub fn lives_keep_the_theorem<T>()
    ensures life { (hs : List (History T)) (ends : ℕ → End T) (back : List T)
        → TakenInTurn hs → AreLogs hs ends back → WholeLife hs ends back }
    ensures beginning { (hs : List (History T)) → TakenInTurn hs
        → sent hs ≡ entries (taken hs) ++ left hs }
{}

/// Of a whole life: in each segment an end had one pass at most. What the segments tell of their passes is the whole life
/// of the channel, told of its ends.
pub fn passes_make_ends<T>()
    ensures life { (ts : List (Told T)) (ends : ℕ → End T) (back : List T)
        → AreStays ts ends back → WholeLife (life_of ts) ends back }
{}

/// Of a whole life: let the list end, and each of its segments. What the ends did is then read off their visits, what is
/// given back is what the segments had left, and both are of one life.
pub fn lists_make_lives<T: Drop>()
    ensures life { (v : Knows T) (hs : List (Home T)) (ls : List (List T))
        → IsWhole v hs → HaveEnded hs ls
        → HaveLived (end_in v hs) (all_left ls) }
{}

/// Of a whole life: what it lists of each end is what the end's log has.
pub fn lives_have_the_logs<T: Drop>()
    ensures logs { (v : Knows T) (hs : List (Home T)) (ls : List (List T))
        → IsWhole v hs → HaveEnded hs ls → AllTell v hs }
{}

/// Of two calls: let one end know up to a place after its call, and another end know as far before its own. Then the place
/// of the first call comes before that of the second in the one order. So too if the other gives a value back.
pub fn told_comes_later<T: Drop>()
    ensures later { (x y : T) (k l m n : Place) (bs cs ds es : List (Deed T)) (hs : List (Home T))
        (a : OneMore x k l bs cs) (b : OneMore y m n ds es) → IsUpTo l m
        → KeepsOrder hs (record { place = a.place; value = x })
        → index hs a.place < index hs b.place }
    ensures returned { (x y : T) (k l m : Place) (bs cs : List (Deed T)) (ks ls : List (Log T))
        (hs : List (Home T)) (n : ℕ) (a : OneMore x k l bs cs) (b : OneReturned y n m ks ls)
        → IsUpTo l m
        → KeepsOrder hs (record { place = a.place; value = x })
        → index hs a.place < index hs b.place }
{}

/// Of the moment at which an end counts that it found itself behind the last segment, as one that may receive there:
/// nothing waits in any segment.
pub fn none_is_true<T: Drop>()
    ensures none { (c : ListState T) (k : Keeps c) (id r : ℕ) (s : Step (Homes T)) (v w : Sat T)
        → get_elem? c.views id ≡ some v.0 → sees_senders s v r w → v.0.found < w.0.found
        → AllHomes IsFinished k.homes }
{
    mb_segment::laws::over_is_true::<T>();
}

/// Of the moment at which an end is told that n values wait: it gives the channel's list back. Since it found that, hubs
/// looked, and nothing else was done. What they know to be drawn, less what they know to be claimed, is n. And each hub's
/// knowledge is true, at any moment.
pub fn length_is_true<T: Drop>()
    ensures list { (c : ListState T) (k : Keeps c) (id n r : ℕ) (s : Step (Homes T)) (v w : Sat T)
        → get_elem? c.views id ≡ some v.0 → gives_length (Some n) s v r w
        → HasSummed k.homes (Some n) v.1 }
    ensures known { (hs : List (Home T)) → AllHomes IsKnown hs }
{
    mb_segment::laws::knowledge_is_true::<T>();
}

/// Of the moment at which an end is told fates, or none: it gives the channel's list back, out of which they were taken.
/// They are those in a segment that is freed. A fate names any end whose log has its value, and there is one.
pub fn fates_are_true<T: Drop>()
    ensures list { (c : ListState T) (k : Keeps c) (id r : ℕ) (told : Option (Fates T))
        (s : Step (Homes T)) (v w : Sat T)
        → get_elem? c.views id ≡ some v.0 → gives_fates told s v r w → HasTaken k.homes told v.1 }
    ensures names { (c : ListState T) (k : Keeps c) (f : Fates T) (at : ℕ) (x : Fate)
        → IsFateOf k.homes f → is_fate f at ≡ Some x → IsTrue c.views f.segment at x }
    ensures owners { (c : ListState T) (k : Keeps c) (f : Fates T) (at : ℕ) (x : Fate)
        → IsFateOf k.homes f → is_fate f at ≡ Some x → IsOwned c.views f.segment at x }
{}

/// Of the moment at which a pass counts that it found nothing, in the segment where a receiver is: nothing waits in any
/// segment of the channel.
pub fn empty_is_true<T: Drop>()
    ensures empty { (c : ListState T) (k : Keeps c) (id : ℕ) (v : Knows T)
        (now : ℕ → SegmentState T)
        → get_elem? c.views id ≡ some v → v.inside ≡ true → v.takes ≡ true
        → AreStates now k.homes → FindsEmpty (now v.at) → NoneWaits now k.homes }
{
    mb_segment::laws::empty_is_true::<T>();
    mb_segment::laws::over_is_true::<T>();
}

/// Of each moment: where an end was told that there are so many segments, there are so many. The list is closed, or no
/// sender is left. Nothing can be sent in any of them. If the end is a receiver behind the last, nothing waits there
/// either. Each end stands behind segments that are over, and behind a receiver nothing waits.
pub fn closed_is_true<T: Drop>()
    ensures last { (c : ListState T) (k : Keeps c) (id n : ℕ) (v : Knows T)
        → get_elem? c.views id ≡ some v → v.last ≡ Some n
        → (length k.homes ≡ n) × IsShut k.mark c.views × AllHomes IsClosedOff k.homes }
    ensures empty { (c : ListState T) (k : Keeps c) (id n : ℕ) (v : Knows T)
        → get_elem? c.views id ≡ some v → v.last ≡ Some n → v.takes ≡ true → v.at ≡ n
        → AllHomes IsFinished k.homes }
    ensures alone { (c : ListState T) (k : Keeps c) (id : ℕ) (v : Knows T)
        → get_elem? c.views id ≡ some v → v.alone ≡ true → total sends c.views ≡ 0 }
    ensures shut { (c : ListState T) (k : Keeps c) (id : ℕ) (v : Knows T)
        → get_elem? c.views id ≡ some v → v.shut ≡ true → k.mark ≡ 0 }
    ensures over { (c : ListState T) (k : Keeps c) (id j : ℕ) (v : Knows T)
        → get_elem? c.views id ≡ some v → v.orderly ≡ true → j < v.at
        → At k.homes j IsClosedOff }
    ensures leads { (c : ListState T) (k : Keeps c) (j : ℕ) → suc j < length k.homes
        → At k.homes j IsClosedOff }
    ensures behind { (c : ListState T) (k : Keeps c) (id j : ℕ) (v : Knows T)
        → get_elem? c.views id ≡ some v → v.takes ≡ true → j < v.at
        → At k.homes j IsFinished }
{
    mb_segment::laws::over_is_true::<T>();
}
