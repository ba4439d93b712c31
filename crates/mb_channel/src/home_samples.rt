//! Samples of the list's definitions: what they admit, and what only looks right. The functions compute nothing: their
//! contracts are the samples.
ghost use Rattle.std.specs.Prelude.{List, None, Option, Some, length, ℕ, [], false, true, ◌<◌, ◌++◌, ◌∷◌, ◌≡◌};
ghost use Rattle.atomic_table.specs.Table.{Step};
ghost use Rattle.mb_segment.specs.SegmentSamples.{overslept, unused};
ghost use Rattle.mb_channel.specs.Closing.{AreStates, KnowsEnd, NoneWaits};
ghost use Rattle.mb_channel.specs.Deeds.{IsUpTo, OneMore, deed};
ghost use Rattle.mb_channel.specs.Ends.{IsBehind, IsLater, Standing, end_told, log_of};
ghost use Rattle.mb_channel.specs.Fates.{IsTrue, gives_fates};
ghost use Rattle.mb_channel.specs.HomeSamples.{adder, fate, given_twice, last_of_two, one_take, one_visit, place, returner, seven, told_none};
ghost use Rattle.mb_channel.specs.Homes.{Agrees, Fits, FitsEnd, HasIssued, HasNames, HasTakenBack, IsDone, IsFreed, IsNew, IsOver, IsWhole, MayLeave, Stands};
ghost use Rattle.mb_channel.specs.Homes.{Made, Sat, came_back, first_view, out_of, spent_view};
ghost use Rattle.mb_channel.specs.Inside.{known_there};
ghost use Rattle.mb_channel.specs.Lengths.{AreWaiting, HasSummed, HaveLooked, drawn_there, gives_length, taken_there};
ghost use Rattle.mb_channel.specs.LifeSamples.{one_got, one_sent, position, two_sent};
ghost use Rattle.mb_channel.specs.Returned.{NoneReturned, OneReturned};
ghost use Rattle.mb_channel.specs.Tallies.{GoesOnTo};
ghost use Rattle.mb_channel.specs.Told.{KeepsOrder};
ghost use Rattle.mb_channel.specs.Wakes.{wakes_of};
ghost use Rattle.mb_channel.specs.declared.end.End.{End};
ghost use Rattle.mb_channel.specs.Types.{Arc, Fates, Global, Home, Homes, Knows, Pass, Segment, View};

/// All segments that there ever were. Admitted: one that was freed, before those in the list. Refused: one that was
/// freed before it was done, and one that is neither freed nor in the list.
pub fn sample_standing()
    ensures freed { (h : Home ℕ) (l : Homes ℕ) → IsFreed h → l.first ≡ 1
        → Stands (h ∷ l.list.items) l }
    ensures undone { (h : Home ℕ) (l : Homes ℕ) → (IsDone h → ⊥) → l.first ≡ 1
        → Stands (h ∷ l.list.items) l → ⊥ }
    ensures lost { (h : Home ℕ) (l : Homes ℕ) → l.first ≡ 0
        → Stands (h ∷ l.list.items) l → ⊥ }
{}

/// The list that an end leaves. Admitted: longer by one, if the end may add it. Refused: the same if it may not, and a
/// place that is not behind the last segment.
pub fn sample_leaving()
    ensures added { (v : Knows ℕ) (h : Home ℕ) → IsNew h → v.may_add ≡ true → v.orderly ≡ true
        → length v.before ≡ v.at → MayLeave v (v.before ++ h ∷ []) }
    ensures unasked { (v : Knows ℕ) (h : Home ℕ) → v.may_add ≡ false
        → MayLeave v (v.before ++ h ∷ []) → ⊥ }
    ensures elsewhere { (v : Knows ℕ) (h : Home ℕ) → (length v.before ≡ v.at → ⊥)
        → MayLeave v (v.before ++ h ∷ []) → ⊥ }
{}

/// Where an end goes on to. Admitted: the last segment, to send alone, and one behind a segment that is done, to receive.
/// Refused: one before the last, to send alone, and one behind a segment that is not done, to receive.
pub fn sample_going()
    ensures last { (h g : Home ℕ) → GoesOnTo false (h ∷ g ∷ []) 1 }
    ensures done { (h : Home ℕ) → IsDone h → GoesOnTo true (h ∷ []) 1 }
    ensures middle { (h g : Home ℕ) → GoesOnTo false (h ∷ g ∷ []) 0 → ⊥ }
    ensures undone { (h : Home ℕ) → (IsDone h → ⊥) → GoesOnTo true (h ∷ []) 1 → ⊥ }
{}

/// What an end that may add a segment says of the list. Admitted: an open list, of which no end was told that it never
/// grows. Refused: a closed list, one that the end did not see open, and one of which an end was told so.
pub fn sample_adding()
    ensures open_ { FitsEnd [] 1 (adder ∷ []) adder }
    ensures closed { FitsEnd [] 0 (adder ∷ []) adder → ⊥ }
    ensures unseen { (v : Knows ℕ) → v.may_add ≡ true → v.is_open ≡ false
        → FitsEnd [] 1 (v ∷ []) v → ⊥ }
    ensures told { FitsEnd [] 1 (adder ∷ told_none ∷ []) adder → ⊥ }
{}

/// What hubs and visits say. Admitted: one visit, of which the hub knows. Refused: a visit of which the hub knows
/// nothing, and a value received behind a segment that is not done.
pub fn sample_agreement()
    ensures known { (h : Home ℕ) → came_back h ≡ two_sent ∷ [] → Agrees (h ∷ []) one_visit }
    ensures unknown { (h : Home ℕ) → came_back h ≡ [] → Agrees (h ∷ []) one_visit → ⊥ }
    ensures early { (h g : Home ℕ) → (IsDone h → ⊥) → Agrees (h ∷ g ∷ []) one_take → ⊥ }
{}

/// What a hub did. A segment is done once a pass came back that was told so. Refused: one that becomes done though the
/// pass was not told so, or since a pass was issued, and one that is done from the beginning.
pub fn sample_hubs()
    ensures told { (h g : Home ℕ) (v : View ℕ) → v.over ≡ true → HasTakenBack h g v → IsDone g }
    ensures untold { (h g : Home ℕ) (v : View ℕ) → (IsDone h → ⊥) → v.over ≡ false
        → IsDone g → HasTakenBack h g v → ⊥ }
    ensures issued { (h g : Home ℕ) (s : Arc (Segment ℕ Global) Global) (p : Pass ℕ)
        → (IsDone h → ⊥) → IsDone g → HasIssued h g s p → ⊥ }
    ensures new { (h : Home ℕ) → IsDone h → IsNew h → ⊥ }
{}

/// The view of an end that was given back. Admitted: one that counts for nothing. Refused: one that counts for a sender.
pub fn sample_spent()
    ensures spent { (hs : List (Home ℕ)) (all : List (Made ℕ)) (views : List (Knows ℕ)) (id : ℕ)
        → Fits hs all views id spent_view }
    ensures sender { (hs : List (Home ℕ)) (all : List (Made ℕ)) (views : List (Knows ℕ)) (id : ℕ)
        → Fits hs all views id (record spent_view { sends = 1 }) → ⊥ }
{}

/// The end. Two ends in two segments are admitted. Refused: a pass that is out once the last end has left, and an account
/// in a hub that no end's visits have. A second segment behind one that is not over, and an end given back twice.
pub fn sample_whole()
    ensures two { (h g : Home ℕ) → IsOver h → came_back h ≡ one_got ∷ two_sent ∷ []
        → came_back g ≡ one_sent ∷ [] → out_of h ≡ 0 → out_of g ≡ 0
        → IsWhole last_of_two (h ∷ g ∷ []) }
    ensures out { (h g : Home ℕ) → out_of h ≡ 1 → IsWhole last_of_two (h ∷ g ∷ []) → ⊥ }
    ensures stranger { (h : Home ℕ) → came_back h ≡ two_sent ∷ []
        → IsWhole first_view (h ∷ []) → ⊥ }
    ensures open_ { (h g : Home ℕ) → (IsOver h → ⊥) → IsWhole last_of_two (h ∷ g ∷ []) → ⊥ }
    ensures twice { (hs : List (Home ℕ)) → IsWhole given_twice hs → ⊥ }
{}

/// The segments at one moment. Admitted: a new segment, in which nothing waits. Refused: a state that does not keep the
/// rule, a hub that knows less than the list, and that nothing waits where a value does.
pub fn sample_moment()
    ensures new { (h : Home ℕ) → IsNew h → AreStates (λ _. unused 0) (h ∷ []) }
    ensures unkept { (h : Home ℕ) → AreStates (λ _. overslept) (h ∷ []) → ⊥ }
    ensures knows_less { (h : Home ℕ) → IsDone h → AreStates (λ _. unused 0) (h ∷ []) → ⊥ }
    ensures none { (h : Home ℕ) → NoneWaits (λ _. unused 0) (h ∷ []) }
    ensures waits { (h : Home ℕ) → NoneWaits (λ _. overslept) (h ∷ []) → ⊥ }
{
    mb_segment::samples::sample_states();
}

/// Places. Admitted: a place of an earlier segment lies before one of a later segment, and a call may have the place up to
/// which its end knew. Refused: the other way round, and a call at a place of which its end knew.
pub fn sample_places()
    ensures earlier { IsUpTo (place 0 9) (place 1 0) }
    ensures later { IsUpTo (place 1 0) (place 0 9) → ⊥ }
    ensures beyond { IsUpTo (place 1 4) (place 1 3) → ⊥ }
    ensures next { OneMore 10 (place 1 3) (place 1 4) [] (deed 1 (position 3 10) ∷ []) }
    ensures known { OneMore 10 (place 1 4) (place 1 4) [] (deed 1 (position 3 10) ∷ []) → ⊥ }
{}

/// A value that is given back. Admitted: a further end that sent it alone, to the place up to which the receiver knew, and
/// that none is given back by an end that did nothing. Refused: a place of which the receiver knew, no further end, and
/// that none is given back by an end that sent one.
pub fn sample_returned()
    ensures next { OneReturned 10 7 (place 1 3) [] (returner ∷ []) }
    ensures idle { NoneReturned 7 [] (record returner { sent = [] } ∷ []) }
    ensures known { OneReturned 10 7 (place 1 4) [] (returner ∷ []) → ⊥ }
    ensures renamed { OneReturned 10 8 (place 1 3) [] (returner ∷ []) → ⊥ }
    ensures lost { OneReturned 10 7 (place 1 3) (returner ∷ []) (returner ∷ []) → ⊥ }
    ensures sent { NoneReturned 7 [] (returner ∷ []) → ⊥ }
{}

/// The place of a call, in the one order. Admitted: the first of two calls in segment 0. Refused: a call in a segment
/// where nothing was sent.
pub fn sample_order()
    ensures first { (h g : Home ℕ) → came_back h ≡ one_got ∷ two_sent ∷ []
        → KeepsOrder (h ∷ g ∷ []) (deed 0 (position 0 10)) }
    ensures unsent { (h g : Home ℕ) → came_back h ≡ []
        → KeepsOrder (h ∷ g ∷ []) (deed 0 (position 0 10)) → ⊥ }
{}

/// An end, later. Admitted: the same end. Refused: one that went back, and one that forgot what it knew.
pub fn sample_later()
    ensures same { (v : Standing ℕ) → IsLater v v }
    ensures back { (v w : Standing ℕ) → w.chair.me.0.at < v.chair.me.0.at → IsLater v w → ⊥ }
    ensures forgot { (v w : Standing ℕ) → v.chair.me.0.at ≡ w.chair.me.0.at
        → known_there false w.pass < known_there false v.pass → IsLater v w → ⊥ }
    ensures forgot_takes { (v w : Standing ℕ) → v.chair.me.0.at ≡ w.chair.me.0.at
        → known_there true w.pass < known_there true v.pass → IsLater v w → ⊥ }
{}

/// An end behind the last segment. Admitted: one that was told so, of a closed list. Refused: one that is before the last
/// segment, one that saw a list that is open, with senders, and an end that was not told.
pub fn sample_behind()
    ensures closed { KnowsEnd (record (first_view {T = ℕ}) { shut = true; last = Some 0 }) }
    ensures before { KnowsEnd (record (first_view {T = ℕ}) { shut = true; last = Some 1 }) → ⊥ }
    ensures open_ { KnowsEnd (record (first_view {T = ℕ}) { last = Some 0 }) → ⊥ }
    ensures told { (e : End ℕ) → e.behind ≡ true → IsBehind e }
    ensures untold { (e : End ℕ) → e.behind ≡ false → IsBehind e → ⊥ }
{}

/// What waits. Admitted: 34 values in a segment and 36 in the next, of which its hub knows no claim. Refused: one value
/// more. A hub may leave a look out. Refused: a segment that was added beside the looks. The seat that counts has the
/// list. Refused: one that has it no more.
pub fn sample_waiting()
    ensures waiting { (l : Homes ℕ) (h g : Home ℕ) → l.list.items ≡ h ∷ g ∷ []
        → drawn_there h ≡ 64 → taken_there h ≡ 30 → drawn_there g ≡ 36 → taken_there g ≡ 0
        → AreWaiting l 70 }
    ensures more { (l : Homes ℕ) (h : Home ℕ) → l.list.items ≡ h ∷ []
        → drawn_there h ≡ 64 → taken_there h ≡ 30 → AreWaiting l 35 → ⊥ }
    ensures looked { (h : Home ℕ) → HaveLooked (h ∷ []) (h ∷ []) }
    ensures added { (h g : Home ℕ) → HaveLooked (h ∷ []) (h ∷ g ∷ []) → ⊥ }
    ensures had { (l : Homes ℕ) → l.first ≡ 0 → AreWaiting l 7
        → HasSummed l.list.items (Some 7) ((0, l) ∷ []) }
    ensures given { (hs : List (Home ℕ)) → HasSummed hs (Some 7) [] → ⊥ }
{}

/// Names. End 0, of name 7, sent 10 to segment 0. Admitted: a fate with that name. Refused: a fate with another name, a
/// visit under another name, and an end that is told fates and keeps the lock.
pub fn sample_fates()
    ensures right { IsTrue (seven ∷ []) 0 0 (fate 7) }
    ensures wrong { IsTrue (seven ∷ []) 0 0 (fate 8) → ⊥ }
    ensures named { HasNames seven }
    ensures renamed { HasNames (record seven { name = 8 }) → ⊥ }
    ensures holder { (told : Option (Fates ℕ)) (s : Step (Homes ℕ)) (v : Sat ℕ)
        → gives_fates told s v 0 v → ⊥ }
{}

/// An end that was told how many values wait. Its log and its tokens stay. Told nothing, it is as it was. Refused: that it
/// is so where it was told a number, and that it keeps the lock.
pub fn sample_lengths()
    ensures log { (n : ℕ) (e : End ℕ) → log_of (end_told (Some n) e) ≡ log_of e }
    ensures wakes { (n : ℕ) (e : End ℕ) → wakes_of (end_told (Some n) e) ≡ wakes_of e }
    ensures nothing { (e : End ℕ) → end_told None e ≡ e }
    ensures silent { (n : ℕ) (e : End ℕ) → end_told (Some n) e ≡ e → ⊥ }
    ensures holder { (told : Option ℕ) (s : Step (Homes ℕ)) (v : Sat ℕ)
        → gives_length told s v 0 v → ⊥ }
{}
