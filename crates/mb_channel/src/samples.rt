//! Samples of the theorem's definitions: what they admit, and what only looks right. The functions compute nothing:
//! their contracts are the samples.
ghost use Rattle.std.specs.Prelude.{ℕ, Some, [], ◌+◌, ◌∷◌, ◌≡◌, true, false};
ghost use Rattle.mb_segment.specs.Vocabulary.{SawAllTaken, found_empty};
ghost use Rattle.mb_channel.specs.ChannelSamples.{forgotten, one_sender, one_taken, overtaken, overtaken_life, swapped_life};
ghost use Rattle.mb_channel.specs.ChannelSamples.{taken_twice, two_and_two, two_segments, two_taken, unheeded, unheeded_life, unheeded_take};
ghost use Rattle.mb_channel.specs.ChannelSamples.{ended, refused_beside_a_receiver, sleepers, told_beside_a_sender, told_too_soon, two_forsaken, two_wait, value_behind};
ghost use Rattle.mb_channel.specs.ChannelSamples.{last_drawn, last_forgotten, looked_for, overslept, slept_past_the_end, slept_through_the_end, token_elsewhere};
ghost use Rattle.mb_channel.specs.ChannelTheorem.{EachBounded, EachMoment, TakenInTurn, WholeLife};
ghost use Rattle.mb_channel.specs.ChannelSamples.{call, claim, entry, history, receiver, sender};
ghost use Rattle.mb_channel.specs.LifeSamples.{TellsOf, by_passes, ends_for_passes, last_end, one_got, stay, two_ends, two_sent, two_stays};
ghost use Rattle.mb_channel.specs.Homes.{IsDone, IsNext, came_back, first_view};
ghost use Rattle.mb_channel.specs.Tallies.{KnowsLast};
ghost use Rattle.mb_channel.specs.Types.{Home, View};
ghost use Rattle.mb_channel.specs.Segments.{AreLogs, EachKeeps, InTurn, KeepsEnd};
ghost use Rattle.mb_channel.specs.Stays.{AllBy, AllTo, AreApart, DidSo, Told, by_ends};
ghost use Rattle.mb_channel.specs.Lives.{HaveEnded, end_in};
ghost use Rattle.mb_channel.specs.Ends.{stand_of};
ghost use Rattle.mb_channel.specs.Inside.{SawNothing};
ghost use Rattle.mb_channel.specs.Receives.{FoundNone, SawEmpty};
ghost use Rattle.mb_channel.specs.Wakes.{Tells, wakes};
ghost use Rattle.mb_channel.specs.declared.end.End.{End};

/// Points 1 to 3. A life over two segments is admitted. Refused: values of one sender in another order, and a value before
/// one that its sender knew of. A value that two received, and a take before one that its receiver knew of. A value that
/// overtook another, one that its taker did not receive, and one that is left and not given back.
pub fn sample_lives()
    ensures admitted { WholeLife two_segments two_and_two (11 ∷ []) }
    ensures swapped { WholeLife swapped_life one_sender (11 ∷ 10 ∷ []) → ⊥ }
    ensures unheeded { WholeLife unheeded_life unheeded (20 ∷ 10 ∷ []) → ⊥ }
    ensures twice { WholeLife one_taken taken_twice [] → ⊥ }
    ensures unheeded_take { WholeLife two_taken unheeded_take [] → ⊥ }
    ensures overtaken { WholeLife overtaken_life overtaken (10 ∷ []) → ⊥ }
    ensures forgotten { WholeLife one_taken forgotten [] → ⊥ }
    ensures lost { WholeLife two_segments two_and_two [] → ⊥ }
{}

/// Point 4. An end after all was taken is admitted. Refused: "closed" told beside a value or a sender, an empty segment
/// with a value before it, and a send that is refused beside a receiver.
pub fn sample_answers()
    ensures ended { EachMoment ended }
    ensures too_soon { EachMoment told_too_soon → ⊥ }
    ensures sender { EachMoment told_beside_a_sender → ⊥ }
    ensures behind { EachMoment value_behind → ⊥ }
    ensures refused { EachMoment refused_beside_a_receiver → ⊥ }
{}

/// Point 5. One that sleeps beside a value is admitted while the value's sender owes a look. Refused: that nobody does,
/// that a token is there for it in another segment, and that one sleeps after the end, in a segment cut or not.
pub fn sample_sleep()
    ensures looked_for { EachMoment looked_for }
    ensures overslept { EachMoment overslept → ⊥ }
    ensures elsewhere { EachMoment token_elsewhere → ⊥ }
    ensures past_the_end { EachMoment slept_past_the_end → ⊥ }
    ensures through_the_end { EachMoment slept_through_the_end → ⊥ }
{}

/// Two values wait, with a bound of 2: a send is told "full", and a sender may sleep. Refused: a bound of 1 if none
/// came back, "full" with a bound of 3, and a sender that sleeps beside room or after the last receiver's end.
pub fn sample_bounds()
    ensures full { EachBounded 2 0 (sleepers 1 0 0 0) true two_wait }
    ensures returned { EachBounded 1 1 (sleepers 1 0 0 0) true two_wait }
    ensures above { EachBounded 1 0 (sleepers 0 0 0 0) false two_wait → ⊥ }
    ensures not_full { EachBounded 3 0 (sleepers 0 0 0 0) true two_wait → ⊥ }
    ensures beside_room { EachBounded 3 0 (sleepers 1 0 0 0) false two_wait → ⊥ }
    ensures forsaken { EachBounded 2 0 (sleepers 1 0 0 0) false two_forsaken → ⊥ }
{}

/// What laws ask of segments. Admitted: what the moments and lives above keep, and a sleeper beside a value for which the
/// sender of the last position owes tokens to all. Refused: that it owes one wake alone, and that nobody owes any. A
/// segment visited past a value, and "closed" told beside one. A value that overtook another, and a take that no end logs.
pub fn sample_segments()
    ensures kept { EachKeeps looked_for.segments × InTurn looked_for.segments × KeepsEnd ended }
    ensures last { EachKeeps last_drawn.segments × InTurn last_drawn.segments
        × EachMoment last_drawn }
    ensures forgotten { EachKeeps last_forgotten.segments → ⊥ }
    ensures overslept { EachKeeps overslept.segments → ⊥ }
    ensures behind { InTurn value_behind.segments → ⊥ }
    ensures told { KeepsEnd told_too_soon → ⊥ }
    ensures turn { TakenInTurn two_segments × AreLogs two_segments two_and_two (11 ∷ []) }
    ensures overtaken { TakenInTurn overtaken_life → ⊥ }
    ensures unlogged { AreLogs one_taken forgotten [] → ⊥ }
{}

/// A segment tells what two passes did, and so what two ends did. Refused: ends that go by the numbers of passes, an end
/// with two passes, a pass that did something else, and one that nobody had.
pub fn sample_stays()
    ensures told { TellsOf two_ends (11 ∷ []) }
    ensures named { (t : Told ℕ) → t.history ≡ by_passes → t.stays ≡ two_stays
        → by_ends t ≡ history (claim 1 10 0 ∷ []) (entry 1 11 ∷ []) }
    ensures passes { TellsOf ends_for_passes (11 ∷ []) → ⊥ }
    ensures twice { AreApart (stay 0 1 [] [] ∷ stay 1 1 [] [] ∷ []) → ⊥ }
    ensures otherwise { DidSo by_passes (stay 1 0 [] [] ∷ []) → ⊥ }
    ensures sender { AllBy (stay 1 0 [] [] ∷ []) (entry 0 10 ∷ []) → ⊥ }
    ensures receiver { AllTo (stay 0 1 [] [] ∷ []) (claim 0 10 1 ∷ []) → ⊥ }
{}

/// What two ends did, read off their visits. `call p x k` is a call of value x at place p, whose end knew of those below
/// k. Refused: a value that is left where none can come, or that nobody sent; a segment that did not end; and a receiver
/// that comes past one where values can come.
pub fn sample_visits()
    ensures sends { (h g : Home ℕ) → came_back h ≡ one_got ∷ two_sent ∷ []
        → end_in last_end (h ∷ g ∷ []) 0
        ≡ sender (call 0 10 0 ∷ call 1 11 1 ∷ call 2 12 2 ∷ []) }
    ensures takes { (h g : Home ℕ) → came_back h ≡ one_got ∷ two_sent ∷ []
        → end_in last_end (h ∷ g ∷ []) 1 ≡ receiver (call 0 10 0 ∷ []) }
    ensures ended { (h : Home ℕ) → came_back h ≡ [] → HaveEnded (h ∷ []) ([] ∷ []) }
    ensures done { (h : Home ℕ) → IsDone h → HaveEnded (h ∷ []) ((11 ∷ []) ∷ []) → ⊥ }
    ensures unsent { (h : Home ℕ) → came_back h ≡ [] → HaveEnded (h ∷ []) ((11 ∷ []) ∷ []) → ⊥ }
    ensures forgotten { (h : Home ℕ) → HaveEnded (h ∷ []) [] → ⊥ }
    ensures next { (h g : Home ℕ) → IsDone h → IsNext (h ∷ g ∷ []) 1 }
    ensures past { (h g : Home ℕ) → (IsDone h → ⊥) → IsDone g → IsNext (h ∷ g ∷ []) 2 → ⊥ }
{}

/// An end is told "closed" where it saw that no sender is left, or that the list is closed. Refused: that it saw neither.
pub fn sample_told()
    ensures alone { KnowsLast 2 (record (first_view {T = ℕ}) { sends = 0 })
        (record first_view { sends = 0; alone = true; last = Some 2 }) }
    ensures sender { KnowsLast 2 (first_view {T = ℕ})
        (record first_view { alone = true; last = Some 2 }) → ⊥ }
    ensures shut { KnowsLast 2 (first_view {T = ℕ})
        (record first_view { shut = true; last = Some 2 }) }
    ensures neither { KnowsLast 2 (first_view {T = ℕ}) (record first_view { last = Some 2 }) → ⊥ }
{}

/// A receiver finds its segment empty. Admitted: it looked in the call, and all was claimed that it had sent or seen.
/// Refused: it looked only before the call. So of an end, and of its looks behind the last segment.
pub fn sample_empty()
    ensures looked { (v w : View ℕ) → SawAllTaken w → found_empty w ≡ found_empty v + 1
        → SawNothing (found_empty v) w }
    ensures before { (v : View ℕ) → SawNothing (found_empty v) v → ⊥ }
    ensures end { (e : End ℕ) → SawEmpty (stand_of e) (stand_of e) → ⊥ }
    ensures none { (e f : End ℕ) → f.chair.me.0.inside ≡ false
        → f.chair.me.0.found ≡ e.chair.me.0.found + 1 → FoundNone (stand_of e) (stand_of f) }
    ensures stale { (e : End ℕ) → FoundNone (stand_of e) (stand_of e) → ⊥ }
{}

/// What a caller was told. Admitted: of a token given, and of none while one is still to be told. Refused: of none though
/// a token was given, and of one that was not given.
pub fn sample_wakes()
    ensures told { Tells 1 (wakes 0 0) (wakes 1 0) }
    ensures untold { Tells 0 (wakes 0 0) (wakes 1 1) }
    ensures silent { Tells 0 (wakes 0 0) (wakes 1 0) → ⊥ }
    ensures needless { Tells 1 (wakes 0 0) (wakes 0 0) → ⊥ }
{}
