//! Samples of the definitions: what they admit, and what only looks right. The functions compute nothing: their
//! contracts are the samples.
ghost use Rattle.std.specs.Prelude.{[], ◌∷◌, ◌≡◌};
ghost use Rattle.mb_ring.specs.{Drew, FoundCut, IsAwake, IsCalm, IsCut, Keeps, KnowsCut, Room, SawAllGot, SawAllTaken, SawEmpty};
ghost use Rattle.mb_ring.specs.{IsShutOut, SawFull, Stand, Values, closing, dozes, drawn_in, drew, falls_asleep, found_full, has_closed, owes_both, owes_wake};
ghost use Rattle.mb_ring.specs.{sees_cut, turn, with_duty};
ghost use Rattle.mb_ring.specs.RingSamples.{boasting, crowded, cutter, entered, forgotten, got, one_asleep, one_dozing, overfull, overslept};
ghost use Rattle.mb_ring.specs.RingSamples.{no_room, patient, reused, saw_empty, saw_full, sent, shut_out, two_slots, unused};

/// The rule. A new ring is admitted. Refused: one that is cut before a pass is issued, and one with more values than
/// slots. Refused too: one whose slot is free again before its value was taken, and one with a send that did not happen.
/// Refused as well: two in which a receiver sleeps and nobody owes anything. In one a value waits, the other is cut. And
/// one in which a sender sleeps beside a free slot, and nobody owes anything. One may sleep as long as there are no goods,
/// or if one owes a token to all and the ring is cut. Refused: a receiver that sleeps in a new ring, and says that a
/// position was drawn before it found nothing.
pub fn sample_states()
    ensures new { Keeps (unused 0) }
    ensures cut { Keeps (unused 9223372036854775808) → ⊥ }
    ensures overfull { Keeps overfull → ⊥ }
    ensures reused { Keeps reused → ⊥ }
    ensures boasting { Keeps boasting → ⊥ }
    ensures overslept { Keeps overslept → ⊥ }
    ensures forgotten { Keeps forgotten → ⊥ }
    ensures crowded { Keeps crowded → ⊥ }
    ensures patient { IsAwake (Unit {0}) 0 one_asleep }
    ensures beside { IsAwake (Unit {0}) 1 one_asleep → ⊥ }
    ensures dozing { IsAwake ⊥ 1 one_dozing }
    ensures dozes { IsAwake (Unit {0}) 1 one_dozing → ⊥ }
    ensures dreams { Keeps (patient (Drew ∷ [])) → ⊥ }
    ensures open { (IsCut (unused 0) → ⊥) × (drawn_in (unused 9223372036854775809) ≡ 1) }
{}

/// Slots. Of two, slot 0 is free for position 2, and position 1 is marked. Positions 1 and 2 stand in slots 1 and 0, and
/// not the other way round.
pub fn sample_slots()
    ensures free { turn 2 (4 ∷ 1 ∷ []) 2 ≡ 4 }
    ensures marked { turn 2 (4 ∷ 1 ∷ []) 1 ≡ 3 }
    ensures stands { Stand 2 two_slots 1 (10 ∷ 11 ∷ []) }
    ensures turned { Stand 2 two_slots 1 (11 ∷ 10 ∷ []) → ⊥ }
{}

/// What a pass did and saw. Admitted: one that sent position 0 and saw one position claimed, and one that received it and
/// saw the ring full once, when one was claimed. Refused: that none was claimed, and that a call saw this without a look.
/// Who cut the ring knows of it, and owes tokens for both lists. Who only sent does not. One that found the ring open did
/// not find it cut. A pass that has drawn is not at rest. A sender that falls asleep owes a token to all until it knows
/// that the ring is open.
pub fn sample_views()
    ensures taken { SawAllTaken (saw_empty 1) }
    ensures waits { SawAllTaken (saw_empty 0) → ⊥ }
    ensures full { SawAllGot (saw_full 1) }
    ensures early { SawAllGot (saw_full 0) → ⊥ }
    ensures counted { found_full (saw_full 1) ≡ 1 }
    ensures found_nothing { SawEmpty sent (saw_empty 1) }
    ensures looked_before { SawEmpty (saw_empty 1) (saw_empty 1) → ⊥ }
    ensures found_no_room { SawFull 1 got (saw_full 1) }
    ensures drew_before { SawFull 1 (saw_full 1) (saw_full 1) → ⊥ }
    ensures found_cut { FoundCut 1 got (sees_cut got) × FoundCut 1 got (sees_cut (saw_full 1)) }
    ensures found_open { FoundCut 1 got got → ⊥ }
    ensures shut_out { IsShutOut shut_out }
    ensures no_room { IsShutOut no_room → ⊥ }
    ensures cutter { KnowsCut cutter }
    ensures nobody { KnowsCut sent → ⊥ }
    ensures calm { IsCalm sent }
    ensures busy { IsCalm (drew 1 11 sent) → ⊥ }
    ensures owes { IsCalm (with_duty Room owes_wake sent) → ⊥ }
    ensures both { (closing Values (owes_both sent) ≡ 1) × (closing Room (owes_both sent) ≡ 1) }
    ensures not_yet { dozes entered ≡ falls_asleep entered → ⊥ }
    ensures then { has_closed (dozes entered) ≡ falls_asleep entered }
{}
