//! Samples of the definitions: what they admit, and what only looks right. The functions compute nothing: their
//! contracts are the samples.
ghost use Rattle.std.specs.Prelude.{List, None, Some, [], ℕ, ◌∷◌, ◌≡◌};
ghost use Rattle.mb_segment.specs.{Heeds, IsCalm, IsCut, IsOver, IsWhole, Keeps, MaySend, MayTake, Rises, SawAllTaken};
ghost use Rattle.mb_segment.specs.{AreTrue, Claimed, Drew, FindsEmpty, FoundFull, GoesOn, blank, draws, sent_by, times_empty, times_full};
ghost use Rattle.mb_segment.specs.{OfFate, drawn_in, fate_of, got_by, learns_drawn, learns_taken, owes_wake, waiting_after, with_duty};
ghost use Rattle.mb_segment.specs.SegmentSamples.{cutter, falling, fate, foreknown, forgotten, giver, history, knowing, overslept};
ghost use Rattle.mb_segment.specs.SegmentSamples.{false_walk, full_walk, looked_after, marked_as, walk, with_names};
ghost use Rattle.mb_segment.specs.SegmentSamples.{receiver, saw, sender, taken, unpaid, unused, view, woken};

/// The end. Two accounts and what is left of one history are admitted. Refused: a value that two received, two that cut,
/// and a send to a position that its pass knew to be drawn.
pub fn sample_ends()
    ensures admitted { IsWhole (sender ∷ receiver ∷ []) (11 ∷ []) }
    ensures twice { (left : List ℕ) → IsWhole (receiver ∷ receiver ∷ []) left → ⊥ }
    ensures cutters { (left : List ℕ) → IsWhole (cutter ∷ cutter ∷ []) left → ⊥ }
    ensures unheeded { (left : List ℕ) → IsWhole (foreknown ∷ receiver ∷ []) left → ⊥ }
{}

/// Fates. Admitted: the names of who sent a value and who received it, of a value that waits the sender's name alone, and
/// none where nothing was sent. Refused: the two names swapped, a receiver of a value that waits, none of a value that was
/// sent, and one where nothing was sent.
pub fn sample_fates()
    ensures received { OfFate with_names 0 (Some (fate (Some 7) (Some 8))) }
    ensures swapped { OfFate with_names 0 (Some (fate (Some 8) (Some 7))) → ⊥ }
    ensures waits { OfFate with_names 1 (Some (fate (Some 7) None)) }
    ensures from_nowhere { OfFate with_names 1 (Some (fate (Some 7) (Some 8))) → ⊥ }
    ensures unsent { OfFate with_names 2 None × (OfFate with_names 1 None → ⊥) }
    ensures made_up { OfFate with_names 2 (Some (fate (Some 7) None)) → ⊥ }
    ensures states { (fate_of 34359738376 ≡ Some (fate (Some 7) (Some 8)))
        × (fate_of 1 ≡ Some (fate None None)) × (fate_of 0 ≡ None) }
{}

/// The rule. A new segment is admitted, and one with a token that a pass gave, taken or not. Refused: a token that nobody
/// gave, taken or not, a segment that is cut before a pass is issued, one whose hub owes a wake, a state with a name that
/// its sender does not have, and two segments in which a receiver sleeps and nobody owes anything. In one of these a value
/// waits, in the other no more will be drawn.
pub fn sample_states()
    ensures new { Keeps (unused 0) }
    ensures cut { Keeps (unused 9223372036854775808) → ⊥ }
    ensures overslept { Keeps overslept → ⊥ }
    ensures forgotten { Keeps forgotten → ⊥ }
    ensures unpaid { Keeps unpaid → ⊥ }
    ensures misnamed { Keeps (marked_as 7) → ⊥ }
    ensures given { Keeps (woken giver) }
    ensures from_nobody { Keeps (woken blank) → ⊥ }
    ensures taken { Keeps (taken giver) }
    ensures taken_from_nobody { Keeps (taken blank) → ⊥ }
    ensures full { IsOver (unused 1) × (IsCut (unused 1) → ⊥) }
    ensures open { (IsOver (unused 0) → ⊥) × (drawn_in (unused 9223372036854775809) ≡ 1) }
{}

/// What a pass has learned of. Admitted: calls at positions that are not below what it knew of. Refused: a call below
/// that, and one that knows of a position that nobody drew.
pub fn sample_knowledge()
    ensures heeds { Heeds sender.sent sender.sent_knew }
    ensures unheeded { Heeds foreknown.sent foreknown.sent_knew → ⊥ }
    ensures sends { MaySend 1 (learns_drawn 1 (view receiver)) }
    ensures too_low { MaySend 0 (learns_drawn 1 (view receiver)) → ⊥ }
    ensures takes { MayTake 1 (learns_taken 1 (view receiver)) }
    ensures taken { MayTake 0 (learns_taken 1 (view receiver)) → ⊥ }
    ensures made_up { Keeps (knowing 1) → ⊥ }
{}

/// What a pass did and saw. Admitted: one that sent position 0 and saw one position claimed, and one that owes nothing.
/// Refused: that it saw none claimed, and that it owes a wake. Positions rise.
pub fn sample_views()
    ensures taken { SawAllTaken (saw 1) }
    ensures waits { SawAllTaken (saw 0) → ⊥ }
    ensures calm { IsCalm (view sender) }
    ensures owes { IsCalm (with_duty owes_wake (view sender)) → ⊥ }
    ensures rises { Rises 0 sender.sent }
    ensures falls { Rises 0 falling → ⊥ }
    ensures sent { (sent_by 1 history ≡ sender.sent) × (sent_by 2 history ≡ []) }
    ensures got { (got_by 2 history ≡ receiver.got) × (got_by 1 history ≡ []) }
{}

/// Walks of one position. Admitted: a look that found nothing once the position was claimed, one that found no room once
/// it was drawn, and a state in which a pass looked before that, and looks again. Refused: a look that found nothing while
/// a value waits, one that found no room while none does, a claim of nothing, and states with such a look.
pub fn sample_walks()
    ensures empty { AreTrue 1 walk × AreTrue 1 full_walk }
    ensures waits { AreTrue 1 false_walk → ⊥ }
    ensures room { AreTrue 1 (FoundFull 2 ∷ []) → ⊥ }
    ensures claim { AreTrue 1 (Claimed ∷ []) → ⊥ }
    ensures times { (times_empty 2 walk ≡ 1) × (times_empty 1 walk ≡ 0)
        × (times_full 2 full_walk ≡ 1) }
    ensures counts { (draws walk ≡ 1) × (waiting_after walk ≡ 0) × (waiting_after false_walk ≡ 1) }
    ensures later { GoesOn (Drew ∷ []) walk }
    ensures back { GoesOn walk (Drew ∷ []) → ⊥ }
    ensures looked { Keeps (looked_after []) }
    ensures overlooked { Keeps (looked_after (Drew ∷ [])) → ⊥ }
    ensures looks { FindsEmpty (looked_after []) }
    ensures overlooks { FindsEmpty overslept → ⊥ }
{}
