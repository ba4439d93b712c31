//! Samples of the words about the two halves of a call. The functions compute nothing: their contracts are the samples.
ghost use Rattle.std.specs.Prelude.{ℕ, [], false, ◌∷◌, ◌≡◌};
ghost use Rattle.mb_segment.specs.declared.view.Half.TheVariants.{Nothing};
ghost use Rattle.mb_channel.specs.Begun.{half_in};
ghost use Rattle.mb_channel.specs.Claiming.{OfClaiming};
ghost use Rattle.mb_channel.specs.Deeds.{deed};
ghost use Rattle.mb_channel.specs.Drawing.{OfDrawing};
ghost use Rattle.mb_channel.specs.Ends.{Standing};
ghost use Rattle.mb_channel.specs.HalfSamples.{Claimed, ClaimedTen, DrewTen, Drawn, Halfway, Receiver, Sender};
ghost use Rattle.mb_channel.specs.Halves.{EndsWith, IsReader, IsWriter, stand_half};
ghost use Rattle.mb_channel.specs.HomeSamples.{place};
ghost use Rattle.mb_channel.specs.LifeSamples.{position};
ghost use Rattle.mb_channel.specs.Standing.{OneGot, OneSent};
ghost use Rattle.mb_channel.specs.declared.channel.Refused.TheVariants.{Closed};
ghost use Rattle.mb_channel.specs.declared.claiming.Claiming.TheVariants as claiming;
ghost use Rattle.mb_channel.specs.declared.drawing.Drawing.TheVariants as drawing;

/// The last call of a log. Admitted: the second of two calls. Refused: its place with another value, the first of two
/// calls, and any call of an empty log.
pub fn sample_last()
    ensures last { EndsWith (place 1 3) 11 (deed 0 (position 2 10) ∷ deed 1 (position 3 11) ∷ []) }
    ensures value { EndsWith (place 1 3) 10 (deed 1 (position 3 11) ∷ []) → ⊥ }
    ensures first { EndsWith (place 0 2) 10
        (deed 0 (position 2 10) ∷ deed 1 (position 3 11) ∷ []) → ⊥ }
    ensures none { EndsWith {T = ℕ} (place 0 2) 10 [] → ⊥ }
{}

/// Whoever has to write what it sent last. Admitted: one that drew a position for that. Refused: one that has begun
/// nothing, and one that claimed a position.
pub fn sample_writer()
    ensures drew { (h : Halfway ℕ) → DrewTen h → IsWriter h }
    ensures idle { (h : Halfway ℕ) → half_in h.begun.pass ≡ Nothing → IsWriter h → ⊥ }
    ensures claimed { (h : Halfway ℕ) → ClaimedTen h → IsWriter h → ⊥ }
{}

/// Whoever has to read what it received last. Admitted: one that claimed the position of that. Refused: one that drew a
/// position.
pub fn sample_reader()
    ensures claimed { (h : Halfway ℕ) → ClaimedTen h → IsReader h }
    ensures drew { (h : Halfway ℕ) → DrewTen h → IsReader h → ⊥ }
{}

/// What came of a draw for 10. Admitted: a place for it. Refused: a place for 11, and "closed" told to a sender that is
/// not behind the last segment.
pub fn sample_drawing()
    ensures drew { (d : Drawn ℕ) (v : Standing ℕ) → DrewTen d.half
        → OneSent 10 v (stand_half d.half) → OfDrawing (drawing.At d) 10 v }
    ensures other { (d : Drawn ℕ) (v : Standing ℕ) → DrewTen d.half
        → OfDrawing (drawing.At d) 11 v → ⊥ }
    ensures open_ { (s : Sender ℕ) (v : Standing ℕ) → s.end.behind ≡ false
        → OfDrawing (drawing.Refused s Closed) 10 v → ⊥ }
{}

/// What came of a claim. Admitted: a place, whose value counts as received. Refused: a place though nothing was received,
/// and "closed" told to a receiver that is not behind the last segment.
pub fn sample_claiming()
    ensures claimed { (c : Claimed ℕ) (v : Standing ℕ) → ClaimedTen c.half
        → OneGot 10 v (stand_half c.half) → OfClaiming (claiming.At c) v }
    ensures nothing { (c : Claimed ℕ) → OfClaiming (claiming.At c) (stand_half c.half) → ⊥ }
    ensures open_ { (r : Receiver ℕ) (v : Standing ℕ) → r.end.behind ≡ false
        → OfClaiming (claiming.Refused r Closed) v → ⊥ }
{}
