//! Samples of the words about what an end does and owes in its segment. The functions compute nothing: their contracts
//! are the samples.
ghost use Rattle.std.specs.Prelude.{ℕ, Some, ◌≡◌};
ghost use Rattle.mb_channel.specs.Answers.{IfUnmade};
ghost use Rattle.mb_channel.specs.Begun.{HasBegun};
ghost use Rattle.mb_channel.specs.Ends.{Standing};
ghost use Rattle.mb_channel.specs.HalfSamples.{OwesWake};
ghost use Rattle.mb_channel.specs.Kept.{OfPosted, kept_told, stand_kept};
ghost use Rattle.mb_channel.specs.Posted.{HasPosted};
ghost use Rattle.mb_channel.specs.Standing.{NoMore, sent_in};
ghost use Rattle.mb_channel.specs.Types.{Pass};
ghost use Rattle.mb_channel.specs.Work.{IsStill, Work, work_of};
ghost use Rattle.mb_channel.specs.declared.busy.Busy.{Busy};
ghost use Rattle.mb_channel.specs.declared.busy.Debt.TheVariants as owed;
ghost use Rattle.mb_channel.specs.declared.channel.Refused.TheVariants.{Closed, Crowded, NoMemory};
ghost use Rattle.mb_channel.specs.declared.kept.KeptSender.{KeptSender};
ghost use Rattle.mb_channel.specs.declared.posting.Posted.TheVariants as posted;

/// A pass that has begun something, and owes a wake besides. Refused: that it owes nothing.
pub fn sample_begun()
    ensures owes { (p : Pass ℕ) → OwesWake p → HasBegun 3 owed.Token p }
    ensures nothing { (p : Pass ℕ) → OwesWake p → HasBegun 3 owed.Nothing p → ⊥ }
{}

/// A value that comes back from a try to send in place, since another was first. Refused: another value, and that
/// something is owed.
pub fn sample_posted()
    ensures again { (v : Work ℕ) (b : Busy ℕ) → IsStill v (work_of b) → b.debt ≡ owed.Nothing
        → HasPosted (posted.Again 10) 10 v b }
    ensures owes { (v : Work ℕ) (b : Busy ℕ) → b.debt ≡ owed.Token
        → HasPosted (posted.Again 10) 10 v b → ⊥ }
    ensures still { (v w : Standing ℕ) → NoMore v w
        → OfPosted (posted.Again 10) 10 v w (Unit {0}) }
    ensures other { (v w : Standing ℕ) → OfPosted (posted.Again 11) 10 v w (Unit {0}) → ⊥ }
{}

/// A kept sender that was told a length. What it sent stays. Refused: that it is as it was.
pub fn sample_told_length()
    ensures sent { (n : ℕ) (k : KeptSender ℕ) → sent_in (stand_kept (kept_told (Some n) k))
        ≡ sent_in (stand_kept k) }
    ensures silent { (n : ℕ) (k : KeptSender ℕ) → kept_told (Some n) k ≡ k → ⊥ }
{}

/// A call that was refused before it made a sender. Admitted: since there are too many ends. Refused: for memory, and by
/// "closed" where the channel is not.
pub fn sample_unmade()
    ensures crowded { IfUnmade Crowded ⊥ }
    ensures memory { IfUnmade NoMemory (Unit {0}) → ⊥ }
    ensures closed { IfUnmade Closed ⊥ → ⊥ }
{}
