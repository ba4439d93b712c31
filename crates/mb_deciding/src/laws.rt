//! What holds of every lawful history of one object, and of every trace. The functions compute nothing: their contracts
//! are the laws. The proofs begin in `proofs/laws`, in a folder of the law's name. They use the lemmas of `proofs`.
ghost use Rattle.std.specs.Prelude.{ℕ, ◌≡◌, ◌<◌, Option, List, [], ◌∷◌};
ghost use Rattle.mb_deciding.specs.{Object, ObjectIsSound, ObjectSetup, Access, Turn, Entry, Out, Conciliator, Ratifier};
ghost use Rattle.mb_deciding.specs.{ReadsLast, IsInWords, part, IsObjectLawful, IsPrefix, IsTrace};
ghost use Rattle.mb_deciding.specs.{IsDeciding, IsRatifying, IsFirstMover, ChecksKeepOut};

/// What each object promises its users. Each input has a path, which ends once and is bounded. Each word of the object
/// holds 0 or what a process can have stored there. Outputs are valid and coherent.
pub fn objects_keep_their_promises()
    ensures { (o : Object) → ObjectIsSound o → IsDeciding o }
{}

/// What a ratifier promises, too. It decides if all processes with an access have one input. An output is undecided
/// only if its own value and another one were announced.
pub fn ratifiers_decide_unless_contested()
    ensures { (o : Object) → ObjectIsSound o → o.kind ≡ Ratifier → IsRatifying o }
{}

/// If only one store was made to a conciliator, every output has the value stored: the input of the storing process.
pub fn first_movers_win()
    ensures { (o : Object) (s : ℕ) (h : List Access)
        → o.kind ≡ Conciliator s → IsObjectLawful o h → IsFirstMover o h }
{}

/// What a clear read of a ratifier rules out (`ChecksKeepOut`). The coherence of a ratifier rests on this. It holds of
/// the empty history, and after each access with which a lawful history stays lawful.
pub fn checks_keep_out()
    ensures empty { (o : Object) → ChecksKeepOut o [] }
    ensures kept { (o : Object) (h : List Access) (p : ℕ) (turn : Turn)
        → ObjectIsSound o → o.kind ≡ Ratifier → IsObjectLawful o h
        → o.inputs p < o.table.values → IsInWords turn → ReadsLast turn.act h
        → IsPrefix o.table o.kind (o.inputs p) (turn ∷ part p h)
        → ChecksKeepOut o (record { process = p; turn = turn } ∷ h) }

    // So it holds of every lawful history.
    ensures lawful { (o : Object) (h : List Access)
        → ObjectIsSound o → o.kind ≡ Ratifier → IsObjectLawful o h → ChecksKeepOut o h }
{}

/// A schedule has one trace at most: entries and outputs are determined by the object, its inputs and the schedule.
pub fn schedules_have_one_trace()
    ensures { (u : ObjectSetup) (schedule : List (ℕ × ℕ)) (es fs : List Entry)
        (outs others : List (Option Out))
        → IsTrace u schedule es outs → IsTrace u schedule fs others → (es ≡ fs) × (outs ≡ others) }
{}
