//! Laws for builders of worlds and of tables of shared words: one more step of a lawful history, and the places of
//! processes. A table that keeps the words of an object needs `history_extends` for its rule, and `places_lead_on` for
//! the next turn of a process at its place. The functions compute nothing: their contracts are the laws. The proofs
//! begin in `proofs/steps`, in a folder of the law's name.
ghost use Rattle.std.specs.Prelude.{ℕ, ◌≡◌, ◌+◌, ◌*◌, ◌<◌, ◌≤◌, List, [], ◌∷◌};
ghost use Rattle.mb_quorum.specs.Quorum.{QuorumTable, IsQuorumTable};
ghost use Rattle.mb_deciding.specs.{Object, ObjectIsSound, Kind, Access, Turn, Act, Op, Pc, Out};
ghost use Rattle.mb_deciding.specs.{ReadsLast, IsInWords, part, IsObjectLawful, IsPrefix, IsOpen, IsPath};
ghost use Rattle.mb_deciding.specs.{HasReg, PcIsAt, IsOpAt, CanFind, turn_after, seen_by, reg_of};
ghost use Rattle.mb_deciding.specs.{IsSameOp, IsPlace, most_turns, turns_left, Conciliator, Ratifier};

/// The empty history is lawful. A lawful history stays so with one turn more of a process with an input of the table,
/// if the turn is true to memory, is in words, and gives the process a prefix of a path.
pub fn history_extends()
    ensures empty { (o : Object) → IsObjectLawful o [] }
    ensures longer { (o : Object) (h : List Access) (p : ℕ) (turn : Turn)
        → IsObjectLawful o h → o.inputs p < o.table.values → IsInWords turn → ReadsLast turn.act h
        → IsPrefix o.table o.kind (o.inputs p) (turn ∷ part p h)
        → IsObjectLawful o (record { process = p; turn = turn } ∷ h) }
{}

/// After a lawful history a process at its place has a prefix of a path with its next turn, if that is true to memory.
pub fn places_lead_on()
    ensures prefix { (o : Object) (h : List Access) (p : ℕ) (pc : Pc) (op : Op) (word : ℕ)
        → ObjectIsSound o → IsObjectLawful o h
        → PcIsAt o.table o.kind (o.inputs p) pc (part p h) → IsOpAt o.table pc op
        → IsPrefix o.table o.kind (o.inputs p) (turn_after op word h ∷ part p h) }

    // The value that the history leaves in the word is one that the process may find there.
    ensures found { (o : Object) (h : List Access) (p : ℕ) (pc : Pc) (op : Op)
        → ObjectIsSound o → IsObjectLawful o h
        → PcIsAt o.table o.kind (o.inputs p) pc (part p h) → IsOpAt o.table pc op
        → CanFind o.table pc op (seen_by op h) }

    // The act of a turn that finds what the history leaves in its word is true to memory.
    ensures reads { (op : Op) (word : ℕ) (h : List Access)
        → ReadsLast (turn_after op word h).act h }
{}

/// The turns of a process at a place are an open prefix of a path. Its next op goes to a word of the object.
pub fn places_are_unfinished()
    ensures open { (t : QuorumTable) (kind : Kind) (v : ℕ) (pc : Pc) (turns : List Turn)
        → IsQuorumTable t → PcIsAt t kind v pc turns → IsOpen t kind v turns }
    ensures prefix { (t : QuorumTable) (kind : Kind) (v : ℕ) (pc : Pc) (turns : List Turn)
        → IsQuorumTable t → PcIsAt t kind v pc turns → IsPrefix t kind v turns }
    ensures unfinished { (t : QuorumTable) (kind : Kind) (v : ℕ) (pc : Pc) (turns : List Turn)
        (out : Out)
        → IsQuorumTable t → PcIsAt t kind v pc turns → IsPath t kind v turns out → ⊥ }
    ensures word { (t : QuorumTable) (kind : Kind) (v : ℕ) (pc : Pc) (turns : List Turn) (op : Op)
        → IsQuorumTable t → PcIsAt t kind v pc turns → IsOpAt t pc op
        → HasReg t.registers kind (reg_of op) }
{}

/// The turns that a process has made determine its next op, whatever memory holds.
pub fn turns_name_the_next_op()
    ensures op { (t : QuorumTable) (kind : Kind) (v : ℕ) (turns : List Turn) (a b : Turn)
        → IsPrefix t kind v (a ∷ turns) → IsPrefix t kind v (b ∷ turns) → IsSameOp a.act b.act }

    // So if the same turns led to two places, both have the same next op.
    ensures places { (t : QuorumTable) (kind : Kind) (v : ℕ) (turns : List Turn) (pc other : Pc)
        (op next : Op)
        → IsQuorumTable t → PcIsAt t kind v pc turns → PcIsAt t kind v other turns
        → IsOpAt t pc op → IsOpAt t other next → op ≡ next }

    // Two acts of one op that are true to memory after one history are equal.
    ensures act { (a b : Act) (h : List Access)
        → IsSameOp a b → ReadsLast a h → ReadsLast b h → a ≡ b }
{}

/// A process at a place has an access to make, and at most `turns_left` of them. That number falls with each access,
/// whatever its loads find ([`crate::Pc::after`] says so). The first places say with how many it begins.
pub fn places_have_turns_left()
    ensures some { (t : QuorumTable) (pc : Pc) → IsPlace t pc → 0 < turns_left t pc }

    // No more accesses are left than a whole path through the object may have.
    ensures most { (t : QuorumTable) (kind : Kind) (v : ℕ) (pc : Pc) (turns : List Turn)
        → v < t.values → PcIsAt t kind v pc turns → turns_left t pc ≤ most_turns t kind }
{}

/// How many accesses a process makes at most on a ratifier, by its number of registers, and on a conciliator, by its
/// last attempt s. A budget with room for so many is enough to go through the object.
pub fn paths_are_short()
    ensures ratifier { (t : QuorumTable)
        → IsQuorumTable t → most_turns t Ratifier ≤ 2 * t.registers + 2 }
    ensures conciliator { (t : QuorumTable) (s : ℕ) → most_turns t (Conciliator s) ≡ s + 3 }
{}
