//! The places of processes in deciding objects: the first, the next access of each, and what that leads to.
use crate::access::Op;
use crate::memory::Memory;
use crate::object::{Kind, Out};
use mb_quorum::Quorums;

mod conciliator;
mod conciliator_steps;
mod last;
mod mask;
mod pc;
mod ratifier;
mod ratifier_steps;
mod straight;

pub use conciliator::ConciliatorPlace;
pub use last::LastPlace;
pub use pc::{Next, Pc};
pub use ratifier::RatifierPlace;
pub use straight::{through_conciliator, through_last, through_ratifier};

impl Pc {
    ghost use Rattle.std.specs.Prelude.{◌≡◌, ◌<◌, ◌≤◌, ℕ, List, [], ◌∷◌};
    ghost use Rattle.mb_quorum.specs.Quorum.{QuorumTable};
    ghost use Rattle.mb_deciding.specs.{Op, Turn, Kind, Conciliator, Ratifier, LastObject, PcIsAt, IsPlace, IsOpAt, IsNext};
    ghost use Rattle.mb_deciding.specs.{IsReached, CanFind, act_of, IsStep, next_from, turns_left, turns_after, most_turns};
    ghost use Rattle.mb_deciding.specs.{first_place};

    /// The place of a process with this input before its first access to a ratifier. Any input will do here, but the
    /// clauses speak of tables that have it as a value.
    pub fn ratifier(input: u32) -> Pc
        ensures begins { (t : QuorumTable) → input < t.values → PcIsAt t Ratifier input result [] }
        ensures fits { (t : QuorumTable) → input < t.values → IsPlace t result }
        ensures bound { (t : QuorumTable) → input < t.values
            → turns_left t result ≤ most_turns t Ratifier }
    {
        Pc::InRatifier(RatifierPlace::Begin { input })
    }

    /// The place of a process with this input before its first access to a ratifier. The registers of its write quorum
    /// are already taken from the table, so it needs an input below the table's number of values.
    #[inline(always)]
    pub fn announcing<Q: Quorums>(q: &Q, input: u32) -> Pc
        requires { input < (Q.table q.now).values }
        ensures begins { PcIsAt (Q.table q.now) Ratifier input result [] }
        ensures fits { IsPlace (Q.table q.now) result }
        ensures bound { turns_left (Q.table q.now) result ≤ most_turns (Q.table q.now) Ratifier }
        ensures exact { result ≡ first_place (Q.table q.now) Ratifier input }
    {
        let left = q.write_quorum(input);
        Pc::InRatifier(RatifierPlace::Announce { input, left })
    }

    /// The place of a process with this input before its first access to a conciliator whose last attempt is `s`. It
    /// needs an `s` of at most 63. Any input will do, as for [`Pc::ratifier`].
    #[inline(always)]
    pub fn conciliator(input: u32, s: u32) -> Pc
        requires { s ≤ 63 }
        ensures begins { (t : QuorumTable) → input < t.values
            → PcIsAt t (Conciliator s) input result [] }
        ensures fits { (t : QuorumTable) → input < t.values → IsPlace t result }
        ensures bound { (t : QuorumTable) → turns_left t result ≤ most_turns t (Conciliator s) }
        ensures exact { (t : QuorumTable) → result ≡ first_place t (Conciliator s) input }
    {
        Pc::InConciliator(ConciliatorPlace::Draw {
            input,
            limit: 1,
            modulus: 1 << s,
        })
    }

    /// The place of a process with this input before its access to a last object. Any input will do, as for
    /// [`Pc::ratifier`].
    #[inline(always)]
    pub fn last(input: u32) -> Pc
        ensures begins { (t : QuorumTable) → input < t.values
            → PcIsAt t LastObject input result [] }
        ensures fits { (t : QuorumTable) → input < t.values → IsPlace t result }
        ensures bound { (t : QuorumTable) → turns_left t result ≤ most_turns t LastObject }
        ensures exact { (t : QuorumTable) → result ≡ first_place t LastObject input }
    {
        Pc::InLast(LastPlace { input })
    }

    /// The access that the process makes next. It needs a place that fits the table.
    #[inline(always)]
    pub fn next<Q: Quorums>(self, q: &Q) -> Op
        requires { IsPlace (Q.table q.now) self }
        ensures { IsOpAt (Q.table q.now) self result }
    {
        match self {
            Pc::InConciliator(place) => place.next(),
            Pc::InRatifier(place) => place.next(q),
            Pc::InLast(place) => place.next(),
        }
    }

    /// What the next access leads to. It needs a place that fits the table. `seen` is the value that a load or an
    /// exchange found. It does not count after a store. The random `word` counts only after a load of a conciliator's
    /// word. If the word cannot hold `seen`, the result still fits the table: a place, or an output with a value of it.
    #[inline(always)]
    pub fn after<Q: Quorums>(self, q: &Q, seen: u64, word: u64) -> Next
        requires { IsPlace (Q.table q.now) self }
        ensures fits { IsNext (Q.table q.now) result }

        // Fewer accesses are left after this one, whatever it found. So the process comes to an output.
        ensures fewer { turns_after (Q.table q.now) result < turns_left (Q.table q.now) self }

        // If the access found what it can find, a process that was at this place is at the next one, or has its output.
        ensures reached { (kind : Kind) (v : ℕ) (turns : List Turn) (op : Op)
            → PcIsAt (Q.table q.now) kind v self turns → IsOpAt (Q.table q.now) self op
            → CanFind (Q.table q.now) self op seen
            → IsReached (Q.table q.now) kind v result
            (record { act = act_of op seen; word = word } ∷ turns) }
    {
        match self {
            Pc::InConciliator(mut place) => {
                let out = place.after(q.values(), seen, word);
                Next::from_place(Pc::InConciliator(place), out)
            }
            Pc::InRatifier(mut place) => {
                let out = place.after(q, seen);
                Next::from_place(Pc::InRatifier(place), out)
            }
            Pc::InLast(place) => Next::Out(place.after(q.values(), seen)),
        }
    }

    /// Makes the next access, to the object with this number in this memory: one access. Goes on to the place that it
    /// leads to, or returns the output. After an output the place means nothing any more. The call is [`Pc::next`],
    /// [`Memory::perform`] and [`Pc::after`]. It needs a place that fits the table, and a memory that can make the
    /// access.
    #[inline(always)]
    pub fn step<Q: Quorums, M: Memory>(
        &mut self,
        q: &Q,
        memory: &mut M,
        object: u32,
        word: u64,
    ) -> Option<Out>
        requires place { IsPlace (Q.table q.now) self.old }
        requires may { (op : Op) → IsOpAt (Q.table q.now) self.old op
            → M.can_make memory.old object op }
        ensures fits { IsNext (Q.table q.now) (next_from result self.new) }
        ensures fewer { turns_after (Q.table q.now) (next_from result self.new)
            < turns_left (Q.table q.now) self.old }

        // The call made the place's next access. A process that was at this place is now at the next one, or has its
        // output.
        ensures step { IsStep (Q.table q.now) self.old
            (λ op seen. M.makes memory.old object op seen memory.new) word
            (next_from result self.new) }
    {
        let op = self.next(q);
        let seen = memory.perform(object, op);
        match self.after(q, seen, word) {
            Next::Go(place) => {
                *self = place;
                None
            }
            Next::Out(out) => Some(out),
        }
    }
}

impl Kind {
    ghost use Rattle.std.specs.Prelude.{◌≡◌, ◌<◌, ◌≤◌, []};
    ghost use Rattle.mb_deciding.specs.{PcIsAt, IsPlace, IsFitKind, turns_left, most_turns, first_place};

    /// The place of a process with this input before its first access to an object of this kind over the table. It
    /// needs an input below the table's number of values, and of a conciliator a last attempt of at most 63.
    #[inline(always)]
    pub fn place<Q: Quorums>(self, q: &Q, input: u32) -> Pc
        requires kind { IsFitKind self }
        requires input { input < (Q.table q.now).values }
        ensures begins { PcIsAt (Q.table q.now) self input result [] }
        ensures fits { IsPlace (Q.table q.now) result }
        ensures bound { turns_left (Q.table q.now) result ≤ most_turns (Q.table q.now) self }
        ensures exact { result ≡ first_place (Q.table q.now) self input }
    {
        match self {
            Kind::Conciliator { s } => Pc::conciliator(input, s),
            Kind::Ratifier => Pc::announcing(q, input),
            Kind::LastObject => Pc::last(input),
        }
    }
}
