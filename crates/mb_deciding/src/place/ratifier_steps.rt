//! What one process does in a ratifier.
use super::mask::{least, without};
use super::ratifier::RatifierPlace;
use crate::access::{Op, Reg};
use crate::object::Out;
use mb_quorum::Quorums;

impl RatifierPlace {
    ghost use Rattle.std.specs.Prelude.{◌≡◌, ◌≢◌, ◌<◌, ◌≤◌, ℕ, count_ones, List, ◌∷◌};
    ghost use Rattle.mb_quorum.specs.Quorum.{QuorumTable};
    ghost use Rattle.mb_deciding.specs.{Turn, Ratifier, Announce, Propose, Check, InRatifier};
    ghost use Rattle.mb_deciding.specs.{acts, ReadsClear, PcIsAt, IsRatifierPlace, IsRatifierOp, IsRest, IsNext};
    ghost use Rattle.mb_deciding.specs.{IsReached, RatifierReaches, next_from};
    ghost use Rattle.mb_deciding.specs.{turns_left, turns_after};

    /// The access that the process makes next.
    #[inline(always)]
    pub(crate) fn next<Q: Quorums>(self, q: &Q) -> Op
        requires { IsRatifierPlace (Q.table q.now) self }
        ensures { IsRatifierOp (Q.table q.now) self result }
    {
        match self {
            Self::Begin { input } => Self::announcing(q.write_quorum(input)),
            Self::Announce { left, .. } => Self::announcing(left),
            Self::Propose { input } => Op::Store(Reg::Proposal, u64::from(input) + 1),
            Self::Check { left, .. } => Op::Load(Reg::Quorum(least(left))),
        }
    }

    /// Goes on to the place that the access leads to, or returns the output. `seen` is the loaded value.
    #[inline(always)]
    pub(crate) fn after<Q: Quorums>(&mut self, q: &Q, seen: u64) -> Option<Out>
        requires { IsRatifierPlace (Q.table q.now) self.old }
        ensures fits { IsNext (Q.table q.now) (next_from result (InRatifier self.new)) }
        ensures fewer { turns_after (Q.table q.now) (next_from result (InRatifier self.new))
            < turns_left (Q.table q.now) (InRatifier self.old) }
        ensures reached { RatifierReaches (Q.table q.now) self.old seen
            (next_from result (InRatifier self.new)) }
    {
        match *self {
            Self::Begin { input } => self.announced(q, input, q.write_quorum(input), seen),
            Self::Announce { input, left } => self.announced(q, input, left, seen),
            Self::Propose { input } => self.proposed(q, input),
            Self::Check { preference, left } => self.checked(q, preference, left, seen),
        }
    }

    /// The next access of a process that has these registers left to set: a store, or if none is left, a load.
    #[inline(always)]
    fn announcing(left: u64) -> Op
        ensures { (t : QuorumTable) (input : ℕ) → IsRatifierOp t (Announce input left) result }
    {
        if left == 0 {
            Op::Load(Reg::Proposal)
        } else {
            Op::Store(Reg::Quorum(least(left)), 1)
        }
    }

    /// What follows the next access of a process that has these registers left to set, or none.
    #[inline(always)]
    fn announced<Q: Quorums>(&mut self, q: &Q, input: u32, left: u64, seen: u64) -> Option<Out>
        requires { input < (Q.table q.now).values }
        ensures fits { IsNext (Q.table q.now) (next_from result (InRatifier self.new)) }
        ensures fewer { turns_after (Q.table q.now) (next_from result (InRatifier self.new))
            < turns_left (Q.table q.now) (InRatifier (Announce input left)) }
        ensures reached { RatifierReaches (Q.table q.now) (Announce input left) seen
            (next_from result (InRatifier self.new)) }
    {
        if left == 0 {
            self.found(q, input, left, seen)
        } else {
            self.stored(q, input, left)
        }
    }

    /// What follows the store in the least of these registers: that register is no longer left.
    #[inline(always)]
    fn stored<Q: Quorums>(&mut self, q: &Q, input: u32, left: u64) -> Option<Out>
        requires input { input < (Q.table q.now).values }
        requires some { left ≢ 0 }
        ensures fits { IsNext (Q.table q.now) (next_from result (InRatifier self.new)) }
        ensures fewer { turns_after (Q.table q.now) (next_from result (InRatifier self.new))
            < turns_left (Q.table q.now) (InRatifier (Announce input left)) }
        ensures reached { (seen : ℕ) → RatifierReaches (Q.table q.now) (Announce input left) seen
            (next_from result (InRatifier self.new)) }
    {
        let left = without(left, least(left));
        *self = Self::Announce { input, left };
        None
    }

    /// What follows the load of the proposal, when no register is left to set.
    #[inline(always)]
    fn found<Q: Quorums>(&mut self, q: &Q, input: u32, left: u64, seen: u64) -> Option<Out>
        requires input { input < (Q.table q.now).values }
        requires none { left ≡ 0 }
        ensures fits { IsNext (Q.table q.now) (next_from result (InRatifier self.new)) }
        ensures fewer { turns_after (Q.table q.now) (next_from result (InRatifier self.new))
            < turns_left (Q.table q.now) (InRatifier (Announce input left)) }
        ensures reached { RatifierReaches (Q.table q.now) (Announce input left) seen
            (next_from result (InRatifier self.new)) }
    {
        if 0 < seen && seen <= u64::from(q.values()) {
            let preference = (seen - 1) as u32;
            self.checks(preference, q.read_quorum(preference))
        } else {
            *self = Self::Propose { input };
            None
        }
    }

    /// What follows the store of the input in the proposal.
    #[inline(always)]
    fn proposed<Q: Quorums>(&mut self, q: &Q, input: u32) -> Option<Out>
        requires { input < (Q.table q.now).values }
        ensures fits { IsNext (Q.table q.now) (next_from result (InRatifier self.new)) }
        ensures fewer { turns_after (Q.table q.now) (next_from result (InRatifier self.new))
            < turns_left (Q.table q.now) (InRatifier (Propose input)) }
        ensures reached { (seen : ℕ) → RatifierReaches (Q.table q.now) (Propose input) seen
            (next_from result (InRatifier self.new)) }
    {
        self.checks(input, q.read_quorum(input))
    }

    /// What follows the load of the least register that is left of the preference's read quorum.
    #[inline(always)]
    fn checked<Q: Quorums>(&mut self, q: &Q, preference: u32, left: u64, seen: u64) -> Option<Out>
        requires { IsRatifierPlace (Q.table q.now) (Check preference left) }
        ensures fits { IsNext (Q.table q.now) (next_from result (InRatifier self.new)) }
        ensures fewer { turns_after (Q.table q.now) (next_from result (InRatifier self.new))
            < turns_left (Q.table q.now) (InRatifier (Check preference left)) }
        ensures reached { RatifierReaches (Q.table q.now) (Check preference left) seen
            (next_from result (InRatifier self.new)) }
    {
        if seen == 0 {
            self.checks(preference, without(left, least(left)))
        } else {
            Some(Out::undecided(preference))
        }
    }

    /// Goes on to check these registers, which are left of the preference's read quorum. If none is left, returns the
    /// decided output.
    #[inline(always)]
    fn checks(&mut self, preference: u32, left: u64) -> Option<Out>
        ensures fits { (t : QuorumTable) → preference < t.values
            → IsNext t (next_from result (InRatifier self.new)) }
        ensures fewer { (t : QuorumTable)
            → turns_after t (next_from result (InRatifier self.new)) ≤ count_ones left }
        ensures reached { (t : QuorumTable) (v bound : ℕ) (turns : List Turn)
            → preference < t.values → bound ≤ t.registers
            → IsRest (t.read preference) bound left → ReadsClear t v preference bound (acts turns)
            → IsReached t Ratifier v (next_from result (InRatifier self.new)) turns }
    {
        if left == 0 {
            Some(Out::decided(preference))
        } else {
            *self = Self::Check { preference, left };
            None
        }
    }
}
