//! What one process does in a conciliator.
use super::conciliator::ConciliatorPlace;
use crate::access::{Op, Reg};
use crate::object::Out;

/// The odds that a process stores, after a load of 0: `limit` in `modulus`.
#[derive(Clone, Copy)]
struct Odds {
    limit: u64,
    modulus: u64,
}

impl ConciliatorPlace {
    ghost use Rattle.std.specs.Prelude.{◌≡◌, ◌<◌, ◌≤◌, ◌+◌, false, ℕ};
    ghost use Rattle.mb_quorum.specs.Vocabulary.{QuorumTable};
    ghost use Rattle.mb_deciding.specs.{Pc, InConciliator, Draw, Put, Look, next_from, turns_left, turns_after};
    ghost use Rattle.mb_deciding.specs.{IsConciliatorPlace, IsConciliatorOp, IsNext, ConciliatorReaches};

    /// The access that the process makes next.
    #[inline(always)]
    pub(crate) fn next(self) -> Op
        ensures { IsConciliatorOp self result }
    {
        match self {
            Self::Draw { .. } | Self::Look { .. } => Op::Load(Reg::Value),
            Self::Put { input } => Op::Store(Reg::Value, u64::from(input) + 1),
        }
    }

    /// Goes on to the place that the access leads to, or returns the output. The conciliator is for `values` values.
    /// `seen` is the loaded value and `word` the random word.
    #[inline(always)]
    pub(crate) fn after(&mut self, values: u32, seen: u64, word: u64) -> Option<Out>
        requires { IsConciliatorPlace values self.old }
        ensures fits { (t : QuorumTable) → t.values ≡ values
            → IsNext t (next_from result (InConciliator self.new)) }
        ensures fewer { (t : QuorumTable)
            → turns_after t (next_from result (InConciliator self.new))
            < turns_left t (InConciliator self.old) }
        ensures reached { (t : QuorumTable) → t.values ≡ values
            → ConciliatorReaches t self.old seen word
            (next_from result (InConciliator self.new)) }
    {
        match *self {
            Self::Draw {
                input,
                limit,
                modulus,
            } => self.drawn(values, input, Odds { limit, modulus }, seen, word),
            Self::Put { input } => self.put(input),
            Self::Look { input } => Self::looked(values, input, seen),
        }
    }

    /// What follows the load of a process that has not stored.
    #[inline(always)]
    fn drawn(&mut self, values: u32, input: u32, odds: Odds, seen: u64, word: u64) -> Option<Out>
        requires { IsConciliatorPlace values (Draw input odds.limit odds.modulus) }
        ensures fits { (t : QuorumTable) → t.values ≡ values
            → IsNext t (next_from result (InConciliator self.new)) }
        ensures fewer { (t : QuorumTable)
            → turns_after t (next_from result (InConciliator self.new))
            < turns_left t (InConciliator (Draw input odds.limit odds.modulus)) }
        ensures reached { (t : QuorumTable) → t.values ≡ values
            → ConciliatorReaches t (Draw input odds.limit odds.modulus) seen word
            (next_from result (InConciliator self.new)) }
    {
        if seen != 0 {
            Some(Self::met(values, input, seen))
        } else if word & (odds.modulus - 1) < odds.limit {
            *self = Self::Put { input };
            None
        } else {
            *self = Self::Draw {
                input,
                limit: odds.limit * 2,
                modulus: odds.modulus,
            };
            None
        }
    }

    /// What follows the store of the input.
    #[inline(always)]
    fn put(&mut self, input: u32) -> Option<Out>
        ensures fits { (t : QuorumTable) → input < t.values
            → IsNext t (next_from result (InConciliator self.new)) }
        ensures fewer { (t : QuorumTable)
            → turns_after t (next_from result (InConciliator self.new))
            < turns_left t (InConciliator (Put input)) }
        ensures reached { (t : QuorumTable) (seen word : ℕ)
            → ConciliatorReaches t (Put input) seen word
            (next_from result (InConciliator self.new)) }
    {
        *self = Self::Look { input };
        None
    }

    /// What follows the load of a process that has stored.
    #[inline(always)]
    fn looked(values: u32, input: u32, seen: u64) -> Option<Out>
        requires { input < values }
        ensures fits { (t : QuorumTable) (pc : Pc) → t.values ≡ values
            → IsNext t (next_from result pc) }
        ensures fewer { (t : QuorumTable) (pc : Pc)
            → turns_after t (next_from result pc) < turns_left t (InConciliator (Look input)) }
        ensures reached { (t : QuorumTable) (pc : Pc) (word : ℕ) → t.values ≡ values
            → ConciliatorReaches t (Look input) seen word (next_from result pc) }
    {
        Some(Self::met(values, input, seen))
    }

    /// The output of a process with this input that loaded `seen`: the value `seen - 1` if it is one of `values`, and
    /// else the process's own input.
    #[inline(always)]
    fn met(values: u32, input: u32, seen: u64) -> Out
        requires { input < values }
        ensures fits { result.value < values }
        ensures undecided { result.decided ≡ false }
        ensures met { 0 < seen → seen ≤ values → seen ≡ result.value + 1 }
    {
        Out::undecided(if 0 < seen && seen <= u64::from(values) {
            (seen - 1) as u32
        } else {
            input
        })
    }
}
