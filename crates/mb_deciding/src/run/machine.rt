//! What a run needs of its object: where a process begins, and what its next access leads to.
ghost use Rattle.std.specs.Prelude.{◌≤◌};

use crate::memory::Memory;
use crate::object::Out;
use crate::place::Pc;
use mb_quorum::Quorums;

/// An object of one kind, as a run steps it.
pub trait Machine {
    ghost use Rattle.std.specs.Prelude.{◌≡◌, ◌<◌, ℕ, List, []};
    ghost use Rattle.mb_quorum.specs.Quorum.{QuorumTable};
    ghost use Rattle.mb_deciding.specs.{Op, Turn, Kind, PcIsAt, IsOpAt, IsStep, IsTableFor, IsSameFor, next_from};

    /// The kind of the object.
    ghost kind: { Self → Kind };

    /// A table of the object. Another table would do if objects of this kind do the same over both.
    ghost table: { Self → QuorumTable };

    /// How many values there are.
    fn values(&self) -> u32
        ensures { result ≡ (table self.now).values };

    /// The place of a process with this input before its first access.
    fn first(&self, input: u32) -> Pc
        requires { input < (table self.now).values }
        ensures { (t : QuorumTable) → IsSameFor (kind self.now) t (table self.now)
            → PcIsAt t (kind self.now) input result [] };

    /// Makes the next access, with this random word. Goes on to the place that it leads to, or returns the output.
    fn step<W: Memory>(&self, pc: &mut Pc, memory: &mut W, word: u64) -> Option<Out>
        requires place { (v : ℕ) × (turns : List Turn)
            × PcIsAt (table self.now) (kind self.now) v pc.old turns }
        requires may { (op : Op) → IsOpAt (table self.now) pc.old op
            → W.can_make memory.old 0 op }
        ensures { (t : QuorumTable) → IsSameFor (kind self.now) t (table self.now)
            → IsStep t pc.old (λ op seen. W.makes memory.old 0 op seen memory.new) word
            (next_from result pc.new) };

    /// The table is one that an object of this kind can have.
    ghost lawful: { (m : Self) → IsTableFor (kind m) (table m) };
}

/// A ratifier over a quorum table.
#[derive(Drop)]
pub struct RatifierMachine<Q: Quorums + Drop> {
    pub table: Q,
}

impl<Q: Quorums + Drop> Machine for RatifierMachine<Q> {
    ghost use Rattle.mb_deciding.specs.{Ratifier};

    ghost kind = { λ m. Ratifier };

    ghost table = { λ m. Q.table m.table };

    #[inline(always)]
    fn values(&self) -> u32 {
        self.table.values()
    }

    #[inline(always)]
    fn first(&self, input: u32) -> Pc {
        Pc::announcing(&self.table, input)
    }

    #[inline(always)]
    fn step<W: Memory>(&self, pc: &mut Pc, memory: &mut W, word: u64) -> Option<Out> {
        pc.step(&self.table, memory, 0, word)
    }

    ghost lawful = { λ m. Q.lawful m.table };
}

/// A conciliator. It has no table, so any table of `values` values will do.
#[derive(Clone, Copy, Debug)]
pub struct ConciliatorMachine {
    /// How many values there are.
    pub values: u32,
    /// The last attempt.
    pub s: u32,
    pub ghost most: { s ≤ 63 },
}

impl Machine for ConciliatorMachine {
    ghost use Rattle.mb_deciding.specs.{Conciliator, bare_table};

    ghost kind = { λ m. Conciliator m.s };

    ghost table = { λ m. bare_table m.values };

    #[inline(always)]
    fn values(&self) -> u32 {
        self.values
    }

    #[inline(always)]
    fn first(&self, input: u32) -> Pc {
        Pc::conciliator(input, self.s)
    }

    #[inline(always)]
    fn step<W: Memory>(&self, pc: &mut Pc, memory: &mut W, word: u64) -> Option<Out> {
        match pc {
            Pc::InConciliator(place) => {
                let op = place.next();
                let seen = memory.perform(0, op);
                place.after(self.values, seen, word)
            }
            Pc::InRatifier(_) | Pc::InLast(_) => unreachable!(),
        }
    }

    ghost lawful = { λ m. tt };
}
