//! The words of an object in a run on one thread.
use crate::access::{Act, Op, Reg};
use crate::memory::Memory;

/// The words of one object. A conciliator uses the first, a last object the last, and a ratifier the others.
#[derive(Drop)]
pub struct ObjectMemory {
    value: u64,
    proposal: u64,
    quorum: [u64; 64],
    last: u64,
}

impl ObjectMemory {
    ghost use Rattle.std.specs.Prelude.{◌≡◌, ◌<◌, ◌^◌, [], ◌∷◌, ℕ, List};
    ghost use Rattle.mb_deciding.specs.{Reg, Store, Access, value_after, IsActInWords, act_of, reg_of, seen_by};
    ghost use Rattle.mb_deciding.specs.{IsMemory, IsReg, held_in};

    /// Words that all hold 0.
    pub fn new() -> ObjectMemory
        ensures { IsMemory result [] }
    {
        ObjectMemory {
            value: 0,
            proposal: 0,
            quorum: [0; 64],
            last: 0,
        }
    }

    /// Makes the access, and returns the value that a load or an exchange finds, or 0 after a store.
    #[inline(always)]
    pub fn perform(&mut self, op: Op) -> u64
        requires { IsReg (reg_of op) }
        ensures memory { (h : List Access) → IsMemory self.old h
            → (p w : ℕ)
            → IsMemory self.new
            (record { process = p; turn = record { act = act_of op result; word = w } } ∷ h) }
        ensures seen { (h : List Access) → IsMemory self.old h → result ≡ seen_by op h }
        ensures small { IsActInWords (act_of op result) }
    {
        match op {
            Op::Load(reg) => self.load(reg),
            Op::Store(reg, value) => {
                self.store(reg, value);
                0
            }
            Op::Exchange(reg, value) => {
                let found = self.load(reg);
                if found == 0 {
                    self.store(reg, value);
                }
                found
            }
        }
    }

    #[inline(always)]
    fn load(&self, reg: Reg) -> u64
        requires { IsReg reg }
        ensures { result ≡ held_in self.now reg }
    {
        match reg {
            Reg::Value => self.value,
            Reg::Proposal => self.proposal,
            Reg::Quorum(r) => self.quorum[r as usize],
            Reg::Last => self.last,
        }
    }

    #[inline(always)]
    fn store(&mut self, reg: Reg, value: u64)
        requires { IsReg reg }
        ensures { (at : Reg) → IsReg at
            → held_in self.new at ≡ value_after at (Store reg value) (held_in self.old at) }
    {
        match reg {
            Reg::Value => self.value = value,
            Reg::Proposal => self.proposal = value,
            Reg::Quorum(r) => self.quorum[r as usize] = value,
            Reg::Last => self.last = value,
        }
    }
}

/// The words while one access is made to them, and that access once it is made.
#[derive(Drop)]
pub struct ObjectWords<'a> {
    pub words: &'a mut ObjectMemory,
    pub made: Act,
}

impl<'a> Memory for ObjectWords<'a> {
    ghost use Rattle.std.specs.Prelude.{◌≡◌};
    ghost use Rattle.mb_deciding.specs.{IsReg, IsAccess, act_of, reg_of};

    ghost can_make = { λ m object op. IsReg (reg_of op) };

    ghost makes = { λ m object op seen after.
        IsAccess m.words.now op seen after.words.now
        × (after.words.ghost_name ≡ m.words.ghost_name)
        × (after.made ≡ act_of op seen) };

    #[inline(always)]
    fn perform(&mut self, _: u32, op: Op) -> u64 {
        let seen = self.words.perform(op);
        self.made = op.act(seen);
        seen
    }
}
