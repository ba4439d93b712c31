//! What a process does to the words of an object.

/// A word of a deciding object.
#[derive(Clone, Copy, PartialEq, Eq, Debug)]
pub enum Reg {
    /// A conciliator's word: 0 while it is empty, v + 1 for value v.
    Value,
    /// A ratifier's proposal: 0 while it is empty, v + 1 for value v.
    Proposal,
    /// A ratifier's quorum register: 0 or 1.
    Quorum(u32),
    /// The last object's word: 0 while it is empty, v + 1 for value v.
    Last,
}

/// An access that a process is about to make.
#[derive(Clone, Copy, PartialEq, Eq, Debug)]
pub enum Op {
    /// Load the word.
    Load(Reg),
    /// Store this value in the word.
    Store(Reg, u64),
    /// Load the word, and store this value in it if it is 0, in one access.
    Exchange(Reg, u64),
}

/// An access that was made.
#[derive(Clone, Copy, PartialEq, Eq, Debug)]
pub enum Act {
    /// The word was loaded and had this value.
    Load { reg: Reg, value: u64 },
    /// This value was stored in the word.
    Store { reg: Reg, value: u64 },
    /// The word was loaded and had the value `found`. If that is 0, `value` was stored there in the same access.
    Exchange { reg: Reg, value: u64, found: u64 },
}

/// A turn of one process: its act, and the random word of this turn.
#[derive(Clone, Copy, PartialEq, Eq, Debug)]
pub struct Turn {
    /// What the process did.
    pub act: Act,
    /// The random word. It counts only if the process loads a conciliator's word and finds it empty, before it has
    /// stored there.
    pub word: u64,
}

/// A turn in the history of one object, and the process that made it.
#[derive(Clone, Copy, PartialEq, Eq, Debug)]
pub struct Access {
    /// The process that made the turn. Processes count from 0.
    pub process: usize,
    /// What the process did.
    pub turn: Turn,
}

impl Op {
    ghost use Rattle.std.specs.Prelude.{◌≡◌};
    ghost use Rattle.mb_deciding.specs.{act_of, reg_of};

    /// The word that the access goes to.
    pub fn reg(self) -> Reg
        ensures { result ≡ reg_of self }
    {
        match self {
            Op::Load(reg) | Op::Store(reg, _) | Op::Exchange(reg, _) => reg,
        }
    }

    /// The act of this op, once it was made. A load or an exchange found `seen`.
    pub fn act(self, seen: u64) -> Act
        ensures { result ≡ act_of self seen }
    {
        match self {
            Op::Load(reg) => Act::Load { reg, value: seen },
            Op::Store(reg, value) => Act::Store { reg, value },
            Op::Exchange(reg, value) => Act::Exchange {
                reg,
                value,
                found: seen,
            },
        }
    }
}
