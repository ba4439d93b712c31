//! The kinds of deciding object, and their outputs.

/// A kind of deciding object. Each process uses an object once at most.
#[derive(Clone, Copy, PartialEq, Eq, Debug)]
pub enum Kind {
    /// The impatient first-mover conciliator. On attempt k, a process that finds the word empty stores its input if the
    /// random word, modulo 2^s, is below 2^k. On attempt s it always does.
    Conciliator {
        /// The number of the last attempt, at most 63. The first is attempt 0.
        s: u32,
    },
    /// A ratifier over a quorum table.
    Ratifier,
    /// The last object: one word. The first process puts its input there by an exchange, and that is decided.
    LastObject,
}

/// The output that a process has from a deciding object.
#[derive(Clone, Copy, PartialEq, Eq, Debug)]
pub struct Out {
    /// Whether the object decided. If it did, no process gets another value from it.
    pub decided: bool,
    /// The input of a process that used the object.
    pub value: u32,
}

impl Out {
    ghost use Rattle.std.specs.Prelude.{◌≡◌, true, false};
    ghost use Rattle.mb_deciding.specs.{answer};

    /// The output (1, value).
    pub fn decided(value: u32) -> Out
        ensures { result ≡ answer true value }
    {
        Out {
            decided: true,
            value,
        }
    }

    /// The output (0, value).
    pub fn undecided(value: u32) -> Out
        ensures { result ≡ answer false value }
    {
        Out {
            decided: false,
            value,
        }
    }
}
