//! A quorum table of your own.

use mb_quorum::{BadValues, Quorums, Unary};

/// The unary table with its values counted from the last. With m values the write quorum of v is register m - 1 - v,
/// its read quorum all others.
#[derive(Clone, Copy, Debug)]
pub(crate) struct Mirrored {
    unary: Unary,
}

impl Quorums for Mirrored {
    ghost use Rattle.mb_quorum.specs.UnaryLaw.{unary_lawful};
    ghost use Rattle.test_libraries.specs.Mirrored.{mirrored, mirrored_lawful};

    // What the table is, as plain data.
    ghost table = { λ q. mirrored (⟦<Unary as Quorums>⟧.table q.unary) };

    // The law, proved from that of the unary table.
    ghost lawful = { λ q. mirrored_lawful (⟦<Unary as Quorums>⟧.table q.unary) (unary_lawful _ q.unary.most) };

    fn registers(&self) -> u32 {
        self.unary.registers()
    }

    fn values(&self) -> u32 {
        self.unary.values()
    }

    fn write_quorum(&self, v: u32) -> u64 {
        self.unary.write_quorum(self.values() - 1 - v)
    }

    fn read_quorum(&self, v: u32) -> u64 {
        self.unary.read_quorum(self.values() - 1 - v)
    }
}

impl Mirrored {
    ghost use Rattle.std.specs.Prelude.{◌≡◌, IfOk};

    /// The mirrored table of m values.
    pub(crate) fn new(m: u64) -> Result<Mirrored, BadValues>
        ensures { IfOk result (λ q. (⟦<Mirrored as Quorums>⟧.table q).values ≡ m) }
    {
        Ok(Mirrored {
            unary: Unary::new(m)?,
        })
    }
}
