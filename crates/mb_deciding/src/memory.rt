//! Memories in which processes make their accesses.
use crate::access::Op;

/// Words to which accesses are made, one at a time: of one object or many, for one thread or several.
pub trait Memory {
    ghost use Rattle.std.specs.Prelude.{ℕ};
    ghost use Rattle.mb_deciding.specs.{Op};

    /// This access to the object with this number may be made.
    ghost can_make: { Self → ℕ → Op → Type 0 };

    /// This access to the object with this number was made and found this value, which may be any if the access only
    /// stores. The last argument is the memory after the access. A memory has to say here what a load or an exchange
    /// found: all that a step promises of the place after it follows from that.
    ghost makes: { Self → ℕ → Op → ℕ → Self → Type 0 };

    /// Makes the access. Returns the value that a load or an exchange finds, and any value after a store.
    fn perform(&mut self, object: u32, op: Op) -> u64
        requires { can_make self.old object op }
        ensures { makes self.old object op result self.new };
}

/// An object, and where its words begin in a memory.
#[derive(Clone, Copy, PartialEq, Eq, Debug)]
pub struct Site {
    /// The number of the object.
    pub object: u32,
    /// The position of its first word in the memory.
    pub begin: usize,
}

/// A memory with a source of random words. One word is drawn for each access, before the access is made.
pub trait Drawing: Memory {
    ghost use Rattle.std.specs.Prelude.{ℕ};
    ghost use Rattle.mb_deciding.specs.{Op, Site};

    /// This random word was drawn. The last argument is the memory after that.
    ghost draws: { Self → ℕ → Self → Type 0 };

    /// This access to the object of this site may be made.
    ghost can_make_at: { Self → Site → Op → Type 0 };

    /// Draws the random word of the next access.
    fn draw(&mut self) -> u64
        ensures { draws self.old result self.new };

    /// Makes the access to the object of the site. Returns what [`Memory::perform`] does.
    fn perform_at(&mut self, site: Site, op: Op) -> u64
        requires { can_make_at self.old site op }
        ensures { Self.makes self.old site.object op result self.new };
}
