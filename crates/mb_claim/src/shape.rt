//! Which objects a cell has beside its pairs.

/// Whether a cell has a fast path (two ratifiers) before its pairs, and a last object after them.
#[derive(Clone, Copy, PartialEq, Eq, Debug, Hash)]
pub struct Shape {
    /// Two ratifiers come first.
    pub fast: bool,
    /// An object that always decides comes last.
    pub last: bool,
}

impl Shape {
    ghost use Rattle.std.specs.Prelude.{◌≡◌, ◌≤◌, length};
    ghost use Rattle.mb_claim.specs.Rows.{fast_row, last_row, plain};

    /// The shape of a cell with pairs alone.
    pub const PLAIN: Shape = Shape {
        fast: false,
        last: false,
    };

    /// The shape of a cell with a last object after its pairs.
    pub const LAST: Shape = Shape {
        fast: false,
        last: true,
    };

    /// How many objects come before the pairs.
    pub(crate) fn before(self) -> u32
        ensures exact { result ≡ length (fast_row self.fast) }
        ensures small { result ≤ 2 }
    {
        if self.fast { 2 } else { 0 }
    }

    /// How many objects come after the pairs.
    pub(crate) fn after(self) -> u32
        ensures exact { result ≡ length (last_row self.last) }
        ensures small { result ≤ 1 }
    {
        if self.last { 1 } else { 0 }
    }
}
