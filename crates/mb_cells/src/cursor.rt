//! Cursors, by which a reader goes along a lane.
ghost use Rattle.std.specs.Prelude.{◌≡◌};
ghost use Rattle.mb_cells.specs.declared.cursor.Cursor.TheVariants.{Head, Past};
ghost use Rattle.mb_cells.specs.{word_of};

use crate::access::Word;

/// Where a reader stands on a lane.
#[derive(Clone, Copy, PartialEq, Eq, Debug)]
pub enum Cursor {
    /// At the head of the lane with this number.
    Head(u32),
    /// Past the cell with this number.
    Past(u32),
}

impl Cursor {
    /// The cursor at the head of lane `p`.
    pub fn head(p: u32) -> Cursor
        ensures { result ≡ Head p }
    {
        Cursor::Head(p)
    }

    /// The cursor past cell `k`.
    pub fn past(k: u32) -> Cursor
        ensures { result ≡ Past k }
    {
        Cursor::Past(k)
    }

    /// The word that says what comes after the cursor.
    pub fn word(self) -> Word
        ensures { result ≡ word_of self }
    {
        match self {
            Cursor::Head(p) => Word::Head(p),
            Cursor::Past(k) => Word::Link(k),
        }
    }
}
