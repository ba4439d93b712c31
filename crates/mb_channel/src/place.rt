//! Places in a channel.
ghost use Rattle.std.specs.Prelude.{◌≡◌, true, false};
ghost use Rattle.mb_channel.specs.Deeds.{IsUpTo};

/// A place in a channel. Before it lie all segments before one of them, and so many positions of that one. Places of two
/// channels say nothing of each other.
#[derive(Clone, Copy, PartialEq, Eq, Debug, Drop)]
pub struct Place {
    pub(crate) segment: usize,
    pub(crate) number: u64,
}

impl Place {
    /// How many segments lie before its own.
    pub fn segment(self) -> usize
        ensures { result ≡ self.segment }
    {
        self.segment
    }

    /// How many positions of its segment lie before it.
    pub fn number(self) -> u64
        ensures { result ≡ self.number }
    {
        self.number
    }

    /// Whether it is this place, or lies before it.
    pub(crate) fn is_up_to(self, other: Place) -> bool
        ensures up { result ≡ true → IsUpTo self other }
        ensures beyond { result ≡ false → IsUpTo self other → ⊥ }
    {
        self.segment < other.segment
            || (self.segment == other.segment && self.number <= other.number)
    }
}
