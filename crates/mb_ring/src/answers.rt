//! What a draw answers. Looks and cuts answer as those of a segment.

/// What came of a draw.
#[derive(Clone, Copy, PartialEq, Eq, Debug, Drop)]
pub enum Draw {
    /// The position is drawn: write the value, and mark it.
    At(u64),
    /// As many values waited as the ring has slots. [`crate::Ring::draw`] says what is proved of this.
    Full,
    /// The ring was cut.
    Closed,
    /// 2^62 positions were drawn. No more will be.
    Worn,
    /// The slot of the next position is not free: its position a lap before is not read yet. Yield, and draw again.
    Yield,
    /// Another pass drew or cut first. Draw again.
    Again,
}
