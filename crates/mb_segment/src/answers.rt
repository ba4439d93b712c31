//! What the calls that never wait answer.

/// What came of a draw.
#[derive(Clone, Copy, PartialEq, Eq, Debug, Drop)]
pub enum Draw {
    /// The position is drawn: write the value, and mark it.
    At(u64),
    /// All positions of the segment are drawn.
    Full,
    /// The segment was cut.
    Closed,
    /// Other passes drew or cut first. Draw again.
    Again,
}

/// What a pass that owes a wake has to do.
#[derive(Clone, Copy, PartialEq, Eq, Debug, Drop)]
pub enum Wake {
    /// Nobody waits without a token. One wake less is owed, or what one closer owes.
    Nobody,
    /// A token was given: wake one thread.
    One,
    /// Another pass changed the list, or 2^32 - 1 tokens are out. Call again.
    Again,
}

/// What a receiver found.
#[derive(Clone, Copy, PartialEq, Eq, Debug, Drop)]
pub enum Look {
    /// This position is marked: claim it.
    Ready(u64),
    /// The next position is drawn, and not marked yet. Yield, and look again.
    Yield,
    /// At this moment each position drawn was claimed.
    Empty,
    /// The segment is done: each position drawn is claimed, and no more will be drawn.
    Over,
}

/// What one that sleeps has to do.
#[derive(Clone, Copy, PartialEq, Eq, Debug, Drop)]
pub enum Rest {
    /// It took a token: look.
    Woken,
    /// No token is there: sleep.
    Sleep,
    /// Another pass changed the list. Call again.
    Again,
}

/// What came of leaving the list.
#[derive(Clone, Copy, PartialEq, Eq, Debug, Drop)]
pub enum Leave {
    Left,
    /// It left with a token, and owes a wake.
    Owes,
    /// Another pass changed the list. Call again.
    Again,
}

/// What came of a cut.
#[derive(Clone, Copy, PartialEq, Eq, Debug, Drop)]
pub enum Cut {
    /// The pass cut the segment, and owes tokens to all that wait.
    Done,
    /// It was cut before.
    Was,
    /// Another pass drew or cut meanwhile. Call again.
    Again,
}
