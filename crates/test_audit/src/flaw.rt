//! The flaws that an audit finds.

/// What cannot be in a report.
#[derive(Clone, Copy, PartialEq, Eq, Debug)]
pub enum Flaw {
    /// There are more or fewer lanes than were asked for.
    OtherLanes,
    /// The diaries are not one for each consumer and lane, in their order.
    OtherDiary,
    /// A diary has more notes than its lane has items, or as many and a claim that is under way.
    TooManyNotes,
    /// Two consumers took one item.
    TwoTakers,
    /// A consumer's note says that it took another value than the item to which the note belongs.
    OtherItem,
    /// A loser names itself, one that did not compete, one that is not the taker, or another winner than another loser.
    OtherWinner,
    /// A consumer is undecided, though nobody else competed for the item.
    UndecidedAlone,
    /// The items left are not those that nobody took, in their order.
    OtherLeft,
}
