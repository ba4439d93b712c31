//! What a pass or the hub of a segment knows. No value of these types is made: they exist in proofs alone.
use std::collections::LinkedList;

/// A position of the segment, and the value sent there.
pub struct Spot<T> {
    pub at: u64,
    pub value: T,
}

/// What a pass sent and what it received, each in the order of the positions, and whether it cut the segment.
pub struct Account<T> {
    /// The name of the pass, which the states of the positions tell. 0: it has none, as in a ring.
    pub name: u64,
    pub sent: LinkedList<Spot<T>>,
    pub got: LinkedList<Spot<T>>,
    pub cut: bool,
    /// For each send, how many positions the pass knew to be drawn when it drew. For each receive, how many it knew to
    /// be claimed when it claimed.
    pub sent_knew: LinkedList<u64>,
    pub got_knew: LinkedList<u64>,
}

/// What happened, in a walk.
pub enum Event {
    /// A position was drawn.
    Drew,
    /// A position was claimed.
    Claimed,
    /// The pass of this number looked, and nothing waited.
    FoundEmpty(u64),
    /// The pass of this number looked, and there was no room. Only in a ring.
    FoundFull(u64),
}

/// Who holds the view.
pub enum Role {
    /// The hub, which issues passes and takes them back.
    Issuer,
    /// A pass that was issued.
    Member,
    /// A pass that was taken back.
    Spent,
}

/// What a pass has begun with a slot, and not ended.
pub enum Half<T> {
    Nothing,
    /// It drew this position for this value, and has not marked it.
    Writes(Spot<T>),
    /// It claimed this position, which has this value, and has not read it.
    Reads(Spot<T>),
}

/// What a pass owes, and how often it stands in the list of those that wait.
pub struct Duty {
    /// Wakes that it owes: for positions drawn, for looks left out, and for tokens taken along.
    pub wakes: u64,
    /// Looks that it owes, one for each token taken.
    pub looks: u64,
    /// In the list. It owes a look.
    pub fresh: u64,
    /// In the list. It looked, found nothing, and sleeps. It owes nothing.
    pub asleep: u64,
    /// In the list, and about to leave.
    pub leaving: u64,
    /// It drew the last position, or cut the segment. It owes a token to each that waits without one.
    pub closing: u64,
}

/// How many tokens of the list were given, and how many were taken.
pub struct Tokens {
    pub gave: u64,
    pub took: u64,
}

/// What a pass saw of the words. It stays true.
pub struct Sight {
    /// As many positions as this are claimed.
    pub low: u64,
    /// This position was marked. It is the one seen marked last.
    pub ripe: Option<u64>,
    /// All positions are drawn.
    pub full: bool,
    /// The segment is cut.
    pub cut: bool,
    /// At a moment at which as many positions as this were drawn, all of them were claimed.
    pub empty: u64,
    /// How often it looked and found that none waited, and the walk up to the last of these looks.
    pub found: u64,
    pub walk: LinkedList<Event>,
}

/// What a pass has learned of: as many positions as this are drawn, and claimed. It learns by its own sends and receives,
/// and by the looks of [`Segment::learn_drawn`](crate::Segment::learn_drawn) and `learn_taken`.
pub struct Known {
    pub drawn: u64,
    pub taken: u64,
}

pub struct View<T> {
    pub role: Role,
    pub account: Account<T>,
    pub known: Known,
    pub half: Half<T>,
    pub duty: Duty,
    /// What it gave and took of the tokens. The hub counts those of the passes that came back.
    pub tokens: Tokens,
    pub sight: Sight,
    /// It was told that the segment is done: no value can come any more.
    pub over: bool,
    /// Of the hub: how many passes are out, and what those that came back had done, the latest first.
    pub out: u64,
    pub ends: LinkedList<Account<T>>,
}
