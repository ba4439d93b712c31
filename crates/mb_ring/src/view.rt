//! What a pass or the hub of a ring knows. No value of these types is made: they exist in proofs alone.
use mb_segment::{Account, Duty, Event, Half, Known, Role, Tokens};
use std::collections::LinkedList;

/// What a pass saw of the words. It stays true.
pub struct Sight {
    /// As many positions as this are claimed.
    pub low: u64,
    /// As many positions as this are drawn.
    pub top: u64,
    /// The slot of this position was free for it.
    pub room: Option<u64>,
    /// This position was marked. It is the one seen marked last.
    pub ripe: Option<u64>,
    /// The ring is cut.
    pub cut: bool,
    /// It saw the ring empty when as many positions as this were drawn. As many are claimed.
    pub empty: u64,
    /// How often it saw the ring empty, and the walk up to the last time.
    pub empty_looks: u64,
    pub empty_walk: LinkedList<Event>,
    /// It saw the ring full when as many positions as this were claimed. As many are claimed, and more are drawn: one for
    /// each slot.
    pub full: Option<u64>,
    /// How often it saw the ring full, and the walk up to the last time.
    pub full_looks: u64,
    pub full_walk: LinkedList<Event>,
}

/// What one waits for. Each has a list of those that wait for it.
pub enum Want {
    /// Receivers wait for values.
    Values,
    /// Senders wait for room.
    Room,
}

/// What a pass owes to those that wait for values, and how often it stands in their list; and the same for room.
/// `closing`: it cut the ring. For room also: it sleeps, and has still to look whether the ring is cut.
pub struct Duties {
    pub values: Duty,
    pub room: Duty,
}

/// How many tokens for values were given and taken, and how many for room.
pub struct Tallies {
    pub values: Tokens,
    pub room: Tokens,
}

/// What the pass or the hub did, has begun, owes and saw.
pub struct View<T> {
    pub role: Role,
    pub account: Account<T>,
    pub known: Known,
    pub half: Half<T>,
    pub duty: Duties,
    /// What it gave and took of the tokens. The hub counts those of the passes that came back.
    pub tokens: Tallies,
    pub sight: Sight,
    /// It was told that no value can come any more.
    pub over: bool,
    /// Of the hub: how many passes are out, and what those that came back had done, the latest first.
    pub out: u64,
    pub ends: LinkedList<Account<T>>,
}
