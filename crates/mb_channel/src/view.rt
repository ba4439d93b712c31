//! What an end knows. No value of it is made.
use crate::home::{Fates, Home, Shared};
use mb_segment::Account;
use std::collections::LinkedList;

/// What an end did in a segment that it left.
pub struct Visit<T> {
    pub segment: u64,
    pub account: Account<T>,
}

/// An end that was given back: its number, its name and its visits, the newest first.
pub struct Past<T> {
    pub number: u64,
    pub name: u64,
    pub visits: LinkedList<Visit<T>>,
}

pub struct Knows<T: Drop> {
    /// How many ends, senders and receivers it counts for.
    pub rights: u64,
    pub sends: u64,
    pub receives: u64,
    /// Whether it has a number.
    pub live: bool,
    pub number: u64,
    /// The name that its maker gave it, or 0.
    pub name: u64,
    /// Its visits, the newest first.
    pub visits: LinkedList<Visit<T>>,
    /// How many tokens it gave in the segments that it left.
    pub gave: u64,
    /// Whether it has a pass of a segment, and of which.
    pub inside: bool,
    pub at: u64,
    pub place: Option<Shared<T>>,
    /// Whether it may receive there.
    pub takes: bool,
    /// Whether it left each segment only once that was over, and so did the ends that it was made from.
    pub orderly: bool,
    /// The ends that were given back to it.
    pub ended: LinkedList<Past<T>>,
    /// Whether it has the lock, and all segments that there ever were.
    pub holds: bool,
    pub before: LinkedList<Home<T>>,
    /// Whether it has the lock, and saw that the list is not closed.
    pub is_open: bool,
    /// Whether it then also saw that a sender is left. So it may add a segment.
    pub may_add: bool,
    /// Whether no sender is left.
    pub alone: bool,
    /// Whether the list is closed.
    pub shut: bool,
    /// It was told that there are so many segments, and never more.
    pub last: Option<u64>,
    /// How often it looked as one that may receive and has the lock, and found itself behind the last segment while a
    /// sender was left. Nothing waited then.
    pub found: u64,
    /// The lengths that it was told, the newest first: how many values waited, as far as the hubs knew.
    pub lengths: LinkedList<u64>,
    /// What it was told of fates, the newest first: those in a segment, or none.
    pub fates: LinkedList<Option<Fates<T>>>,
}
