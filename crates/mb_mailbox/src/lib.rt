//! A mailbox for threads. Producers put items into lanes of their own, consumers compete for each item, and a report
//! at the end says who took what. There is no lock. Nobody waits for anybody, except that [`work`] waits for its own
//! threads. Only a last object makes a compare-exchange.
//!
//! # How an item goes through
//!
//! A mailbox is two tables of atomic 64-bit words that all its threads access in sequentially consistent order. They
//! are the cells (of `mb_shared_cells`) and the claims on them (of `mb_shared_claims`).
//!
//! 1. [`Producer::put`] draws a cell by a fetch-add of the shared counter, stores the item there, and stores the
//!    cell's number in the last link of its lane. From that third access on every consumer can meet the item.
//! 2. [`Consumer::poll`] loads the link before which the consumer stands. If it leads to a cell, the consumer goes
//!    through that cell's deciding objects in order. It begins with its own number, and goes on with the number that
//!    the object before returned. With a fast path two ratifiers come first. Then come pairs of a conciliator and a
//!    ratifier, and then the last object, if there is one. The first object that decides ends the claim. The claim is
//!    won if the number is the consumer's own, else lost to the consumer of that number. After a row without a last
//!    object it may be undecided. A consumer that has won loads the item. Then the consumer stands before that cell's
//!    link.
//! 3. [`Producer::finish`] stores an end mark in place of the next link. A consumer that meets it has met the whole
//!    lane.
//! 4. All are returned to the [`Hub`], and [`Mailbox::gather`] makes the report of their items and notes.
//!
//! # Why at most one takes an item
//!
//! If a ratifier decides on a number for one consumer, it returns that number to all that come through it. So does a
//! last object. So all claims on a cell that are decided name one winner. Lanes and claims need no common order:
//! docs/MODEL.md says why.
//!
//! # What the calls need
//!
//! Each needs that the producer, consumer or hub is of the mailbox (`IsProducerOf`, `IsConsumerOf`, `IsHubOf`). The
//! setup, its faults and the report are types of `mb_world`, `TableName` is of `mb_quorum`, `Finish` and `NoMemory` of
//! `mb_cells`.
//!
//! # How to read the bodies
//!
//! Some bodies begin with calls that take and return nothing, for example `consumers_move_on()` or
//! `self.seat.has_history()`. These compute nothing: their contracts are laws, and the clauses of the function rest
//! on them.
#![tactic(auto)]

mod consumer;
mod creation;
mod crew;
mod gate;
mod gather;
mod hub;
pub mod laws;
mod mailbox;
mod notes;
mod producer;
mod spare;
mod taken;

pub use consumer::{Consumer, Poll};
pub use crew::{WorkFault, Worked, consumers_left, lanes_left, work};
pub use gate::{Gate, OpenGate, Who};
pub use gather::{Draft, GatherFault};
pub use hub::{Hub, HubFault};
pub use mailbox::Mailbox;
pub use producer::{Producer, Put};
