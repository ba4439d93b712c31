//! Claims: consumers compete for a cell, and at most one of them wins it.
//!
//! # How a claim goes
//!
//! Each cell has deciding objects of [`mb_deciding`] in a row: pairs of a conciliator and a ratifier. Its [`Shape`] may
//! add two ratifiers before them, a *fast path*, and a last object after them. With [`Layout::exchange`] there are no
//! pairs, but a last object alone. A consumer goes through the objects in order.
//! Its input to the first is its own number, and its input to each next one is what the object before returned.
//! The first object that decides ends the claim: it is *won* if the value is the consumer's own number, and else *lost*
//! to that number. If no object of the row has decided, it is *undecided*.
//!
//! A ratifier that decides a value for one consumer returns that value to all who use it. So all who go on do so with
//! one value, no later object returns another, and all who win or lose name one winner. Each value is the input of some
//! consumer that came, so the winner has competed. The conciliator of a pair makes it likely that all come to the
//! pair's ratifier with one value, and then it decides. The claim of a consumer that is alone is always decided. On a
//! fast path it is decided before it comes to a conciliator. With a last object every claim is decided.
//!
//! # What is here
//!
//! - [`Layout`] says which objects each cell has, and where their words lie in one block.
//! - [`Claim`] is the claim of one consumer on one cell. [`Claim::next`] returns its next access, and [`Claim::after`]
//!   the [`Stage`] that this leads to. A claim holds no words, so it serves a simulation and threads alike.
//! - [`Claim::straight`] makes the accesses of a new claim through whole objects, in a memory that draws random words.
//!   The [`Stretch`] says where they ended.
//! - [`ClaimWords`] has the words of some cells in one block, and makes the next access of a claim there.
//! - [`play`] runs the claims of all consumers on one cell, step by step.
//! - [`laws`] has what holds of every lawful history of claims, for all orders of accesses and all random words, and of
//!   every layout and run. [`steps`] has what one access more changes, for callers that keep words and histories of
//!   their own. [`samples`] has small histories. All are contracts of functions that compute nothing.
#![tactic(auto)]

mod access;
mod board;
mod claim;
mod claim_words;
pub mod laws;
mod layout;
mod plays;
mod run;
pub mod samples;
mod shape;
pub mod steps;

pub use access::{ClaimAccess, ClaimOp, ClaimStep, ObjectTurn, Stage};
pub use claim::Claim;
pub use claim::straight::Stretch;
pub use claim_words::ClaimWords;
pub use layout::{BadLayout, Layout, MAX_CELLS, MAX_LARGE_CELLS, MAX_PAIRS};
pub use plays::play;
pub use run::{ClaimEntry, ClaimRun, PlayFault};
pub use shape::Shape;
