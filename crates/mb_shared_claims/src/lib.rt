//! Claims on words that threads share.
//!
//! # How threads claim
//!
//! A table has the words of the claims on some cells. One more word, the *roster*, counts the numbers drawn. `new`
//! makes a table with one hub. The hub issues each consumer's number once, with a *seat*: a thread makes its
//! accesses with it. A seat carries what its consumer has done, its *part*. That is plain data which only proofs see,
//! so it takes no room and no time. In the end the hub takes the seats back, each with its part.
//!
//! Each step of a claim is one atomic load, store or compare-exchange of one word. It keeps the table's rule: some
//! lawful history of claims leaves what the cells' words hold, and its parts are those of the seats. So the laws of
//! [`mb_claim`] hold of what the threads did, in whatever order: at most one consumer wins a cell.
//!
//! # What is here
//!
//! - [`SharedClaims`] has the words. [`SharedClaims::new`] makes it with its [`ClaimHub`]. [`SharedClaims::enroll`]
//!   issues the next number, [`SharedClaims::take_in`] takes a seat back, and [`SharedClaims::close`] says that all
//!   parts are of one history. A hub or seat that a call gets has to be of its table.
//! - [`SharedClaims::step`] makes the next access of a claim from a [`ClaimSeat`]. It takes no lock and never waits.
//!   [`SharedClaims::straight`] makes the accesses of a new claim, faster.
//! - [`laws`] has what the rule says of each state of a table, that each kind of step keeps it, and that no cell has
//!   two winners. [`rule`] has the rule itself, and [`view`] what a seat knows. Programs need none of these three.
#![tactic(auto)]

mod hub;
pub mod laws;
pub mod rule;
pub mod samples;
mod seat;
mod table;
pub mod view;

pub use hub::{AllGiven, ClaimHub};
pub use seat::ClaimSeat;
pub use std::alloc::AllocError as NoMemory;
pub use table::SharedClaims;
