//! A pool of cells whose words threads share, each with a seat of its own.
//!
//! The lanes, the cells and the readers are those of [`mb_cells`]. Here their words lie in one table of atomic words.
//!
//! # Seats
//!
//! - [`SharedCells`] owns the words. All its calls but [`SharedCells::new`] take no memory, and none waits. A hub or
//!   seat that a call takes has to be of this table.
//! - [`CellHub`] issues seats, and takes them back with what was done on them.
//! - [`LaneSeat`] is what a producer offers, pushes and finishes with. It keeps the producer's place as a
//!   [`mb_cells::Lane`], and makes the same accesses as a `mb_cells::Pool`.
//! - [`ReaderSeat`] is what a reader looks and loads items with.
//!
//! # What is kept
//!
//! Each access is one atomic step, whatever the other seats do. At every moment some lawful history leaves the pool's
//! words as they are. Its parts are those that the seats and the hub have (`specs/Rule.antt`). The holder of a seat
//! knows its part. Each call says which access it made, after some lawful history in which the seat had done its part.
//! In the end [`SharedCells::close`] gives one history for all parts that were returned. So all laws of `mb_cells` hold
//! of what threads did, whatever the order of their steps.
#![tactic(auto)]

pub mod laws;
mod rule;
pub mod samples;
mod table;
mod views;

pub use rule::CellsRule;
pub use table::{AllGiven, CellHub, LaneSeat, ReaderSeat, SharedCells};
pub use views::{Roll, View};
