//! Cells of one pool, which producers link into lanes. Readers meet them there in the order of linking.
//!
//! # Lanes
//!
//! Each producer has a **lane**, a list of cells that only grows. A lane has a *head* word, a cell has an *item* word
//! and a *link* word, and all lanes share one *counter*. All are 0 at first. To put an item, a producer makes three
//! accesses. A fetch-add of the counter gives it a cell of its own, or a number past the cells if none is left.
//! Then it stores the item in that cell. At last it stores the cell's number, plus one, in the link of the lane's last
//! cell, or in the head. At its end it may store an *end mark* where the next link would go. No access follows it.
//!
//! A reader loads a head or a link. If the value is 0, nothing is linked there yet, and the reader may look again. Else
//! it leads to a cell, or it is the end mark. The item of that cell was stored before the link to it, and no other
//! producer has the cell, so the item is there to stay. A link is stored once. So all readers meet the same cells in
//! the same order. The end mark comes after the last cell, and the only way there leads through all cells. So a
//! reader that loaded the end mark has met all cells of the lane.
//!
//! # What is here
//!
//! - [`Lane`] is the place of a producer. [`Lane::next_push`] returns its next store, and [`Lane::pushed`] moves on to
//!   the place after it. [`Cursor`] is where a reader stands. They hold no words, so they serve threads too.
//! - [`Pool`] has all words and lanes under one caller, and makes each access itself.
//! - [`laws`] has what holds of every lawful history of a pool, for all orders of accesses, and of every list of calls.
//!   [`steps`] has what builders of worlds and tables need. [`samples`] shows what each definition admits and refuses.
//!   These three have contracts of functions that compute nothing.
#![tactic(auto)]

mod access;
mod answer;
mod cursor;
mod lane;
pub mod laws;
mod pool;
pub mod samples;
mod size;
pub mod steps;
mod words;

pub use access::{END, PoolAccess, PoolAct, Process, Word};
pub use answer::{Finish, Look, NoMemory, Offer, Push};
pub use cursor::Cursor;
pub use lane::{Lane, LaneStage};
pub use pool::Pool;
pub use size::PoolSize;
