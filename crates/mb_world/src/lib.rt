//! The world: lanes and claims together, under one caller that says which process makes its next access.
//!
//! An [`Event`] is one step of a producer or of a consumer: one access of one word, or none if it is refused. Its
//! [`Answer`] names that access. [`World::apply`] makes it, in a number of instructions that does not grow with what
//! was done before. [`World::report`] reads lanes, places and notes at any time.
//!
//! The main theorem (`specs/Theorem.antt`) is a law of [`laws`]. It speaks of all histories, also of those of threads,
//! for which no world is made. [`samples`] shows what the definitions admit, and what they refuse.
#![tactic(auto)]

mod event;
mod known;
pub mod laws;
mod place;
mod report;
pub mod samples;
mod setup;
pub mod steps;
mod world;

pub use event::{Answer, Event};
pub use place::Place;
pub use report::{Diary, LaneReport, Note, Report};
pub use setup::{MAX_PRODUCERS, Setup, SetupFault};
pub use world::World;
