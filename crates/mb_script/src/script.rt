//! What a replay script says.

use mb_world::{Event, Setup};
use std::alloc::Allocator;

/// The most events of a script.
pub const MAX_EVENTS: usize = 20_000;

/// A world, and what is to happen in it.
#[derive(Drop)]
pub struct Script<A: Allocator + Drop> {
    /// The numbers of the world, and the deciding objects of its cells.
    pub setup: Setup,
    /// What is to happen, in the order of time. Each lane and consumer named here is the world's.
    pub events: Vec<Event, A>,
}
