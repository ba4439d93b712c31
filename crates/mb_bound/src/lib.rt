//! The hub, the producers and the consumers of a mailbox, each kept together with its mailbox. So no caller can use one
//! with another mailbox, and a put, a finish, a poll and a gather have no `requires`.
//!
//! The three types have what those of `mb_mailbox` have, and the mailbox in an [`Arc`](std::sync::Arc). An invariant of
//! each type says that it belongs to its mailbox. The clauses are those of `mb_mailbox`, without their premises. The
//! functions `is_bound` compute nothing: their contracts are laws.
//!
//! Each mailbox has a number that its maker chose. Only [`BoundHub::take_producer`] and [`BoundHub::take_consumer`]
//! read it. A caller has to keep to one thing: equal numbers mean one mailbox.
#![tactic(auto)]

mod consumer;
mod hub;
mod producer;

pub use consumer::BoundConsumer;
pub use hub::BoundHub;
pub use producer::BoundProducer;
use std::alloc::Allocator;

/// Takes each type that may go from thread to thread.
fn crosses_threads<T: Send>() {}

/// The three types may go from thread to thread. The proof is that this function is accepted.
pub fn all_cross_threads<A: Allocator + Drop + Send + Sync>() {
    crosses_threads::<BoundHub<A>>();
    crosses_threads::<BoundProducer<A>>();
    crosses_threads::<BoundConsumer<A>>();
}
