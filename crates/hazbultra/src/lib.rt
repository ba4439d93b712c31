//! The mailbox for C, and for languages that can call C. `bindings/c/hazbultra.h` says what each call does and what its
//! caller has to keep to.
//!
//! Each call is exported. A handle is the address of a box, and leads to a hub, a producer, a consumer, a report or
//! nothing. It lends to a call what it leads to. Only `hz_take_back`, `hz_gather` and `hz_free` take that out of a
//! handle.
//!
//! `hz_mailbox_new`, `hz_producer_new` and `hz_consumer_new` take memory for one box each, beside what `mb_bound`
//! takes. `hz_gather` takes memory for the report, and puts it into the hub's box. No other call takes memory.
//! `hz_next_id` is in `bindings/c/heap.c`.
#![tactic(auto)]

mod boundary;
mod calls;
mod codes;
mod copies;
mod create;
mod gathering_end;
mod handle;
pub mod laws;
mod reports;
mod thing;

pub use thing::things_cross_threads;
