//! The channel for C, and for languages that can call C. `bindings/c/hazbultra_channel.h` says what each call does and
//! what its caller has to keep to.
//!
//! A handle is the address of a box, and leads to an end of a channel, or to nothing. Each call makes a few accesses
//! and never waits. It tells its caller which threads to wake, and when to sleep.
//!
//! `hz_channel_new` and `hz_channel_another` take memory for one box an end. `hz_channel_send` and `hz_channel_receive`
//! take memory for a segment. No other call takes memory.
#![tactic(auto)]

mod calls;
mod codes;
mod counting;
mod create;
mod going;
mod handle;
mod paying;
mod thing;

pub use thing::things_cross_threads;
