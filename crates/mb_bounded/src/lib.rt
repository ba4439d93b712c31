//! A channel with a bound, for any number of senders and receivers, over one ring.
//!
//! - [`bounded`] gives a sender and a receiver. [`Sender::another_sender`] and [`Receiver::another_receiver`] make
//!   further ends, which can be moved to threads. Each end carries its channel.
//! - [`Sender::send`] and [`Receiver::receive`] wait, and [`Sender::send_by`] and [`Receiver::receive_by`] wait until a
//!   deadline. [`Sender::try_send`] and [`Receiver::try_receive`] do not sleep.
//! - [`Sender::close`] and [`Receiver::close`] close the channel. So does the last sender or the last receiver that is
//!   given back by [`Sender::retire`] or [`Receiver::retire`]. What is left of an end then is a [`Past`].
//! - [`Sender::end`] and [`Receiver::end`] end the channel by its last end, with the `Past` of each other one.
#![tactic(auto)]

mod counting;
mod desk;
mod end;
mod ending;
mod hall;
pub mod laws;
mod leaving;
mod making;
mod office;
mod receives;
mod rule;
pub mod samples;
mod sends;
mod view;

pub use end::{Past, Receiver, Sender};
pub use ending::NotEnded;
pub use making::bounded;
pub use mb_ring::{Found, Left, NotSent};
pub use mb_segment::Received;
