//! A channel for any number of senders and receivers, over a list of segments.
//!
//! - [`unbounded`] gives a sender and a receiver of a new channel. [`Sender::another`] and [`Receiver::another`] make
//!   further ends. Ends can be moved to threads.
//! - [`Sender::send`] and [`Receiver::receive`] wait, and [`Receiver::receive_by`] waits until a deadline.
//!   [`Receiver::try_receive`] never waits.
//! - [`Sender::close`] and [`Receiver::close`] close the channel. So does the end of the last sender.
//! - [`Sender::try_send`] and [`Receiver::poll_receive`] never wait either, and leave it to the caller to wake and to
//!   sleep. Whoever owes a wake is [`Owing`] or [`Leaving`], and whoever sleeps is [`Asleep`].
//! - [`Sender::draw`] and [`Drawn::mark`] are the two halves of a send, and [`Receiver::claim`] and [`Claimed::read`]
//!   those of a receive. None of them waits.
//! - [`Sender::known`] and [`Receiver::known`] say how far an end knows. [`Sender::learn`] and [`Receiver::learn`] tell
//!   that to another end. If they answer `true`, its later calls stand behind that [`Place`].
//! - [`Receiver::give_back`] gives a value back to the end of the one order.
//! - [`audited`] gives a channel whose ends have names. [`Sender::try_fates`] tells who sent each value, and who received
//!   it.
//! - [`Receiver::give_sender`] and [`Receiver::give_receiver`] take an end back. [`Receiver::end`] ends the channel by
//!   its last one.
//!
//! [`laws`] has the theorem of a channel, over all histories.
#![tactic(auto)]

mod answers;
mod attempt;
mod auditing;
mod begun;
mod busy;
mod channel;
mod claiming;
mod counting;
mod cutting;
mod debtor;
mod departing;
mod drawing;
mod end;
mod ending;
mod giving;
pub mod half_samples;
mod halfway;
mod heard;
mod held;
mod home;
pub mod home_samples;
mod inside;
mod kept;
pub mod laws;
mod list;
mod listening;
mod making;
mod parties;
mod passes;
mod place;
mod polls;
mod posting;
mod receives;
mod rest;
mod returning;
mod rule;
pub mod samples;
mod sends;
pub mod state_samples;
mod stuck;
mod telling;
mod tried;
mod try_sends;
mod view;
mod visits;
pub mod work_samples;

pub use answers::{Came, Retired};
pub use auditing::Audited;
pub use channel::Refused;
pub use claiming::{Claimed, Claiming};
pub use departing::{Cutter, Departing};
pub use drawing::{Drawing, Drawn};
pub use end::{Receiver, Sender};
pub use held::{Held, Stored};
pub use home::{Fates, Home, Homes, Shared};
pub use kept::KeptSender;
pub use making::{audited, unbounded};
pub use place::Place;
pub use polls::{Asleep, Leaving, Polled};
pub use posting::Posted;
pub use rest::{Ending, Rest};
pub use sends::NotSent;
pub use tried::Tried;
pub use try_sends::{Owing, Sending};
pub use view::{Knows, Past, Visit};
