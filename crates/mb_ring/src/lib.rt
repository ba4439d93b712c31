//! A ring: so many slots, used again and again, through which values go in one order.
//!
//! # Who does what
//!
//! - [`Ring`] has so many slots. [`Ring::new`] reserves all memory. No more values wait in it than it has slots.
//! - [`Hub`] issues passes, and takes them back with what they sent and received ([`Ring::issue`],
//!   [`Ring::take_back`]). [`Ring::end`] tells the whole history, and [`Left`] gives out what nobody received.
//! - [`Pass`] is what one thread sends and receives with. It is linear: who owes a wake, or has drawn a position and not
//!   marked it, cannot let go of it. [`Idle`] is a pass at rest, which moves to threads and may be dropped.
//!
//! # The calls that never wait
//!
//! - A sender draws a position for its value ([`Ring::draw`]), marks it ([`Ring::mark`]), and pays the wake that it then
//!   owes to one that waits for values ([`Ring::wake`]). Who cuts ([`Ring::cut`]) owes tokens to all that wait
//!   ([`Ring::wake_all`]).
//! - A receiver looks ([`Ring::look`]), claims what it found ([`Ring::claim`]), reads it ([`Ring::read`]), and pays the
//!   wake that it then owes to one that waits for room.
//! - If nothing is there, a receiver enters the list [`ForValues`] ([`Ring::enter`]), and looks again
//!   ([`Ring::look_listed`], [`Ring::claim_listed`]). If the ring is full, a sender enters the list [`ForRoom`], and draws
//!   again ([`Ring::draw_listed`]). If still nothing is there, or no room, it sleeps, until [`Ring::accept`] finds a
//!   token. Then it owes a look. It may stop waiting ([`Ring::give_up`], [`Ring::go_unseen`], [`Ring::hand_on`]), and
//!   leaves the list ([`Ring::leave`]).
//!
//! # The calls that wait
//!
//! [`Ring::try_send`], [`Ring::send`], [`Ring::send_by`], [`Ring::try_receive`], [`Ring::receive`], [`Ring::receive_by`]
//! and [`Ring::close`] are made of those. [`Ring::len`] tells how many values wait.
//!
//! # What is kept
//!
//! Between any two steps of any threads the words, the slots and what each pass knows agree with one history
//! (`specs/Rule.antt`). [`laws`] says what follows for all histories.
#![tactic(auto)]

mod answers;
mod counting;
mod effects;
mod ending;
mod idle;
pub mod laws;
mod left;
mod list;
mod lists;
mod receives;
mod receiving;
mod ring;
mod room;
mod rule;
pub mod samples;
mod sending;
mod sends;
mod view;
mod waiting;
mod words;

pub use answers::Draw;
pub use idle::Idle;
pub use left::Left;
pub use lists::{AnyList, ForRoom, ForValues};
pub use receives::Found;
pub use ring::{Hub, Pass, Ring};
pub use sends::NotSent;
pub use view::{Duties, Sight, Tallies, View, Want};
