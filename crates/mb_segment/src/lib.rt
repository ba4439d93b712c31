//! A segment: positions that are drawn, marked, claimed and read, one after the other.
//!
//! # Who does what
//!
//! - [`Segment`] has so many positions, each with a slot for a value. [`Segment::new`] reserves all memory.
//! - [`Hub`] issues passes, and takes them back with what they sent and received ([`Segment::issue`],
//!   [`Segment::take_back`]). [`Segment::end`] tells the whole history, and [`Left`] gives out what nobody received.
//! - [`Pass`] is what one thread sends and receives with. It is linear: who owes a wake, or has drawn a position and not
//!   marked it, cannot let go of it. [`Idle`] is a pass at rest, which moves to threads and may be dropped.
//!
//! # The calls that never wait
//!
//! - A sender draws a position for its value ([`Segment::draw`]), marks it ([`Segment::mark`]), and pays the wake that
//!   it then owes ([`Segment::wake`], for the last position [`Segment::wake_all`]). Who cuts ([`Segment::cut`]) owes as
//!   much as who drew the last.
//! - A receiver looks ([`Segment::look`]), claims what it found ([`Segment::claim`]), and reads it ([`Segment::read`]).
//! - If nothing is there, it enters the list ([`Segment::enter`]), and looks again ([`Segment::look_listed`],
//!   [`Segment::claim_listed`]). If still nothing is there, it sleeps, until [`Segment::accept`] finds a token. Then it
//!   owes a look. It may stop waiting ([`Segment::give_up`], [`Segment::go_unseen`], [`Segment::hand_on`]), and leaves
//!   the list ([`Segment::leave`]).
//!
//! # The calls that wait
//!
//! [`Segment::send`], [`Segment::receive`], [`Segment::receive_by`] and [`Segment::close`] are made of those.
//!
//! # Told by another pass
//!
//! By [`Segment::learn_drawn`] and [`Segment::learn_taken`] a pass learns of what others did. Its later calls stand behind
//! that. [`laws::knowledge_is_true`] says so of each moment.
//!
//! # What is kept
//!
//! Between any two steps of any threads the words, the slots and what each pass knows agree with one history
//! (`specs/Rule.antt`). [`laws`] says what follows for all histories.
#![tactic(auto)]

mod answers;
mod effects;
mod ending;
mod idle;
pub mod laws;
mod learning;
mod left;
mod list;
mod pauses;
mod receiving;
mod rule;
pub mod samples;
mod segment;
mod sending;
mod soon;
mod view;
mod waiting;
mod words;

pub use answers::{Cut, Draw, Leave, Look, Rest, Wake};
pub use idle::Idle;
pub use left::{Fate, Left};
pub use pauses::pause;
pub use segment::{Hub, Pass, Segment};
pub use view::{Account, Duty, Event, Half, Known, Role, Sight, Spot, Tokens, View};
pub use waiting::{NotSent, Received};
