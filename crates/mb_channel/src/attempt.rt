//! A try to send a value in a segment, which never waits.
ghost use Rattle.std.specs.Prelude.{◌≡◌};
ghost use Rattle.mb_channel.specs.Wakes.{Tells, after_attempt, wakes_in};
ghost use Rattle.mb_channel.specs.Work.{OfAttempt, work_in};

use crate::busy::{Busy, Debt};
use crate::inside::{Inside, rested};
use mb_segment::{Draw, Wake};

/// What came of a try to send in a segment.
pub enum Attempt<T: Drop> {
    /// The value is sent, and nothing is owed.
    Sent(Inside<T>),
    /// The value is sent, and something is owed.
    Owes(Busy<T>),
    /// Another was first. Try again.
    Again(Inside<T>, T),
    /// No more can be sent here.
    Over(Inside<T>, T),
}

impl<T: Drop> Inside<T> {
    /// Tries to send a value here.
    #[inline(always)]
    pub(crate) fn try_send(self, value: T, name: u32) -> Attempt<T>
        requires named { self.pass.seat.me.0.account.name ≡ name }
        ensures answer { OfAttempt result value (work_in self) }
        ensures wakes { Tells 0 (wakes_in self) (after_attempt result) }
    {
        let Inside { segment, pass } = self;
        let mut pass = pass.pass();
        let at = match segment.draw(&mut pass, &value) {
            Draw::At(at) => at,
            Draw::Again => return Attempt::Again(rested(segment, pass), value),
            Draw::Full => return Attempt::Over(rested(segment, pass), value),
            Draw::Closed => return Attempt::Over(rested(segment, pass), value),
        };
        segment.mark(&mut pass, at, value, name);
        if at + 1 == segment.size() {
            return Attempt::Owes(Busy {
                segment,
                pass,
                debt: Debt::Tokens,
            });
        }
        match segment.wake(&mut pass) {
            Wake::Nobody => Attempt::Sent(rested(segment, pass)),
            Wake::One => Attempt::Owes(Busy {
                segment,
                pass,
                debt: Debt::Thread,
            }),
            Wake::Again => Attempt::Owes(Busy {
                segment,
                pass,
                debt: Debt::Token,
            }),
        }
    }
}
