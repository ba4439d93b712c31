//! A try to send a value in a segment, by a pass that stays where it is.
ghost use Rattle.std.specs.Prelude.{◌≡◌};
ghost use Rattle.mb_channel.specs.Posted.{HasPosted};
ghost use Rattle.mb_channel.specs.Wakes.{Tells, wakes_by};
ghost use Rattle.mb_channel.specs.Work.{work_of};
ghost use Rattle.mb_channel.specs.declared.busy.Debt.TheVariants as owed;

use crate::busy::{Busy, Debt};
use mb_segment::{Draw, Wake};

/// What came of a try to send in place.
pub enum Posted<T> {
    /// The value is sent, and nothing is owed.
    Sent,
    /// The value is sent, and receivers may have to be woken.
    Owes,
    /// The value is not sent, since another sender was first. Try again after some microseconds.
    Again(T),
    /// The value is not sent. Pay what is owed, and try again by a call that can go on to the next segment.
    Back(T),
}

impl<T: Drop> Busy<T> {
    /// Tries to send a value here.
    #[inline(always)]
    pub(crate) fn send_here(&mut self, value: T, name: u32) -> Posted<T>
        requires named { self.old.pass.seat.me.0.account.name ≡ name }
        requires nothing { self.old.debt ≡ owed.Nothing }
        ensures answer { HasPosted result value (work_of self.old) self.new }
        ensures wakes { Tells 0 (wakes_by self.old) (wakes_by self.new) }
    {
        let at = match self.segment.draw(&mut self.pass, &value) {
            Draw::At(at) => at,
            Draw::Again => return Posted::Again(value),
            Draw::Full => return Posted::Back(value),
            Draw::Closed => return Posted::Back(value),
        };
        self.segment.mark(&mut self.pass, at, value, name);
        if at + 1 == self.segment.size() {
            self.debt = Debt::Tokens;
            return Posted::Owes;
        }
        match self.segment.wake(&mut self.pass) {
            Wake::Nobody => return Posted::Sent,
            Wake::One => self.debt = Debt::Thread,
            Wake::Again => self.debt = Debt::Token,
        }
        Posted::Owes
    }
}
