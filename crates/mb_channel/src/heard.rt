//! The looks of a receiver that never waits, in its segment.
ghost use Rattle.std.specs.Prelude.{◌≡◌};
ghost use Rattle.mb_segment.specs.Moves.{found_empty};
ghost use Rattle.mb_channel.specs.Inside.{SawNothing};
ghost use Rattle.mb_channel.specs.Wakes.{Tells, wakes_by, wakes_in};
ghost use Rattle.mb_channel.specs.Work.{IfAsleep, OfHeard, work_in, work_of};
ghost use Rattle.mb_channel.specs.declared.busy.Debt.TheVariants as owed;

use crate::busy::{Busy, Debt};
use crate::inside::Inside;
use mb_segment::{Look, Rest};

/// What a look comes to.
#[derive(Debug, Drop)]
pub enum Heard<T> {
    Value(T),
    /// No value is there. The end is in the list, has looked there, and sleeps.
    Asleep,
    /// A value is being sent, or another end was first.
    Again,
    /// No value can come any more.
    Over,
}

impl<T: Drop> Inside<T> {
    /// Looks for a value here. If none is there, it enters the list of those that wait, and looks again.
    pub(crate) fn poll(self, name: u32) -> (Busy<T>, Heard<T>)
        requires named { self.pass.seat.me.0.account.name ≡ name }
        ensures looked { OfHeard result.1 (work_in self) result.0 }
        ensures wakes { Tells 0 (wakes_in self) (wakes_by result.0) }
        ensures saw { IfAsleep result.1 (SawNothing (found_empty (work_in self).pass)
            (work_of result.0).pass) }
    {
        let Inside { segment, pass } = self;
        let mut busy = Busy {
            segment,
            pass: pass.pass(),
            debt: Debt::Nothing,
        };
        let heard = busy.look_first(name);
        (busy, heard)
    }
}

impl<T: Drop> Busy<T> {
    /// Looks. If no value is there, it enters the list.
    fn look_first(&mut self, name: u32) -> Heard<T>
        requires named { self.old.pass.seat.me.0.account.name ≡ name }
        requires nothing { self.old.debt ≡ owed.Nothing }
        ensures looked { OfHeard result (work_of self.old) self.new }
        ensures wakes { Tells 0 (wakes_by self.old) (wakes_by self.new) }
        ensures saw { IfAsleep result (SawNothing (found_empty (work_of self.old).pass)
            (work_of self.new).pass) }
    {
        match self.segment.look(&mut self.pass) {
            Look::Ready(at) => {
                if self.segment.claim(&mut self.pass, at) {
                    Heard::Value(self.segment.read(&mut self.pass, at, name))
                } else {
                    Heard::Again
                }
            }
            Look::Yield => Heard::Again,
            Look::Over => Heard::Over,
            Look::Empty => self.enter(name),
        }
    }

    /// Enters the list of those that wait, and looks.
    fn enter(&mut self, name: u32) -> Heard<T>
        requires named { self.old.pass.seat.me.0.account.name ≡ name }
        requires nothing { self.old.debt ≡ owed.Nothing }
        ensures looked { OfHeard result (work_of self.old) self.new }
        ensures wakes { Tells 0 (wakes_by self.old) (wakes_by self.new) }
        ensures saw { IfAsleep result (SawNothing (found_empty (work_of self.old).pass)
            (work_of self.new).pass) }
    {
        if !self.segment.enter(&mut self.pass) {
            return Heard::Again;
        }
        self.debt = Debt::Fresh;
        self.look_listed(name)
    }

    /// Looks, in the list.
    fn look_listed(&mut self, name: u32) -> Heard<T>
        requires named { self.old.pass.seat.me.0.account.name ≡ name }
        requires fresh { self.old.debt ≡ owed.Fresh }
        ensures looked { OfHeard result (work_of self.old) self.new }
        ensures wakes { Tells 0 (wakes_by self.old) (wakes_by self.new) }
        ensures saw { IfAsleep result (SawNothing (found_empty (work_of self.old).pass)
            (work_of self.new).pass) }
    {
        match self.segment.look_listed(&mut self.pass) {
            Look::Ready(at) => {
                if !self.segment.claim_listed(&mut self.pass, at) {
                    return Heard::Again;
                }
                let value = self.segment.read(&mut self.pass, at, name);
                self.debt = Debt::Leave;
                self.leave();
                Heard::Value(value)
            }
            Look::Yield => Heard::Again,
            Look::Over => {
                self.debt = Debt::Leave;
                self.leave();
                Heard::Over
            }
            Look::Empty => {
                self.debt = Debt::Asleep;
                Heard::Asleep
            }
        }
    }

    /// One that sleeps takes a token, and looks. It sleeps on if no token is there. If another pass was first at the
    /// list, it stops waiting.
    pub(crate) fn wake_up(&mut self, name: u32) -> Heard<T>
        requires named { self.old.pass.seat.me.0.account.name ≡ name }
        requires asleep { self.old.debt ≡ owed.Asleep }
        ensures looked { OfHeard result (work_of self.old) self.new }
        ensures wakes { Tells 0 (wakes_by self.old) (wakes_by self.new) }
    {
        match self.segment.accept(&mut self.pass) {
            Rest::Sleep => Heard::Asleep,
            // A token may be there, so whoever slept on could sleep forever.
            Rest::Again => {
                self.give_up();
                Heard::Again
            }
            Rest::Woken => {
                self.debt = Debt::Look;
                self.look_woken(name)
            }
        }
    }

    /// Looks, for a token that it took.
    fn look_woken(&mut self, name: u32) -> Heard<T>
        requires named { self.old.pass.seat.me.0.account.name ≡ name }
        requires look { self.old.debt ≡ owed.Look }
        ensures looked { OfHeard result (work_of self.old) self.new }
        ensures wakes { Tells 0 (wakes_by self.old) (wakes_by self.new) }
    {
        match self.segment.look(&mut self.pass) {
            Look::Ready(at) => {
                if !self.segment.claim(&mut self.pass, at) {
                    return Heard::Again;
                }
                self.debt = Debt::Nothing;
                Heard::Value(self.segment.read(&mut self.pass, at, name))
            }
            Look::Yield => Heard::Again,
            Look::Over => {
                self.debt = Debt::Nothing;
                Heard::Over
            }
            Look::Empty => {
                self.debt = Debt::Nothing;
                Heard::Again
            }
        }
    }
}
