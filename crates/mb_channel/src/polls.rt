//! A receive that never waits, and the steps of sleep.
ghost use Rattle.std.specs.Prelude.{◌≡◌, ◌<◌, true};
ghost use Rattle.mb_channel.specs.Homes.{view_in};
ghost use Rattle.mb_channel.specs.Work.{IsAwake, Sleeps};

use crate::busy::Busy;
use crate::channel::{Refused, TRIES};
use crate::debtor::Debtor;
use crate::end::Receiver;
use crate::heard::Heard;
use std::sync::Wait;
use std::time::{Clock, Instant};

/// A receiver that owes something: it has to leave the list of those that wait, or to wake another. It does not sleep, and
/// cannot be dropped. [`Leaving::pay`] and [`Leaving::pay_some`] make a receiver of it again.
pub struct Leaving<T: Drop> {
    pub(crate) debtor: Debtor<T>,
    ghost takes: { (view_in debtor.chair).takes ≡ true },
    ghost sends: { (view_in debtor.chair).sends ≡ 0 },
    ghost receives: { 0 < (view_in debtor.chair).receives },
    ghost awake: { IsAwake debtor.busy },
}

/// A receiver that sleeps: it is in the list of those that wait, and looked there. It cannot be dropped.
pub struct Asleep<T: Drop> {
    pub(crate) debtor: Debtor<T>,
    ghost takes: { (view_in debtor.chair).takes ≡ true },
    ghost sends: { (view_in debtor.chair).sends ≡ 0 },
    ghost receives: { 0 < (view_in debtor.chair).receives },
    ghost sleeps: { Sleeps debtor.busy },
}

/// What came of a receive that never waits.
pub enum Polled<T: Drop> {
    /// A value was received.
    Took(Receiver<T>, T),
    /// A value was received, and something is owed.
    TookOwing(Leaving<T>, T),
    /// No value is there. Let the thread sleep ([`Asleep::sleep`]), and then call [`Asleep::wake_up`].
    Sleeps(Asleep<T>),
    /// Nothing is known. A value is being sent, another end was first, or the lock is taken. Or the receiver was woken for
    /// a value that another took. Or it has still to come to the next segment, for which there may be no memory. Yield,
    /// and try again.
    Again(Receiver<T>),
    /// The same, and something is owed.
    Owes(Leaving<T>),
    /// [`Refused::Closed`] says that no value can ever come again. [`Refused::Crowded`] says that the segments or their
    /// ends cannot be counted.
    Refused(Receiver<T>, Refused),
}

impl<T: Drop> Receiver<T> {
    ghost use Rattle.mb_channel.specs.Answers.{IfClosed};
    ghost use Rattle.mb_channel.specs.Ends.{IsBehind, stand_of};
    ghost use Rattle.mb_channel.specs.Polls.{IsNotForMemory, OfPolled, PollClosed};
    ghost use Rattle.mb_channel.specs.Receives.{SawEmpty};
    ghost use Rattle.mb_channel.specs.Standing.{stand_with};
    ghost use Rattle.mb_channel.specs.Wakes.{Tells, after_polled, wakes_of};

    /// Tries to receive the next value. If none is there, the receiver enters the list of those that wait, and looks
    /// again. For that it adds the next segment, if there is none yet. It makes a few accesses, and never waits itself.
    pub fn poll_receive(self) -> Polled<T>
        ensures answer { let v = stand_of self.end in OfPolled result v
            (λ a. SawEmpty v (stand_with a.debtor))
            (λ r why. IfClosed why (IsBehind r.end)) }
        ensures wakes { Tells 0 (wakes_of self.end) (after_polled result) }
        ensures still { IsBehind self.end → PollClosed result }
        ensures memory { IsNotForMemory result }
    {
        let Receiver { mut end } = self;
        for _ in 0..TRIES {
            match end.poll() {
                Ok((debtor, heard)) => return debtor.answer(heard),
                Err(back) => end = back,
            }
            if let Err(why) = end.go_on(true, true) {
                return Polled::Refused(Receiver { end }, why);
            }
        }
        Polled::Again(Receiver { end })
    }
}

impl<T: Drop> Asleep<T> {
    ghost use Rattle.mb_channel.specs.Polls.{OfPolled};
    ghost use Rattle.mb_channel.specs.Standing.{NoMore, stand_with};
    ghost use Rattle.mb_channel.specs.Wakes.{Tells, after_polled, wakes_with};

    /// The number of the segment where it sleeps.
    pub fn place(&self) -> usize
        ensures { result ≡ (view_in self.now.debtor.chair).at }
    {
        self.debtor.at
    }

    /// Lets the thread sleep until a token is there, or for no reason. It changes nothing: call [`Asleep::wake_up`] next.
    pub fn sleep<R: Wait>(&self, rt: &R) {
        let Busy { segment, pass, .. } = &self.debtor.busy;
        segment.park(rt, pass);
    }

    /// The same until a deadline. It is `false` if that has come, or if there is no clock.
    pub fn sleep_by<R: Wait + Clock>(&self, rt: &R, deadline: Instant) -> bool {
        let Busy { segment, pass, .. } = &self.debtor.busy;
        segment.park_by(rt, pass, deadline)
    }

    /// Takes a token, if one is there, and looks. Else it sleeps on. If another end was first at the list, a token may be
    /// there. Then the answer is [`Polled::Owes`], and the receiver no longer waits. The token for which the thread was
    /// woken may still be in the list: [`Leaving::pay`] wakes one more thread for it.
    pub fn wake_up(self) -> Polled<T>
        ensures answer { OfPolled result (stand_with self.debtor)
            (λ a. Unit {0}) (λ r why. ⊥) }
        ensures wakes { Tells 0 (wakes_with self.debtor) (after_polled result) }
    {
        let Asleep { debtor } = self;
        let (debtor, heard) = debtor.wake_up();
        debtor.answer(heard)
    }

    /// Stops waiting. It has still to leave the list.
    pub fn give_up(self) -> Leaving<T>
        ensures still { NoMore (stand_with self.debtor) (stand_with result.debtor) }
        ensures wakes { Tells 0 (wakes_with self.debtor) (wakes_with result.debtor) }
    {
        let Asleep { mut debtor } = self;
        debtor.give_up();
        Leaving { debtor }
    }
}

impl<T: Drop> Leaving<T> {
    ghost use Rattle.std.specs.Prelude.{IfErr, IfOk};
    ghost use Rattle.mb_channel.specs.Ends.{stand_of};
    ghost use Rattle.mb_channel.specs.Standing.{NoMore, stand_with};
    ghost use Rattle.mb_channel.specs.Wakes.{Tells, one_if, wakes_of, wakes_with};

    /// The number of the segment where the tokens are given. Only who sleeps there can take them.
    pub fn place(&self) -> usize
        ensures { result ≡ (view_in self.now.debtor.chair).at }
    {
        self.debtor.at
    }

    /// Leaves the list, and gives the tokens that are owed. It wakes a thread for each, and receives nothing.
    pub fn pay<R: Wait>(self, rt: &R) -> Receiver<T>
        ensures { NoMore (stand_with self.debtor) (stand_of result.end) }
    {
        let Leaving { debtor } = self;
        Receiver {
            end: debtor.pay(rt),
        }
    }

    /// Tries to leave the list, or to give a token, and wakes nobody. The answer has `true` once for each token that was
    /// given. The caller then has to wake a thread that sleeps at the same place, or else all that sleep in the channel.
    /// The receiver comes back once it owes nothing more. After [`Asleep::wake_up`] answered [`Polled::Owes`], its caller
    /// has to wake one more thread at that place.
    pub fn pay_some(self) -> (bool, Result<Receiver<T>, Leaving<T>>)
        ensures paid { IfOk result.1 (λ r. NoMore (stand_with self.debtor) (stand_of r.end)) }
        ensures owes { IfErr result.1 (λ l. NoMore (stand_with self.debtor) (stand_with l.debtor)) }
        ensures wakes { IfOk result.1
            (λ r. Tells (one_if result.0) (wakes_with self.debtor) (wakes_of r.end)) }
        ensures still { IfErr result.1
            (λ l. Tells (one_if result.0) (wakes_with self.debtor) (wakes_with l.debtor)
            × ((wakes_with l.debtor).untold ≡ 0)) }
        ensures place { IfOk result.1 (λ r. r.end.chair ≡ self.debtor.chair) }
        ensures place_owing { IfErr result.1 (λ l. l.debtor.chair ≡ self.debtor.chair) }
    {
        let Leaving { debtor } = self;
        let (wakes, rest) = debtor.pay_some();
        match rest {
            Ok(end) => (wakes, Ok(Receiver { end })),
            Err(debtor) => (wakes, Err(Leaving { debtor })),
        }
    }
}

impl<T: Drop> Debtor<T> {
    ghost use Rattle.mb_channel.specs.Ends.{Standing};
    ghost use Rattle.mb_channel.specs.Polls.{OfLook, OfPolled};
    ghost use Rattle.mb_channel.specs.Standing.{NoMore, stand_with};
    ghost use Rattle.mb_channel.specs.Wakes.{Tells, after_polled, wakes_with};
    ghost use Rattle.mb_channel.specs.declared.heard.Heard.TheVariants as looked;

    /// What a receiver answers after its look.
    fn answer(self, heard: Heard<T>) -> Polled<T>
        requires takes { (view_in self.chair).takes ≡ true }
        requires sends { (view_in self.chair).sends ≡ 0 }
        requires receives { 0 < (view_in self.chair).receives }
        requires looked { (v : Standing T) × OfLook heard v self }
        ensures answer { (v : Standing T) → OfLook heard v self → OfPolled result v
            (λ a. (a.debtor ≡ self) × (heard ≡ looked.Asleep)) (λ r why. ⊥) }
        ensures wakes { Tells 0 (wakes_with self) (after_polled result) }
    {
        match heard {
            Heard::Asleep => Polled::Sleeps(Asleep { debtor: self }),
            Heard::Value(value) => match self.rest() {
                Ok(end) => Polled::Took(Receiver { end }, value),
                Err(debtor) => Polled::TookOwing(Leaving { debtor }, value),
            },
            Heard::Again => self.not_yet(),
            Heard::Over => self.not_yet(),
        }
    }

    /// The answer of a receiver that received nothing, and does not sleep.
    fn not_yet(self) -> Polled<T>
        requires takes { (view_in self.chair).takes ≡ true }
        requires sends { (view_in self.chair).sends ≡ 0 }
        requires receives { 0 < (view_in self.chair).receives }
        requires awake { IsAwake self.busy }
        ensures answer { (v : Standing T) → NoMore v (stand_with self) → OfPolled result v
            (λ a. ⊥) (λ r why. ⊥) }
        ensures wakes { Tells 0 (wakes_with self) (after_polled result) }
    {
        match self.rest() {
            Ok(end) => Polled::Again(Receiver { end }),
            Err(debtor) => Polled::Owes(Leaving { debtor }),
        }
    }
}
