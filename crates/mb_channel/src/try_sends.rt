//! A send that never waits.
ghost use Rattle.std.specs.Prelude.{◌≡◌, ◌<◌};
ghost use Rattle.mb_channel.specs.Homes.{view_in};

use crate::channel::TRIES;
use crate::debtor::{Debtor, Step};
use crate::end::Sender;
use crate::sends::NotSent;
use std::sync::Wait;

/// A sender whose value is sent, and that owes something for it. It cannot be dropped. [`Owing::pay`] and
/// [`Owing::pay_some`] make a sender of it again.
pub struct Owing<T: Drop> {
    pub(crate) debtor: Debtor<T>,
    ghost sends: { (view_in debtor.chair).sends ≡ 1 },
}

/// What came of a try to send.
pub enum Sending<T: Drop> {
    /// The value is sent, and nothing is owed.
    Sent(Sender<T>),
    /// The value is sent, and receivers may have to be woken.
    Owes(Owing<T>),
    /// Another sender was first, the lock is taken, or the next segment is not there yet. Yield, and try again.
    Again(Sender<T>, T),
    /// The value is not sent. [`Refused::Closed`](crate::Refused::Closed) is told only if the list is closed.
    Refused(Sender<T>, NotSent<T>),
}

impl<T: Drop> Sender<T> {
    ghost use Rattle.mb_channel.specs.Ends.{IsBehind, stand_of};
    ghost use Rattle.mb_channel.specs.Standing.{OfSending, TellsClosed};
    ghost use Rattle.mb_channel.specs.Wakes.{Tells, after_sending, wakes_of};

    /// Tries to send a value, behind all that the sender sent before. It makes a few accesses, and wakes nobody.
    pub fn try_send(self, value: T) -> Sending<T>
        ensures answer { OfSending result value (stand_of self.end) }
        ensures wakes { Tells 0 (wakes_of self.end) (after_sending result) }
        ensures still { IsBehind self.end → TellsClosed result }
    {
        let Sender { mut end } = self;
        let mut value = value;
        for _ in 0..TRIES {
            match end.try_send(value) {
                Step::Sent(end) => return Sending::Sent(Sender { end }),
                Step::Owes(debtor) => return Sending::Owes(Owing { debtor }),
                Step::Again(end, value) => return Sending::Again(Sender { end }, value),
                Step::Over(back, unsent) => {
                    end = back;
                    value = unsent;
                }
            }
            if let Err(why) = end.go_on(false, true) {
                return Sending::Refused(Sender { end }, NotSent { value, why });
            }
        }
        Sending::Again(Sender { end }, value)
    }
}

impl<T: Drop> Owing<T> {
    ghost use Rattle.std.specs.Prelude.{IfErr, IfOk};
    ghost use Rattle.mb_channel.specs.Ends.{stand_of};
    ghost use Rattle.mb_channel.specs.Standing.{NoMore, stand_with};
    ghost use Rattle.mb_channel.specs.Wakes.{Tells, one_if, wakes_of, wakes_with};

    /// The number of the segment where the tokens are given. Only who sleeps there can take them.
    pub fn place(&self) -> usize
        ensures { result ≡ (view_in self.now.debtor.chair).at }
    {
        self.debtor.at
    }

    /// Gives the tokens that are owed, and wakes a thread for each.
    pub fn pay<R: Wait>(self, rt: &R) -> Sender<T>
        ensures { NoMore (stand_with self.debtor) (stand_of result.end) }
    {
        let Owing { debtor } = self;
        Sender {
            end: debtor.pay(rt),
        }
    }

    /// Tries to give one token that is owed, and wakes nobody. The answer has `true` once for each token that was given.
    /// The caller then has to wake a thread that sleeps at the same place, or else all that sleep in the channel. The
    /// sender comes back once it owes nothing more.
    pub fn pay_some(self) -> (bool, Result<Sender<T>, Owing<T>>)
        ensures paid { IfOk result.1 (λ s. NoMore (stand_with self.debtor) (stand_of s.end)) }
        ensures owes { IfErr result.1 (λ o. NoMore (stand_with self.debtor) (stand_with o.debtor)) }
        ensures wakes { IfOk result.1
            (λ s. Tells (one_if result.0) (wakes_with self.debtor) (wakes_of s.end)) }
        ensures still { IfErr result.1
            (λ o. Tells (one_if result.0) (wakes_with self.debtor) (wakes_with o.debtor)
            × ((wakes_with o.debtor).untold ≡ 0)) }
        ensures place { IfOk result.1 (λ s. s.end.chair ≡ self.debtor.chair) }
        ensures place_owing { IfErr result.1 (λ o. o.debtor.chair ≡ self.debtor.chair) }
    {
        let Owing { debtor } = self;
        let (wakes, rest) = debtor.pay_some();
        match rest {
            Ok(end) => (wakes, Ok(Sender { end })),
            Err(debtor) => (wakes, Err(Owing { debtor })),
        }
    }
}
