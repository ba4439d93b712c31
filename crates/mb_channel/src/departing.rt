//! Closing a channel without waiting, and the end of a sender or receiver that goes for good.
ghost use Rattle.std.specs.Prelude.{◌≡◌, false, true, is_some, IfErr, IfNone, IfOk, IfSome, IsOkAnd, Ok};
ghost use Rattle.mb_segment.specs.Vocabulary.{is_over};
ghost use Rattle.mb_channel.specs.Homes.{view_in};
ghost use Rattle.mb_channel.specs.Inside.{account_in, told_in};
ghost use Rattle.mb_channel.specs.Ends.{AreOfOneChannel, IsBehind, SawOver, got_by, sent_by, stand_of, view_of};
ghost use Rattle.mb_channel.specs.Standing.{HasCut, NoMore, stand_with};
ghost use Rattle.mb_channel.specs.Wakes.{Tells, one_if, wakes_by, wakes_in, wakes_of, wakes_with};
ghost use Rattle.mb_channel.specs.Work.{IsThere, work_in, work_of};

use crate::busy::{Busy, Debt};
use crate::channel::Refused;
use crate::debtor::Debtor;
use crate::end::{End, Receiver, Sender};
use crate::inside::{Inside, rested};
use crate::try_sends::Owing;
use mb_segment::Cut;

/// An end that goes for good. It counts for no sender any more.
#[derive(Drop)]
pub struct Departing<T: Drop> {
    pub(crate) end: End<T>,
    /// Whether no sender is left, so that it has to cut the last segment.
    pub(crate) last: bool,
}

/// The same, and it owes tokens in a segment that it cut. It cannot be dropped.
pub struct Cutter<T: Drop> {
    pub(crate) debtor: Debtor<T>,
}

impl<T: Drop> Inside<T> {
    /// Tries to cut the segment. In `Ok` it tells whether nothing can be sent there any more. In `Err` it is cut, and
    /// those that sleep there have to be woken.
    fn try_cut(self) -> Result<(Inside<T>, bool), Busy<T>>
        ensures rest { IfOk result (λ r. ((account_in r.0).sent ≡ (account_in self).sent)
            × ((account_in r.0).got ≡ (account_in self).got) × (told_in r.0 ≡ told_in self)
            × IsThere (work_in self) (work_in r.0)
            × (r.1 ≡ true → is_over r.0.pass.seat.me.0 ≡ true)
            × Tells 0 (wakes_in self) (wakes_in r.0)) }
        ensures owes { IfErr result (λ b. ((work_of b).pass.account.sent ≡ (account_in self).sent)
            × ((work_of b).pass.account.got ≡ (account_in self).got)
            × ((work_of b).pass.over ≡ told_in self)
            × IsThere (work_in self) (work_of b)
            × Tells 0 (wakes_in self) (wakes_by b)) }
    {
        let Inside { segment, pass } = self;
        let mut pass = pass.pass();
        match segment.cut(&mut pass) {
            Cut::Done => Err(Busy {
                segment,
                pass,
                debt: Debt::Tokens,
            }),
            Cut::Was => Ok((rested(segment, pass), true)),
            Cut::Again => Ok((rested(segment, pass), false)),
        }
    }
}

impl<T: Drop> End<T> {
    /// Tries to cut the segment where the end is, if it is in one. In `Ok` it tells whether nothing can be sent there.
    fn try_cut(self) -> Result<(End<T>, bool), Debtor<T>>
        ensures rest { IfOk result (λ r. NoMore (stand_of self) (stand_of r.0)
            × (r.0.chair ≡ self.chair) × (r.1 ≡ true → SawOver r.0)
            × Tells 0 (wakes_of self) (wakes_of r.0)) }
        ensures owes { IfErr result (λ d. NoMore (stand_of self) (stand_with d)
            × (d.chair ≡ self.chair) × Tells 0 (wakes_of self) (wakes_with d)) }
        ensures outside { is_some self.inside ≡ false → result ≡ Ok (self, true) }
    {
        if self.inside.is_none() {
            return Ok((self, true));
        }
        let End {
            list,
            chair,
            at,
            rights,
            name,
            inside,
            over,
            behind: _,
        } = self;
        let Some(inside) = inside else { unreachable!() };
        match inside.try_cut() {
            Ok((inside, cut)) => {
                let end = End {
                    list,
                    chair,
                    at,
                    rights,
                    name,
                    inside: Some(inside),
                    over,
                    behind: false,
                };
                Ok((end, cut))
            }
            Err(busy) => Err(Debtor {
                list,
                chair,
                at,
                rights,
                name,
                busy,
                over,
            }),
        }
    }

    /// Tries to cut the segment where the end is, and to come to the next one, in a list that is closed or has no
    /// sender. In `Ok` it tells whether the end is behind the last segment, so that all are over.
    fn cut_some(self) -> Result<(End<T>, bool), Debtor<T>>
        ensures rest { IfOk result (λ r. NoMore (stand_of self) (stand_of r.0)
            × (r.1 ≡ true → IsBehind r.0) × Tells 0 (wakes_of self) (wakes_of r.0)) }
        ensures owes { IfErr result (λ d. NoMore (stand_of self) (stand_with d)
            × Tells 0 (wakes_of self) (wakes_with d)) }
        ensures behind { IsBehind self → IsOkAnd result (λ r. IsBehind r.0) }
    {
        let (mut end, cut) = self.try_cut()?;
        if !cut {
            return Ok((end, false));
        }
        match end.go_on(false, false) {
            Err(Refused::Closed) => Ok((end, true)),
            _ => Ok((end, false)),
        }
    }
}

impl<T: Drop> Sender<T> {
    /// Tries to close the channel, for ever. In `Ok` it tells whether that is done: no more can be sent, and each later
    /// send of this end is refused. If it is `false`, the lock is taken, or the last segment is still to come: yield, and
    /// try again. In `Err` receivers may have to be woken: pay, and try again.
    pub fn try_close(self) -> Result<(Sender<T>, bool), Owing<T>>
        ensures rest { IfOk result (λ r. NoMore (stand_of self.end) (stand_of r.0.end)
            × (r.1 ≡ true → ((view_of r.0.end).shut ≡ true) × IsBehind r.0.end)
            × Tells 0 (wakes_of self.end) (wakes_of r.0.end)) }
        ensures owes { IfErr result (λ o. NoMore (stand_of self.end) (stand_with o.debtor)
            × Tells 0 (wakes_of self.end) (wakes_with o.debtor)) }
        ensures behind { IsBehind self.end → IsOkAnd result (λ r. IsBehind r.0.end) }
    {
        let Sender { mut end } = self;
        if !end.try_close_list() {
            return Ok((Sender { end }, false));
        }
        match end.cut_some() {
            Ok((end, done)) => Ok((Sender { end }, done)),
            Err(debtor) => Err(Owing { debtor }),
        }
    }

    /// The sender goes for good. If it was the last one, no more can be sent. It comes back if others were always
    /// first.
    pub fn try_retire(self) -> Result<Departing<T>, Sender<T>>
        ensures back { IfErr result (λ s. NoMore (stand_of self.end) (stand_of s.end)
            × Tells 0 (wakes_of self.end) (wakes_of s.end)) }
        ensures gone { IfOk result (λ d. ((view_of d.end).sends ≡ 0)
            × (d.last ≡ (view_of d.end).alone) × (sent_by d.end ≡ sent_by self.end)
            × (got_by d.end ≡ got_by self.end) × AreOfOneChannel self.end d.end
            × Tells 0 (wakes_of self.end) (wakes_of d.end)) }
    {
        let Sender { mut end } = self;
        match end.try_retire() {
            Some(last) => Ok(Departing { end, last }),
            None => Err(Sender { end }),
        }
    }
}

impl<T: Drop> Receiver<T> {
    /// The receiver goes for good.
    pub fn retire(self) -> Departing<T>
        ensures gone { (result.end ≡ self.end) × (result.last ≡ false) }
    {
        let Receiver { end } = self;
        Departing { end, last: false }
    }
}

impl<T: Drop> Departing<T> {
    /// Tries to go: leaves the segment where the end is. If no sender is left, it first cuts that and the last one. `Ok`
    /// has `None` once it has gone. That takes a call more after all are over. Else the lock is taken, or the last
    /// segment is still to come: yield, and try again. In `Err` receivers may have to be woken: pay, and try again.
    pub fn try_go(self) -> Result<Option<Departing<T>>, Cutter<T>>
        ensures rest { IfOk result (λ o. IfSome o (λ d. NoMore (stand_of self.end) (stand_of d.end)
            × (d.last ≡ self.last) × Tells 0 (wakes_of self.end) (wakes_of d.end))) }
        ensures owes { IfErr result (λ c. NoMore (stand_of self.end) (stand_with c.debtor)
            × (self.last ≡ true) × Tells 0 (wakes_of self.end) (wakes_with c.debtor)) }
        ensures gone { IfOk result (λ o. IfNone o (HasCut self)) }
        ensures knows { self.last ≡ (view_of self.end).alone
            → IfOk result (λ o. IfSome o (λ d. d.last ≡ (view_of d.end).alone)) }
    {
        let Departing { end, last } = self;
        if !last || end.behind {
            return match end.try_outside() {
                Ok(gone) => {
                    drop(gone);
                    Ok(None)
                }
                Err(end) => Ok(Some(Departing { end, last })),
            };
        }
        match end.cut_some() {
            Ok((end, _)) => Ok(Some(Departing { end, last })),
            Err(debtor) => Err(Cutter { debtor }),
        }
    }
}

impl<T: Drop> Cutter<T> {
    /// The number of the segment where the tokens are given. Only who sleeps there can take them.
    pub fn place(&self) -> usize
        ensures { result ≡ (view_in self.now.debtor.chair).at }
    {
        self.debtor.at
    }

    /// Tries to give one token that is owed, and wakes nobody, as [`Owing::pay_some`] does.
    pub fn pay_some(self) -> (bool, Result<Departing<T>, Cutter<T>>)
        ensures paid { IfOk result.1 (λ d. NoMore (stand_with self.debtor) (stand_of d.end)
            × (d.last ≡ true) × Tells (one_if result.0) (wakes_with self.debtor) (wakes_of d.end)) }
        ensures owes { IfErr result.1 (λ c. NoMore (stand_with self.debtor) (stand_with c.debtor)
            × Tells (one_if result.0) (wakes_with self.debtor) (wakes_with c.debtor)) }
        ensures place { IfOk result.1 (λ d. d.end.chair ≡ self.debtor.chair) }
        ensures place_owing { IfErr result.1 (λ c. c.debtor.chair ≡ self.debtor.chair) }
    {
        let Cutter { debtor } = self;
        let (wakes, rest) = debtor.pay_some();
        match rest {
            Ok(end) => (wakes, Ok(Departing { end, last: true })),
            Err(debtor) => (wakes, Err(Cutter { debtor })),
        }
    }
}
