//! The calls that send.
ghost use Rattle.std.specs.Prelude.{Err, IfErr, OnOk, true, ◌≡◌, ◌≤◌};
ghost use Rattle.mb_ring.specs.Vocabulary.{OfNotSent, SawFull, value_of};
ghost use Rattle.mb_ring.specs.declared.sends.NotSent.TheVariants.{Closed};
ghost use Rattle.mb_bounded.specs.Ends.{IsClosed, IsSame, NoMore, OneSent, bound_of, view_of};

use crate::end::Sender;
use mb_ring::NotSent;
use std::sync::Wait;
use std::time::{Clock, Instant};

impl<T: Drop> Sender<T> {
    /// Sends a value, behind all that this end sent before, and wakes a receiver for it. The error gives the value
    /// back. [`NotSent::Full`] is told only if as many values waited as the bound. It does not sleep, but yields while
    /// the next place is being freed.
    #[tactic(auto, using(crate::proofs::Accounts::one_sent, crate::proofs::Accounts::no_more))]
    pub fn try_send<R: Wait>(&mut self, rt: &R, value: T) -> Result<(), NotSent<T>>
        ensures end { IsSame self.old.end self.new.end }
        ensures sent { OnOk result (OneSent value (view_of self.old.end) (view_of self.new.end)) }
        ensures refused { IfErr result (λ e. (value_of e ≡ value)
            × NoMore (view_of self.old.end) (view_of self.new.end)
            × OfNotSent e (SawFull (bound_of self.old.end) (view_of self.old.end)
            (view_of self.new.end)) (IsClosed self.new)
            (4611686018427387904 ≤ (view_of self.new.end).sight.top)) }
        ensures told { self.old.closed ≡ true
            → (result ≡ Err (Closed value)) × (self.new ≡ self.old) }
    {
        if self.closed {
            return Err(NotSent::Closed(value));
        }
        let end = &mut self.end;
        match end.hall.ring.try_send(rt, &mut end.pass, value) {
            Ok(()) => Ok(()),
            Err(NotSent::Full(value)) => Err(NotSent::Full(value)),
            Err(NotSent::Closed(value)) => {
                self.closed = true;
                Err(NotSent::Closed(value))
            }
            Err(NotSent::Worn(value)) => Err(NotSent::Worn(value)),
        }
    }

    /// Sends a value as [`Sender::try_send`], and sleeps until there is room for it. It is never told that the channel
    /// is full.
    #[tactic(auto, using(crate::proofs::Accounts::one_sent, crate::proofs::Accounts::no_more))]
    pub fn send<R: Wait>(&mut self, rt: &R, value: T) -> Result<(), NotSent<T>>
        ensures end { IsSame self.old.end self.new.end }
        ensures sent { OnOk result (OneSent value (view_of self.old.end) (view_of self.new.end)) }
        ensures refused { IfErr result (λ e. (value_of e ≡ value)
            × NoMore (view_of self.old.end) (view_of self.new.end)
            × OfNotSent e ⊥ (IsClosed self.new)
            (4611686018427387904 ≤ (view_of self.new.end).sight.top)) }
        ensures told { self.old.closed ≡ true
            → (result ≡ Err (Closed value)) × (self.new ≡ self.old) }
    {
        if self.closed {
            return Err(NotSent::Closed(value));
        }
        let end = &mut self.end;
        match end.hall.ring.send(rt, &mut end.pass, value) {
            Ok(()) => Ok(()),
            Err(NotSent::Full(value)) => Err(NotSent::Full(value)),
            Err(NotSent::Closed(value)) => {
                self.closed = true;
                Err(NotSent::Closed(value))
            }
            Err(NotSent::Worn(value)) => Err(NotSent::Worn(value)),
        }
    }

    /// Sends a value as [`Sender::send`] until a deadline. The error is [`NotSent::Full`] if that comes first, or if
    /// there is no clock. While the next place is being freed, it goes on past the deadline.
    #[tactic(auto, using(crate::proofs::Accounts::one_sent, crate::proofs::Accounts::no_more))]
    pub fn send_by<R: Wait + Clock>(
        &mut self,
        rt: &R,
        value: T,
        deadline: Instant,
    ) -> Result<(), NotSent<T>>
        ensures end { IsSame self.old.end self.new.end }
        ensures sent { OnOk result (OneSent value (view_of self.old.end) (view_of self.new.end)) }
        ensures refused { IfErr result (λ e. (value_of e ≡ value)
            × NoMore (view_of self.old.end) (view_of self.new.end)
            × OfNotSent e (SawFull (bound_of self.old.end) (view_of self.old.end)
            (view_of self.new.end)) (IsClosed self.new)
            (4611686018427387904 ≤ (view_of self.new.end).sight.top)) }
        ensures told { self.old.closed ≡ true
            → (result ≡ Err (Closed value)) × (self.new ≡ self.old) }
    {
        if self.closed {
            return Err(NotSent::Closed(value));
        }
        let end = &mut self.end;
        match end.hall.ring.send_by(rt, &mut end.pass, value, deadline) {
            Ok(()) => Ok(()),
            Err(NotSent::Full(value)) => Err(NotSent::Full(value)),
            Err(NotSent::Closed(value)) => {
                self.closed = true;
                Err(NotSent::Closed(value))
            }
            Err(NotSent::Worn(value)) => Err(NotSent::Worn(value)),
        }
    }
}
