//! What an end has of the segment where it is.
ghost use Rattle.std.specs.Prelude.{◌≡◌};
ghost use Rattle.std.specs.Arc.{arc_value};
ghost use Rattle.mb_segment.specs.Seats.{IsFree};
ghost use Rattle.mb_segment.specs.Waiting.{value_of};

use crate::attempt::Attempt;
use crate::home::Shared;
use crate::tried::Tried;
use mb_segment::{Idle, Look, NotSent, Pass, Received};
use std::sync::Wait;
use std::time::{Clock, Instant};

/// A share of the segment, and a pass there.
#[derive(Drop)]
pub struct Inside<T: Drop> {
    pub(crate) segment: Shared<T>,
    pub(crate) pass: Idle<T>,
    ghost same: { pass.seat.table_id ≡ (arc_value segment).table.shared.table_id },
}

impl<T: Drop> Inside<T> {
    ghost use Rattle.std.specs.Prelude.{true, IfErr, IfNone, IfSome, OnOk};
    ghost use Rattle.mb_segment.specs.Vocabulary.{is_over};
    ghost use Rattle.mb_channel.specs.Work.{HasGot, HasSent, IsStill, IsTold, work_in};

    /// Sends a value here. It comes back if no more can be sent here.
    #[inline(always)]
    pub(crate) fn send<R: Wait>(self, rt: &R, value: T, name: u32) -> (Inside<T>, Result<(), T>)
        requires named { self.pass.seat.me.0.account.name ≡ name }
        ensures sent { OnOk result.1 (HasSent value (work_in self) (work_in result.0)) }
        ensures back { IfErr result.1 (λ x. (x ≡ value)
            × IsStill (work_in self) (work_in result.0)
            × (is_over result.0.pass.seat.me.0 ≡ true)) }
    {
        match self.try_send(value, name) {
            Attempt::Sent(inside) => (inside, Ok(())),
            Attempt::Owes(busy) => (busy.pay(rt), Ok(())),
            Attempt::Again(inside, value) => inside.send_slowly(rt, value, name),
            Attempt::Over(inside, value) => (inside, Err(value)),
        }
    }

    /// The same where another was first.
    #[cold]
    #[inline(never)]
    fn send_slowly<R: Wait>(self, rt: &R, value: T, name: u32) -> (Inside<T>, Result<(), T>)
        requires named { self.pass.seat.me.0.account.name ≡ name }
        ensures sent { OnOk result.1 (HasSent value (work_in self) (work_in result.0)) }
        ensures back { IfErr result.1 (λ x. (x ≡ value)
            × IsStill (work_in self) (work_in result.0)
            × (is_over result.0.pass.seat.me.0 ≡ true)) }
    {
        let Inside { segment, pass } = self;
        let mut pass = pass.pass();
        match segment.send(rt, &mut pass, value, name) {
            Ok(()) => (rested(segment, pass), Ok(())),
            Err(refused) => (rested(segment, pass), Err(value_in(refused))),
        }
    }

    /// Receives a value here. `None` only if none can come any more.
    #[inline(always)]
    pub(crate) fn receive<R: Wait>(self, rt: &R, name: u32) -> (Inside<T>, Option<T>)
        requires named { self.pass.seat.me.0.account.name ≡ name }
        ensures got { IfSome result.1 (λ x. HasGot x (work_in self) (work_in result.0)) }
        ensures over { IfNone result.1 (IsTold (work_in self) (work_in result.0)) }
    {
        let (inside, tried) = self.try_receive(name);
        match tried {
            Some(Tried::Value(value)) => (inside, Some(value)),
            Some(Tried::Empty) => inside.receive_slowly(rt, name),
            Some(Tried::Again) => inside.receive_slowly(rt, name),
            None => (inside, None),
        }
    }

    /// The same where no value was there.
    #[cold]
    #[inline(never)]
    fn receive_slowly<R: Wait>(self, rt: &R, name: u32) -> (Inside<T>, Option<T>)
        requires named { self.pass.seat.me.0.account.name ≡ name }
        ensures got { IfSome result.1 (λ x. HasGot x (work_in self) (work_in result.0)) }
        ensures over { IfNone result.1 (IsTold (work_in self) (work_in result.0)) }
    {
        let Inside { segment, pass } = self;
        let mut pass = pass.pass();
        let got = segment.receive(rt, &mut pass, name);
        (rested(segment, pass), got)
    }
}

impl<T: Drop> Inside<T> {
    ghost use Rattle.std.specs.Prelude.{IfNone, IfSome};
    ghost use Rattle.mb_segment.specs.Moves.{found_empty};
    ghost use Rattle.mb_segment.specs.Waiting.{OfReceived};
    ghost use Rattle.mb_channel.specs.Inside.{SawNothing};
    ghost use Rattle.mb_channel.specs.Receives.{OfTried};
    ghost use Rattle.mb_channel.specs.Wakes.{Tells, wakes_in};
    ghost use Rattle.mb_channel.specs.Work.{HasGot, IsStill, IsTold, work_in};

    /// Receives a value here, until a deadline.
    pub(crate) fn receive_by<R: Wait + Clock>(
        self,
        rt: &R,
        deadline: Instant,
        name: u32,
    ) -> (Inside<T>, Received<T>)
        requires named { self.pass.seat.me.0.account.name ≡ name }
        ensures answer { let v = work_in self in let w = work_in result.0 in OfReceived result.1
            (λ x. HasGot x v w) (IsTold v w)
            (IsStill v w × SawNothing (found_empty v.pass) w.pass) }
    {
        let Inside { segment, pass } = self;
        let mut pass = pass.pass();
        let received = segment.receive_by(rt, &mut pass, deadline, name);
        (rested(segment, pass), received)
    }

    /// Tries to receive a value here. `None` only if none can come any more.
    #[inline(always)]
    pub(crate) fn try_receive(self, name: u32) -> (Inside<T>, Option<Tried<T>>)
        requires named { self.pass.seat.me.0.account.name ≡ name }
        ensures answer { let v = work_in self in let w = work_in result.0 in IfSome result.1
            (λ t. OfTried t (λ x. HasGot x v w)
            (IsStill v w × SawNothing (found_empty v.pass) w.pass) (IsStill v w)) }
        ensures over { IfNone result.1 (IsTold (work_in self) (work_in result.0)) }
        ensures wakes { Tells 0 (wakes_in self) (wakes_in result.0) }
    {
        let Inside { segment, pass } = self;
        let mut pass = pass.pass();
        match segment.look(&mut pass) {
            Look::Ready(at) => {
                if segment.claim(&mut pass, at) {
                    let value = segment.read(&mut pass, at, name);
                    (rested(segment, pass), Some(Tried::Value(value)))
                } else {
                    (rested(segment, pass), Some(Tried::Again))
                }
            }
            Look::Yield => (rested(segment, pass), Some(Tried::Again)),
            Look::Empty => (rested(segment, pass), Some(Tried::Empty)),
            Look::Over => (rested(segment, pass), None),
        }
    }
}

/// The pass, at rest.
pub(crate) fn rested<T: Drop>(segment: Shared<T>, pass: Pass<T>) -> Inside<T>
    requires same { pass.seat.table_id ≡ (arc_value segment).table.shared.table_id }
    requires free { IsFree pass }
    ensures segment { result.segment ≡ segment }
    ensures pass { result.pass.seat ≡ pass.seat }
{
    let pass = pass.rest();
    Inside { segment, pass }
}

fn value_in<T>(refused: NotSent<T>) -> T
    ensures { result ≡ value_of refused }
{
    match refused {
        NotSent::Full(value) => value,
        NotSent::Closed(value) => value,
    }
}
