//! The calls that receive.
ghost use Rattle.std.specs.Prelude.{◌≡◌, ◌≢◌, ◌⊎◌, Err, IfErr, IfNone, IfOk, IfSome, OnErr};
ghost use Rattle.mb_channel.specs.declared.channel.Refused.TheVariants.{Closed, NoMemory};
ghost use Rattle.mb_channel.specs.Answers.{IfClosed};
ghost use Rattle.mb_channel.specs.Ends.{IsBehind, IsOver, IsSame, got_by, sent_by, stand_of};
ghost use Rattle.mb_channel.specs.Receives.{FoundNone, OfTried, SawEmpty};
ghost use Rattle.mb_channel.specs.Standing.{OneGot};
ghost use Rattle.mb_channel.specs.Wakes.{Tells, wakes_of};

use crate::channel::{Refused, TRIES};
use crate::end::Receiver;
use crate::tried::Tried;
use mb_segment::Received;
use std::sync::Wait;
use std::time::{Clock, Instant};

impl<T: Drop> Receiver<T> {
    /// Receives the next value, and sleeps until there is one. [`Refused::Closed`] is told only behind the last segment,
    /// and then for ever: nothing waits in the channel, and nothing can be sent.
    #[inline(always)]
    pub fn receive<R: Wait>(&mut self, rt: &R) -> Result<T, Refused>
        ensures end { IsSame self.old.end self.new.end }
        ensures got { IfOk result
            (λ x. OneGot x (stand_of self.old.end) (stand_of self.new.end)) }
        ensures none { OnErr result (got_by self.new.end ≡ got_by self.old.end) }
        ensures closed { IfErr result (λ why. IfClosed why (IsBehind self.new.end)) }
        ensures still { IsBehind self.old.end → result ≡ Err Closed }
        ensures sent { sent_by self.new.end ≡ sent_by self.old.end }
    {
        match self.end.receive(rt) {
            Some(value) => Ok(value),
            None => self.receive_further(rt),
        }
    }

    /// The same from the next segment on.
    #[cold]
    #[inline(never)]
    fn receive_further<R: Wait>(&mut self, rt: &R) -> Result<T, Refused>
        requires over { IsOver self.old.end }
        ensures end { IsSame self.old.end self.new.end }
        ensures got { IfOk result
            (λ x. OneGot x (stand_of self.old.end) (stand_of self.new.end)) }
        ensures none { OnErr result (got_by self.new.end ≡ got_by self.old.end) }
        ensures closed { IfErr result (λ why. IfClosed why (IsBehind self.new.end)) }
        ensures still { IsBehind self.old.end → result ≡ Err Closed }
        ensures sent { sent_by self.new.end ≡ sent_by self.old.end }
    {
        let mut stuck = 0;
        for _ in rt.forever() {
            let place = self.end.place();
            self.end.go_on(true, true)?;
            stuck = self.end.pause_if_at(place, stuck);
            if let Some(value) = self.end.receive(rt) {
                return Ok(value);
            }
        }
        unreachable!()
    }

    /// The same until a deadline: `None` if that came first. Then at a moment of this call all was received that this end
    /// had sent in its segment, or had seen there. Or the end was behind the last segment, and nothing waited. It goes on
    /// past the deadline while a value is being sent, or the lock is taken.
    pub fn receive_by<R: Wait + Clock>(
        &mut self,
        rt: &R,
        deadline: Instant,
    ) -> Result<Option<T>, Refused>
        ensures end { IsSame self.old.end self.new.end }
        ensures got { IfOk result (λ o. IfSome o
            (λ x. OneGot x (stand_of self.old.end) (stand_of self.new.end))) }
        ensures late { IfOk result (λ o. IfNone o
            ((SawEmpty (stand_of self.old.end) (stand_of self.new.end)
            ⊎ FoundNone (stand_of self.old.end) (stand_of self.new.end))
            × (got_by self.new.end ≡ got_by self.old.end))) }
        ensures none { OnErr result (got_by self.new.end ≡ got_by self.old.end) }
        ensures closed { IfErr result (λ why. IfClosed why (IsBehind self.new.end)) }
        ensures still { IsBehind self.old.end → result ≡ Err Closed }
        ensures sent { sent_by self.new.end ≡ sent_by self.old.end }
    {
        let mut stuck = 0;
        for _ in rt.forever() {
            match self.end.receive_by(rt, deadline) {
                Received::Value(value) => return Ok(Some(value)),
                Received::TimedOut => return Ok(None),
                Received::Over => {}
            }
            let place = self.end.place();
            let there = self.end.go_on(true, true)?;
            if !there && is_past(rt, deadline) {
                return Ok(None);
            }
            stuck = self.end.pause_if_at(place, stuck);
        }
        unreachable!()
    }

    /// The same without waiting: a few tries.
    #[inline(always)]
    pub fn try_receive(&mut self) -> Result<Tried<T>, Refused>
        ensures end { IsSame self.old.end self.new.end }
        ensures answer { IfOk result (λ t. OfTried t
            (λ x. OneGot x (stand_of self.old.end) (stand_of self.new.end))
            ((SawEmpty (stand_of self.old.end) (stand_of self.new.end)
            ⊎ FoundNone (stand_of self.old.end) (stand_of self.new.end))
            × (got_by self.new.end ≡ got_by self.old.end))
            (got_by self.new.end ≡ got_by self.old.end)) }
        ensures none { OnErr result (got_by self.new.end ≡ got_by self.old.end) }
        ensures closed { IfErr result (λ why. IfClosed why (IsBehind self.new.end)) }
        ensures still { IsBehind self.old.end → result ≡ Err Closed }
        ensures sent { sent_by self.new.end ≡ sent_by self.old.end }
        ensures wakes { Tells 0 (wakes_of self.old.end) (wakes_of self.new.end) }
        ensures memory { IfErr result (λ why. why ≢ NoMemory) }
    {
        match self.end.try_receive() {
            Some(tried) => Ok(tried),
            None => self.try_further(),
        }
    }

    /// The same from the next segment on.
    #[cold]
    #[inline(never)]
    fn try_further(&mut self) -> Result<Tried<T>, Refused>
        requires over { IsOver self.old.end }
        ensures end { IsSame self.old.end self.new.end }
        ensures answer { IfOk result (λ t. OfTried t
            (λ x. OneGot x (stand_of self.old.end) (stand_of self.new.end))
            ((SawEmpty (stand_of self.old.end) (stand_of self.new.end)
            ⊎ FoundNone (stand_of self.old.end) (stand_of self.new.end))
            × (got_by self.new.end ≡ got_by self.old.end))
            (got_by self.new.end ≡ got_by self.old.end)) }
        ensures none { OnErr result (got_by self.new.end ≡ got_by self.old.end) }
        ensures closed { IfErr result (λ why. IfClosed why (IsBehind self.new.end)) }
        ensures still { IsBehind self.old.end → result ≡ Err Closed }
        ensures sent { sent_by self.new.end ≡ sent_by self.old.end }
        ensures wakes { Tells 0 (wakes_of self.old.end) (wakes_of self.new.end) }
        ensures memory { IfErr result (λ why. why ≢ NoMemory) }
    {
        for _ in 0..TRIES {
            if !self.end.go_on(true, false)? {
                return Ok(Tried::Empty);
            }
            if let Some(tried) = self.end.try_receive() {
                return Ok(tried);
            }
        }
        Ok(Tried::Again)
    }
}

/// Whether the deadline has come. Without a clock it has.
fn is_past<R: Clock>(rt: &R, deadline: Instant) -> bool {
    match Instant::now(rt) {
        Ok(now) => deadline.saturating_duration_since(now).is_zero(),
        Err(_) => true,
    }
}
