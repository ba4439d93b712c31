//! The calls that send.
ghost use Rattle.std.specs.Prelude.{◌≡◌, true, IfErr, IsErrAnd, OnOk};
ghost use Rattle.mb_channel.specs.declared.channel.Refused.TheVariants.{Closed};
ghost use Rattle.mb_channel.specs.Answers.{IfClosed};
ghost use Rattle.mb_channel.specs.Ends.{IsBehind, IsSame, SawOver, got_by, sent_by, stand_of, view_of};
ghost use Rattle.mb_channel.specs.Standing.{OneSent};

use crate::channel::Refused;
use crate::end::Sender;
use std::sync::Wait;

/// A value that was not sent, and why.
#[derive(Debug, Drop)]
pub struct NotSent<T> {
    pub value: T,
    pub why: Refused,
}

impl<T: Drop> Sender<T> {
    /// Sends a value, behind all that the sender sent before, and wakes a receiver for it. The error gives it back.
    /// [`Refused::Closed`] is told only if the list is closed.
    #[inline(always)]
    pub fn send<R: Wait>(&mut self, rt: &R, value: T) -> Result<(), NotSent<T>>
        ensures end { IsSame self.old.end self.new.end }
        ensures sent { OnOk result
            (OneSent value (stand_of self.old.end) (stand_of self.new.end)) }
        ensures back { IfErr result (λ e. (e.value ≡ value)
            × (sent_by self.new.end ≡ sent_by self.old.end)) }
        ensures closed { IfErr result (λ e. IfClosed e.why
            (IsBehind self.new.end × ((view_of self.new.end).shut ≡ true))) }
        ensures still { IsBehind self.old.end → IsErrAnd result (λ e. e.why ≡ Closed) }
        ensures got { got_by self.new.end ≡ got_by self.old.end }
    {
        match self.end.send(rt, value) {
            Ok(()) => Ok(()),
            Err(value) => self.send_further(rt, value),
        }
    }

    /// The same from the next segment on.
    #[cold]
    #[inline(never)]
    fn send_further<R: Wait>(&mut self, rt: &R, value: T) -> Result<(), NotSent<T>>
        requires over { SawOver self.old.end }
        ensures end { IsSame self.old.end self.new.end }
        ensures sent { OnOk result
            (OneSent value (stand_of self.old.end) (stand_of self.new.end)) }
        ensures back { IfErr result (λ e. (e.value ≡ value)
            × (sent_by self.new.end ≡ sent_by self.old.end)) }
        ensures closed { IfErr result (λ e. IfClosed e.why
            (IsBehind self.new.end × ((view_of self.new.end).shut ≡ true))) }
        ensures still { IsBehind self.old.end → IsErrAnd result (λ e. e.why ≡ Closed) }
        ensures got { got_by self.new.end ≡ got_by self.old.end }
    {
        let mut value = value;
        let mut stuck = 0;
        for _ in rt.forever() {
            let place = self.end.place();
            if let Err(why) = self.end.go_on(false, true) {
                return Err(NotSent { value, why });
            }
            stuck = self.end.pause_if_at(place, stuck);
            match self.end.send(rt, value) {
                Ok(()) => return Ok(()),
                Err(back) => value = back,
            }
        }
        unreachable!()
    }
}
