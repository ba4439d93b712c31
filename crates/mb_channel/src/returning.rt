//! A receiver gives a value back to the channel, by a sender that it makes for that.
ghost use Rattle.std.specs.Prelude.{◌≡◌, ◌⊎◌, false, true, IfErr, IfOk, IsErrAnd, OnOk};
ghost use Rattle.mb_channel.specs.declared.channel.Refused.TheVariants.{Closed};
ghost use Rattle.mb_channel.specs.Answers.{IfClosed, IfUnmade};
ghost use Rattle.mb_channel.specs.Deeds.{IsUpTo, OneMore};
ghost use Rattle.mb_channel.specs.Ends.{AreOfOneChannel, HasEnded, IsBehind, IsLater, IsSame, StaysTold};
ghost use Rattle.mb_channel.specs.Ends.{given_to, got_by, knows, log_of, sent_by, stand_of, view_of};
ghost use Rattle.mb_channel.specs.Returned.{NoneReturned, OneReturned};
ghost use Rattle.mb_channel.specs.Standing.{NoMore};

use crate::channel::Refused;
use crate::end::{End, Receiver, Sender};
use crate::place::Place;
use crate::sends::NotSent;
use std::sync::Wait;
use std::thread::yield_now;

impl<T: Drop> End<T> {
    /// Learns of all sends before a place of the channel that another end knows. It waits while the lock is taken.
    fn catch_up<R: Wait>(&mut self, rt: &R, place: Place) -> Result<(), Refused>
        ensures still { NoMore (stand_of self.old) (stand_of self.new) }
        ensures learned { OnOk result (IsUpTo place (knows false (stand_of self.new))) }
        ensures closed { IfErr result (λ why. IfClosed why (IsBehind self.new)) }
    {
        for _ in rt.forever() {
            if self.learn_once(place)? {
                return Ok(());
            }
            yield_now();
        }
        unreachable!()
    }

    /// Tries to do so. If it does not know as much, and is in no segment, it goes on.
    fn learn_once(&mut self, place: Place) -> Result<bool, Refused>
        ensures still { NoMore (stand_of self.old) (stand_of self.new) }
        ensures learned { IfOk result (λ done. done ≡ true
            → IsUpTo place (knows false (stand_of self.new))) }
        ensures closed { IfErr result (λ why. IfClosed why (IsBehind self.new)) }
    {
        if self.learn(place, false) {
            return Ok(true);
        }
        if self.inside.is_some() {
            return Ok(false);
        }
        self.go_on(false, false)?;
        Ok(false)
    }
}

impl<T: Drop> Sender<T> {
    /// Sends a value behind a place of the channel that another end knows. The error gives it back.
    fn send_behind<R: Wait>(&mut self, rt: &R, place: Place, value: T) -> Result<(), NotSent<T>>
        ensures end { IsSame self.old.end self.new.end }
        ensures sent { OnOk result (OneMore value place (knows false (stand_of self.new.end))
            (sent_by self.old.end) (sent_by self.new.end)) }
        ensures back { IfErr result (λ e. (e.value ≡ value)
            × (sent_by self.new.end ≡ sent_by self.old.end)) }
        ensures closed { IfErr result (λ e. IfClosed e.why (IsBehind self.new.end)) }
        ensures got { got_by self.new.end ≡ got_by self.old.end }
    {
        if let Err(why) = self.end.catch_up(rt, place) {
            return Err(NotSent { value, why });
        }
        self.send(rt, value)
    }
}

impl<T: Drop> Receiver<T> {
    /// Gives a value back, as if a new sender of the same name had sent it. It stands behind all that this receiver
    /// received, and a receiver is woken for it. This receiver makes that sender, and takes it back.
    ///
    /// The error gives the value back. [`Refused::Closed`] is told only if the channel is closed or no sender is left. It
    /// is [`Refused::NoMemory`] if the allocator refused the memory for the next segment, and [`Refused::Crowded`] if
    /// there are too many ends or segments. If it takes the last sender away, no more can be sent, as by
    /// [`Receiver::give_sender`].
    pub fn give_back<R: Wait>(&mut self, rt: &R, value: T) -> Result<(), NotSent<T>>
        ensures channel { AreOfOneChannel self.old.end self.new.end }
        ensures logs { log_of self.new.end ≡ log_of self.old.end }
        ensures told { StaysTold (view_of self.old.end) (view_of self.new.end) }
        ensures later { IsLater (stand_of self.old.end) (stand_of self.new.end) }
        ensures behind { IsBehind self.old.end → IsBehind self.new.end }
        ensures sent { OnOk result (OneReturned value (view_of self.old.end).name
            (knows true (stand_of self.old.end)) (given_to self.old.end) (given_to self.new.end)) }
        ensures back { IfErr result (λ e. (e.value ≡ value)
            × NoneReturned (view_of self.old.end).name (given_to self.old.end)
            (given_to self.new.end)) }
        ensures closed { IfErr result (λ e. IfClosed e.why
            (((view_of self.new.end).alone ≡ true) ⊎ HasEnded self.new.end)) }
        ensures still { IsBehind self.old.end → IsErrAnd result (λ e. e.why ≡ Closed) }
        ensures unmade { IfErr result (λ e. given_to self.new.end ≡ given_to self.old.end
            → IfUnmade e.why (IsBehind self.old.end ⊎ ((view_of self.new.end).alone ≡ true))) }
    {
        if self.end.behind {
            let why = Refused::Closed;
            return Err(NotSent { value, why });
        }
        let place = self.known();
        let name = self.end.name;
        let mut sender = match self.end.new_sender(name) {
            Ok(sender) => sender,
            Err(why) => return Err(NotSent { value, why }),
        };
        let sent = sender.send_behind(rt, place, value);
        self.give_sender(rt, sender);
        sent
    }
}
