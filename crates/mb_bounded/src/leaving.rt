//! Closing a channel, and giving ends back. The last end of a side closes the channel.
ghost use Rattle.std.specs.Prelude.{false, true, ◌+◌, ◌<◌, ◌≡◌, ◌≤◌};
ghost use Rattle.mb_bounded.specs.Desks.{HasRetired, knows};
ghost use Rattle.mb_bounded.specs.Ends.{HasCut, IsClosed, IsPastOf, IsSame, NoMore, past_view, view_of};

use crate::end::{End, Past, Receiver, Sender};
use crate::rule::{AsReceiver, AsSender, Side};
use std::sync::Wait;

impl<T: Drop> End<T> {
    /// Closes the channel, and wakes all that sleep.
    fn close<R: Wait>(&mut self, rt: &R)
        ensures end { IsSame self.old self.new }
        ensures cut { HasCut (view_of self.old) (view_of self.new) }
        ensures over { (view_of self.new).over ≡ (view_of self.old).over }
    {
        self.hall.ring.close(rt, &mut self.pass);
    }

    /// Counts for one end less. If none of its side is left, the channel is closed.
    fn retire<S: Side, R: Wait>(self, rt: &R) -> Past<T>
        requires side { (S.sends ≤ (knows self.chair).sends)
            × (S.receives ≤ (knows self.chair).receives) }
        ensures channel { IsPastOf self result }
        ensures less { ((knows result.chair).sends + S.sends ≡ (knows self.chair).sends)
            × ((knows result.chair).receives + S.receives ≡ (knows self.chair).receives) }
        ensures retired { HasRetired S.sends S.receives (knows self.chair) (knows result.chair) }
        ensures last { result.last ≡ true → HasCut (view_of self) (past_view result)
            × (S.sends ≡ 1 → ((knows result.chair).no_sender ≡ true)
            × ((knows result.chair).left_senders ≡ 0))
            × (S.receives ≡ 1 → ((knows result.chair).no_receiver ≡ true)
            × ((knows result.chair).left_receivers ≡ 0)) }
        ensures others { result.last ≡ false → NoMore (view_of self) (past_view result)
            × (S.sends ≡ 1 → 0 < (knows result.chair).left_senders)
            × (S.receives ≡ 1 → 0 < (knows result.chair).left_receivers) }
    {
        let (hall, mut chair, mut pass) = self.parts();
        let last = hall.office.retire::<S, R>(rt, &mut chair);
        if last {
            hall.ring.close(rt, &mut pass);
        }
        drop(hall);
        Past {
            chair,
            pass: pass.rest(),
            last,
        }
    }
}

impl<T: Drop> Sender<T> {
    /// Closes the channel, for ever: no more can be sent. All that sleep are woken, and what is left can be received.
    pub fn close<R: Wait>(&mut self, rt: &R)
        ensures end { IsSame self.old.end self.new.end }
        ensures closed { IsClosed self.new }
        ensures cut { HasCut (view_of self.old.end) (view_of self.new.end) }
    {
        self.end.close(rt);
        self.closed = true;
    }

    /// Gives the sender back. The last sender closes the channel: then all receivers that sleep are woken, and what is
    /// left can be received. [`Past::was_last`] tells whether it was.
    pub fn retire<R: Wait>(self, rt: &R) -> Past<T>
        ensures channel { IsPastOf self.end result }
        ensures gone { ((knows result.chair).sends ≡ 0) × ((knows result.chair).receives ≡ 0) }
        ensures retired { HasRetired 1 0 (knows self.end.chair) (knows result.chair) }
        ensures last { result.last ≡ true → HasCut (view_of self.end) (past_view result)
            × ((knows result.chair).no_sender ≡ true)
            × ((knows result.chair).left_senders ≡ 0) }
        ensures others { result.last ≡ false → NoMore (view_of self.end) (past_view result)
            × (0 < (knows result.chair).left_senders) }
    {
        let Sender { end, closed: _ } = self;
        end.retire::<AsSender, R>(rt)
    }
}

impl<T: Drop> Receiver<T> {
    /// Closes the channel, for ever, and goes on receiving what is left.
    pub fn close<R: Wait>(&mut self, rt: &R)
        ensures end { IsSame self.old.end self.new.end × (self.new.over ≡ self.old.over) }
        ensures cut { HasCut (view_of self.old.end) (view_of self.new.end) }
    {
        self.end.close(rt);
    }

    /// Gives the receiver back. The last receiver closes the channel: then all senders that sleep are woken, and no
    /// more can be sent. [`Past::was_last`] tells whether it was.
    pub fn retire<R: Wait>(self, rt: &R) -> Past<T>
        ensures channel { IsPastOf self.end result }
        ensures gone { ((knows result.chair).sends ≡ 0) × ((knows result.chair).receives ≡ 0) }
        ensures retired { HasRetired 0 1 (knows self.end.chair) (knows result.chair) }
        ensures last { result.last ≡ true → HasCut (view_of self.end) (past_view result)
            × ((knows result.chair).no_receiver ≡ true)
            × ((knows result.chair).left_receivers ≡ 0) }
        ensures others { result.last ≡ false → NoMore (view_of self.end) (past_view result)
            × (0 < (knows result.chair).left_receivers) }
    {
        let Receiver { end, over: _ } = self;
        end.retire::<AsReceiver, R>(rt)
    }
}

impl<T: Drop> Past<T> {
    /// Whether the end was the last of its side, and closed the channel.
    pub fn was_last(&self) -> bool
        ensures { result ≡ self.now.last }
    {
        self.last
    }
}
