//! Closing a channel. Whoever closes it goes on to behind the last segment, and cuts each to which it comes.
ghost use Rattle.std.specs.Prelude.{ℕ, ◌≡◌, ◌++◌, ◌∷◌, [], true, false};
ghost use Rattle.mb_segment.specs.Vocabulary.{is_over};
ghost use Rattle.mb_channel.specs.Inside.{account_in, told_in};
ghost use Rattle.mb_channel.specs.Returned.{new_log};
ghost use Rattle.mb_channel.specs.Tallies.{saw_closed};
ghost use Rattle.mb_channel.specs.Work.{IsThere, work_in};
ghost use Rattle.mb_channel.specs.Ends.{AreOfOneChannel, HasEnded, IsBehind, IsLater, IsSame, SawOver, StaysTold};
ghost use Rattle.mb_channel.specs.Ends.{given_to, got_by, log_of, sent_by, stand_of, view_of};

use crate::channel::Refused;
use crate::end::{End, Receiver, Sender};
use crate::inside::{Inside, rested};
use crate::rule::AsNobody;
use std::sync::Wait;
use std::thread::yield_now;

impl<T: Drop> Inside<T> {
    /// Cuts the segment, and wakes all that sleep there.
    fn cut<R: Wait>(self, rt: &R) -> Inside<T>
        ensures sent { (account_in result).sent ≡ (account_in self).sent }
        ensures got { (account_in result).got ≡ (account_in self).got }
        ensures over { is_over result.pass.seat.me.0 ≡ true }
        ensures told { told_in result ≡ told_in self }
        ensures there { IsThere (work_in self) (work_in result) }
    {
        let Inside { segment, pass } = self;
        let mut pass = pass.pass();
        segment.close(rt, &mut pass);
        rested(segment, pass)
    }
}

impl<T: Drop> End<T> {
    /// Cuts the segment where the end is, if it is in one.
    fn cut<R: Wait>(&mut self, rt: &R)
        ensures chair { self.new.chair ≡ self.old.chair }
        ensures over { SawOver self.new }
        ensures same { IsSame self.old self.new }
        ensures sent { sent_by self.new ≡ sent_by self.old }
        ensures got { got_by self.new ≡ got_by self.old }
    {
        if let Some(inside) = self.inside.take() {
            self.inside = Some(inside.cut(rt));
        }
    }
}

impl<T: Drop> End<T> {
    /// Cuts the segment where the end is and each to which it comes, in a list that is closed or has no sender. The end
    /// is then behind the last, and all are over. It may not receive from then on.
    pub(crate) fn cut_all<R: Wait>(&mut self, rt: &R)
        ensures end { IsSame self.old self.new }
        ensures behind { IsBehind self.new }
        ensures sent { sent_by self.new ≡ sent_by self.old }
        ensures got { got_by self.new ≡ got_by self.old }
    {
        for _ in rt.forever() {
            self.cut(rt);
            if let Err(Refused::Closed) = self.go_on(false, false) {
                return;
            }
            yield_now();
        }
        unreachable!()
    }

    /// Closes the list: no segment is added any more.
    fn close_list<R: Wait>(&mut self, rt: &R)
        ensures chair { (self.new.chair.table_id ≡ self.old.chair.table_id)
            × (self.new.inside ≡ self.old.inside) × (self.new.behind ≡ self.old.behind) }
        ensures view { view_of self.new ≡ saw_closed (view_of self.old) }
    {
        for _ in rt.forever() {
            if self.try_close_list() {
                return;
            }
            yield_now();
        }
        unreachable!()
    }

    /// Tries to do so. It is `false` if the lock is taken.
    pub(crate) fn try_close_list(&mut self) -> bool
        ensures chair { (self.new.chair.table_id ≡ self.old.chair.table_id)
            × (self.new.inside ≡ self.old.inside) × (self.new.behind ≡ self.old.behind) }
        ensures closed { result ≡ true → view_of self.new ≡ saw_closed (view_of self.old) }
        ensures missed { result ≡ false → view_of self.new ≡ view_of self.old }
    {
        self.list.close(&mut self.chair)
    }
}

impl<T: Drop> Sender<T> {
    /// Closes the channel, for ever: no more can be sent, and each later send of this end is refused. All receivers that
    /// sleep are woken, perhaps by an end that filled a segment and is not done. What is left can be received.
    pub fn close<R: Wait>(&mut self, rt: &R)
        ensures end { IsSame self.old.end self.new.end }
        ensures closed { (view_of self.new.end).shut ≡ true }
        ensures ended { HasEnded self.new.end × IsBehind self.new.end }
        ensures sent { sent_by self.new.end ≡ sent_by self.old.end }
        ensures got { got_by self.new.end ≡ got_by self.old.end }
    {
        let end = &mut self.end;
        end.close_list(rt);
        end.cut_all(rt);
    }
}

impl<T: Drop> Receiver<T> {
    /// The same by a receiver, which goes on receiving what is left. It makes an end that goes on for it, and takes that
    /// back. It is `false` if so many ends were made that they cannot be counted: then the channel is closed, but no
    /// segment is cut, and nothing else has changed.
    pub fn close<R: Wait>(&mut self, rt: &R) -> bool
        ensures channel { AreOfOneChannel self.old.end self.new.end }
        ensures logs { log_of self.new.end ≡ log_of self.old.end }
        ensures told { StaysTold (view_of self.old.end) (view_of self.new.end) }
        ensures later { IsLater (stand_of self.old.end) (stand_of self.new.end) }
        ensures behind { IsBehind self.old.end → IsBehind self.new.end }
        ensures closed { (view_of self.new.end).shut ≡ true }
        ensures ended { result ≡ true → HasEnded self.new.end }
        ensures given { result ≡ true → (n : ℕ) × (given_to self.new.end
            ≡ given_to self.old.end ++ new_log n (view_of self.old.end).name ∷ []) }
        ensures refused { result ≡ false → (self.new.end.inside ≡ self.old.end.inside)
            × (view_of self.new.end ≡ saw_closed (view_of self.old.end)) }
    {
        self.end.close_list(rt);
        let Some(list) = self.end.count_one() else {
            return false;
        };
        let name = self.end.name;
        let mut other = self.end.split::<AsNobody>(list, name);
        other.cut_all(rt);
        self.end.take_in(rt, other);
        true
    }
}
