//! Ends are given back to one another. Whoever takes the last sender away sees to it that all segments are over.
ghost use Rattle.std.specs.Prelude.{◌≡◌, ◌++◌, ◌∷◌, ◌+◌, ◌<◌, ◌≤◌, ◌||◌, false, true, is_some, IfErr, IfNone, IfOk, IfSome};
ghost use Rattle.std.specs.Arc.{arc_value};
ghost use Rattle.mb_channel.specs.Homes.{IsReady, past_of, view_in};
ghost use Rattle.mb_channel.specs.Inside.{log_of_past, pass_there};
ghost use Rattle.mb_channel.specs.Tallies.{retires_sender};
ghost use Rattle.mb_channel.specs.Ends.{AreOfOneChannel, HasEnded, IsBehind, IsLater, IsLeft, StaysTold};
ghost use Rattle.mb_channel.specs.Ends.{given_to, got_by, log_of, sent_by, stand_of, view_of};

use crate::answers::Retired;
use crate::end::{End, Receiver, Sender};
use crate::inside::{Inside, rested};
use crate::list::{Chair, SharedList};
use std::sync::Wait;
use std::thread::yield_now;

impl<T: Drop> End<T> {
    /// The list and the chair of an end, once it has left its segment, which need not be over. And for how many ends it
    /// counts.
    pub(crate) fn outside<R: Wait>(self, rt: &R) -> (SharedList<T>, Chair<T>, u64)
        ensures list { result.1.table_id ≡ (arc_value result.0).table.shared.table_id }
        ensures chair { result.1.table_id ≡ self.chair.table_id }
        ensures ready { IsReady result.1.me × ((view_in result.1).inside ≡ false) }
        ensures same { IsLeft (view_of self) (view_in result.1) }
        ensures log { log_of_past (past_of (view_in result.1)) ≡ log_of self }
        ensures rights { result.2 ≡ self.rights }
    {
        let mut end = self;
        for _ in rt.forever() {
            match end.try_outside() {
                Ok(out) => return out,
                Err(back) => end = back,
            }
            yield_now();
        }
        unreachable!()
    }

    /// Tries to do so. The end comes back if the lock is taken.
    pub(crate) fn try_outside(self) -> Result<(SharedList<T>, Chair<T>, u64), End<T>>
        ensures list { IfOk result (λ r. r.1.table_id ≡ (arc_value r.0).table.shared.table_id) }
        ensures chair { IfOk result (λ r. r.1.table_id ≡ self.chair.table_id) }
        ensures ready { IfOk result (λ r. IsReady r.1.me × ((view_in r.1).inside ≡ false)) }
        ensures same { IfOk result (λ r. IsLeft (view_of self) (view_in r.1)) }
        ensures log { IfOk result (λ r. log_of_past (past_of (view_in r.1)) ≡ log_of self) }
        ensures rights { IfOk result (λ r. r.2 ≡ self.rights) }
        ensures back { IfErr result (λ e. (e.chair.table_id ≡ self.chair.table_id)
            × (e.chair.me ≡ self.chair.me) × (e.rights ≡ self.rights)
            × (pass_there e.inside ≡ pass_there self.inside)) }
    {
        let End {
            list,
            chair,
            at,
            rights,
            name,
            inside,
            over,
            behind: _,
        } = self;
        let mut chair = chair;
        let Some(inside) = inside else {
            return Ok((list, chair, rights));
        };
        let Inside { segment, pass } = inside;
        match list.leave(&mut chair, at, pass.pass(), over) {
            Ok(_) => Ok((list, chair, rights)),
            Err(pass) => Err(End {
                list,
                chair,
                at,
                rights,
                name,
                inside: Some(rested(segment, pass)),
                over,
                behind: false,
            }),
        }
    }

    /// Takes back another end.
    pub(crate) fn take_in<R: Wait>(&mut self, rt: &R, other: End<T>)
        requires channel { AreOfOneChannel self.old other }
        requires none { (view_of other).sends ≡ 0 }
        ensures list { self.new.chair.table_id ≡ self.old.chair.table_id }
        ensures sends { (view_of self.new).sends ≡ (view_of self.old).sends }
        ensures behind { IsBehind self.old → IsBehind self.new }
        ensures alone { (view_of self.new).alone
            ≡ (view_of self.old).alone || (view_of other).alone }
        ensures told { StaysTold (view_of self.old) (view_of self.new) }
        ensures later { IsLater (stand_of self.old) (stand_of self.new) }
        ensures last { is_some (view_of other).last ≡ true
            → is_some (view_of self.new).last ≡ true }
        ensures number { (view_of self.new).number ≡ (view_of self.old).number }
        ensures name { (view_of self.new).name ≡ (view_of self.old).name }
        ensures takes { (view_of self.new).takes ≡ (view_of self.old).takes }
        ensures receives { (view_of self.old).receives ≤ (view_of self.new).receives }
        ensures sent { sent_by self.new ≡ sent_by self.old }
        ensures got { got_by self.new ≡ got_by self.old }
        ensures given { given_to self.new ≡ given_to self.old ++ log_of other ∷ given_to other }
    {
        let (_, chair, rights) = other.outside(rt);
        self.list.give_back(&mut self.chair, chair);
        self.rights = self.rights.saturating_add(rights);
    }

    /// Tries to count for one sender less. It tells whether that was the last one. `None` if others were always first.
    pub(crate) fn try_retire(&mut self) -> Option<bool>
        requires sender { 0 < (view_of self.old).sends }
        ensures there { (self.new.chair.table_id ≡ self.old.chair.table_id)
            × (self.new.inside ≡ self.old.inside) }
        ensures view { IfSome result (λ last. view_of self.new
            ≡ retires_sender last (view_of self.old)) }
        ensures missed { IfNone result (view_of self.new ≡ view_of self.old) }
    {
        let mut seen: u64 = 1;
        for _ in 0..u64::MAX {
            match self.list.retire_sender(&mut self.chair, seen) {
                Retired::Last => return Some(true),
                Retired::One => return Some(false),
                Retired::Again(0) => seen = 1,
                Retired::Again(found) => seen = found,
            }
        }
        None
    }

    /// Counts for one sender less. It tells whether that was the last one.
    fn retire<R: Wait>(&mut self, rt: &R) -> bool
        requires sender { 0 < (view_of self.old).sends }
        ensures chair { (self.new.chair.table_id ≡ self.old.chair.table_id)
            × (self.new.inside ≡ self.old.inside) }
        ensures view { view_of self.new ≡ retires_sender result (view_of self.old) }
    {
        for _ in rt.forever() {
            if let Some(last) = self.try_retire() {
                return last;
            }
        }
        unreachable!()
    }
}

impl<T: Drop> Receiver<T> {
    /// Takes back a sender. It tells whether it was the last one. Then no more can be sent, for ever, and all receivers
    /// that sleep are woken, as by [`Sender::close`]. What is left can be received.
    pub fn give_sender<R: Wait>(&mut self, rt: &R, sender: Sender<T>) -> bool
        requires channel { AreOfOneChannel self.old.end sender.end }
        ensures channel { AreOfOneChannel self.old.end self.new.end }
        ensures logs { log_of self.new.end ≡ log_of self.old.end }
        ensures told { StaysTold (view_of self.old.end) (view_of self.new.end) }
        ensures later { IsLater (stand_of self.old.end) (stand_of self.new.end) }
        ensures behind { IsBehind self.old.end → IsBehind self.new.end }
        ensures given { given_to self.new.end
            ≡ given_to self.old.end ++ log_of sender.end ∷ given_to sender.end }
        ensures retired { (view_of self.new.end).sends ≡ (view_of self.old.end).sends }
        ensures alone { (view_of self.new.end).alone ≡ (view_of self.old.end).alone || result }
        ensures last { result ≡ true → HasEnded self.new.end }
        ensures ended { HasEnded sender.end → HasEnded self.new.end }
    {
        let Sender { end } = sender;
        let mut end = end;
        let last = end.retire(rt);
        if last {
            end.cut_all(rt);
        }
        self.end.take_in(rt, end);
        last
    }

    /// Takes back another receiver.
    pub fn give_receiver<R: Wait>(&mut self, rt: &R, receiver: Receiver<T>)
        requires channel { AreOfOneChannel self.old.end receiver.end }
        ensures channel { AreOfOneChannel self.old.end self.new.end }
        ensures logs { log_of self.new.end ≡ log_of self.old.end }
        ensures told { StaysTold (view_of self.old.end) (view_of self.new.end) }
        ensures later { IsLater (stand_of self.old.end) (stand_of self.new.end) }
        ensures behind { IsBehind self.old.end → IsBehind self.new.end }
        ensures given { given_to self.new.end
            ≡ given_to self.old.end ++ log_of receiver.end ∷ given_to receiver.end }
    {
        let Receiver { end } = receiver;
        self.end.take_in(rt, end);
    }
}
