//! What an end can ask about its channel.
ghost use Rattle.std.specs.Prelude.{true, ◌<◌, ◌≡◌};
ghost use Rattle.mb_bounded.specs.Desks.{HasCounted, knows};
ghost use Rattle.mb_bounded.specs.Ends.{HasLooked, IsSame, IsStill, bound_of, view_of};

use crate::end::{End, Receiver, Sender};
use std::sync::Wait;

impl<T: Drop> End<T> {
    fn len<R: Wait>(&mut self, rt: &R) -> u64
        ensures end { IsSame self.old self.new }
        ensures looked { HasLooked (bound_of self.old) result (view_of self.old)
            (view_of self.new) }
        ensures cut { (view_of self.new).sight.cut ≡ (view_of self.old).sight.cut }
        ensures over { (view_of self.old).over ≡ true → (view_of self.new).over ≡ true }
    {
        self.hall.ring.len(rt, &mut self.pass)
    }
}

impl<T: Drop> Sender<T> {
    /// How many values may wait.
    pub fn bound(&self) -> u64
        ensures { result ≡ bound_of self.now.end }
    {
        self.end.hall.ring.size()
    }

    /// How many values wait. At one moment during the call no more waited, and at a later one no fewer. It goes on while
    /// others receive.
    pub fn len<R: Wait>(&mut self, rt: &R) -> u64
        ensures end { IsSame self.old.end self.new.end × (self.new.closed ≡ self.old.closed) }
        ensures looked { HasLooked (bound_of self.old.end) result (view_of self.old.end)
            (view_of self.new.end) }
    {
        self.end.len(rt)
    }

    /// How many senders and receivers there were at one moment during the call, this one among them.
    pub fn count<R: Wait>(&mut self, rt: &R) -> (u64, u64)
        ensures same { IsStill self.old.end self.new.end × (self.new.closed ≡ self.old.closed) }
        ensures counted { HasCounted (knows self.old.end.chair) (knows self.new.end.chair)
            result.0 result.1 }
        ensures this { 0 < result.0 }
    {
        let end = &mut self.end;
        end.hall.office.count(rt, &mut end.chair)
    }
}

impl<T: Drop> Receiver<T> {
    /// How many values may wait.
    pub fn bound(&self) -> u64
        ensures { result ≡ bound_of self.now.end }
    {
        self.end.hall.ring.size()
    }

    /// How many values wait, as [`Sender::len`].
    pub fn len<R: Wait>(&mut self, rt: &R) -> u64
        ensures end { IsSame self.old.end self.new.end × (self.new.over ≡ self.old.over) }
        ensures looked { HasLooked (bound_of self.old.end) result (view_of self.old.end)
            (view_of self.new.end) }
    {
        self.end.len(rt)
    }

    /// How many senders and receivers there were at one moment during the call, this one among them.
    pub fn count<R: Wait>(&mut self, rt: &R) -> (u64, u64)
        ensures same { IsStill self.old.end self.new.end × (self.new.over ≡ self.old.over) }
        ensures counted { HasCounted (knows self.old.end.chair) (knows self.new.end.chair)
            result.0 result.1 }
        ensures this { 0 < result.1 }
    {
        let end = &mut self.end;
        end.hall.office.count(rt, &mut end.chair)
    }
}
