//! What an end knows of the calls of all ends is told to another.
ghost use Rattle.std.specs.Prelude.{◌≡◌, ◌<◌, ◌||◌, ◌&&◌, Some, false, true};
ghost use Rattle.mb_segment.specs.Vocabulary.{is_over};
ghost use Rattle.mb_channel.specs.Deeds.{IsUpTo};
ghost use Rattle.mb_channel.specs.Ends.{IsBehind, IsOver, SawOver, knows, stand_of, view_of};
ghost use Rattle.mb_channel.specs.Inside.{account_in, known_there, told_in};
ghost use Rattle.mb_channel.specs.Standing.{NoMore};
ghost use Rattle.mb_channel.specs.Wakes.{Tells, wakes_in, wakes_of};
ghost use Rattle.mb_channel.specs.Work.{IsStill, IsThere, work_in};

use crate::channel::TRIES;
use crate::end::{End, Receiver, Sender};
use crate::inside::{Inside, rested};
use crate::place::Place;
use mb_segment::Look;

impl<T: Drop> Inside<T> {
    /// Looks how many positions are drawn here, or, if `takes`, how many are claimed.
    fn look_up(self, takes: bool) -> (Inside<T>, u64)
        ensures still { IsStill (work_in self) (work_in result.0) }
        ensures known { result.1 ≡ known_there takes (Some (work_in result.0).pass) }
        ensures wakes { Tells 0 (wakes_in self) (wakes_in result.0) }
    {
        let Inside { segment, pass } = self;
        let mut pass = pass.pass();
        let number = if takes {
            segment.learn_taken(&mut pass)
        } else {
            segment.learn_drawn(&mut pass)
        };
        (rested(segment, pass), number)
    }

    /// Looks whether no more can be sent here, or, if `takes`, whether no value can come any more.
    fn sees_over(self, takes: bool) -> (Inside<T>, bool)
        ensures there { IsThere (work_in self) (work_in result.0) }
        ensures account { account_in result.0 ≡ account_in self }
        ensures over { result.1 ≡ true → is_over result.0.pass.seat.me.0 ≡ true }
        ensures told { told_in result.0 ≡ told_in self || (takes && result.1) }
        ensures wakes { Tells 0 (wakes_in self) (wakes_in result.0) }
    {
        let Inside { segment, pass } = self;
        let mut pass = pass.pass();
        let over = if takes {
            matches!(segment.look(&mut pass), Look::Over)
        } else {
            segment.sees_over(&mut pass)
        };
        (rested(segment, pass), over)
    }
}

impl<T: Drop> End<T> {
    /// How far the end knows of sends, or, if `takes`, of receives. One access, if it is in a segment.
    fn look_up(&mut self, takes: bool) -> Place
        ensures chair { (self.new.chair ≡ self.old.chair) × (self.new.behind ≡ self.old.behind) }
        ensures still { NoMore (stand_of self.old) (stand_of self.new) }
        ensures place { result ≡ knows takes (stand_of self.new) }
        ensures wakes { Tells 0 (wakes_of self.old) (wakes_of self.new) }
    {
        let segment = self.at;
        let Some(inside) = self.inside.take() else {
            return Place { segment, number: 0 };
        };
        let (inside, number) = inside.look_up(takes);
        self.inside = Some(inside);
        Place { segment, number }
    }

    /// Looks whether the end may go on. It may if it is in no segment, or if nothing more can be sent in its own. If
    /// `takes`, its own must be one where no value can come any more.
    fn may_go_on(&mut self, takes: bool) -> bool
        ensures chair { (self.new.chair ≡ self.old.chair) × (self.new.behind ≡ self.old.behind) }
        ensures still { NoMore (stand_of self.old) (stand_of self.new) }
        ensures over { result ≡ true → SawOver self.new }
        ensures done { result ≡ true → takes ≡ true → IsOver self.new }
        ensures wakes { Tells 0 (wakes_of self.old) (wakes_of self.new) }
    {
        let Some(inside) = self.inside.take() else {
            return true;
        };
        let (inside, over) = inside.sees_over(takes);
        self.inside = Some(inside);
        self.over = self.over || (takes && over);
        over
    }

    /// Goes on towards the segment of this place. It is a try, which may change nothing if the lock is taken. It is
    /// `false` if the end is there, or cannot go on yet.
    fn follow(&mut self, place: Place, takes: bool) -> bool
        requires side { takes ≡ true → (view_of self.old).takes ≡ true }
        ensures still { NoMore (stand_of self.old) (stand_of self.new) }
        ensures takes { takes ≡ true → (view_of self.new).takes ≡ true }
        ensures behind { IsBehind self.old → IsBehind self.new }
        ensures wakes { Tells 0 (wakes_of self.old) (wakes_of self.new) }
    {
        let there = self.at == place.segment && (self.inside.is_some() || place.number == 0);
        if there || self.at > place.segment || !self.may_go_on(takes) {
            return false;
        }
        matches!(self.go_on(takes, false), Ok(true))
    }

    /// Learns of all sends before the place, or, if `takes`, of all receives. It is `false` if the end does not know of
    /// them all.
    pub(crate) fn learn(&mut self, place: Place, takes: bool) -> bool
        requires side { takes ≡ true → (view_of self.old).takes ≡ true }
        ensures still { NoMore (stand_of self.old) (stand_of self.new) }
        ensures takes { takes ≡ true → (view_of self.new).takes ≡ true }
        ensures learned { result ≡ true → IsUpTo place (knows takes (stand_of self.new)) }
        ensures missed { result ≡ false → IsUpTo place (knows takes (stand_of self.new)) → ⊥ }
        ensures behind { IsBehind self.old → IsBehind self.new }
        ensures wakes { Tells 0 (wakes_of self.old) (wakes_of self.new) }
    {
        for _ in 0..TRIES {
            if !self.follow(place, takes) {
                break;
            }
        }
        let known = self.look_up(takes);
        place.is_up_to(known)
    }
}

impl<T: Drop> Sender<T> {
    /// How far the sender knows: what it sent lies before this place, and so does all that it learned of. Tell it to
    /// another end, which learns of that by [`Sender::learn`] or [`Receiver::learn`]. One access at most.
    pub fn known(&mut self) -> Place
        ensures still { NoMore (stand_of self.old.end) (stand_of self.new.end) }
        ensures known { result ≡ knows false (stand_of self.new.end) }
        ensures behind { IsBehind self.old.end → IsBehind self.new.end }
        ensures wakes { Tells 0 (wakes_of self.old.end) (wakes_of self.new.end) }
    {
        self.end.look_up(false)
    }

    /// Learns of all that lies before a place that another end told: what the sender sends from then on stands behind it.
    /// It is `false` exactly if the sender does not know of it all, as when a lock is taken: yield, and try again. It
    /// never waits. One access, if it is in the segment of the place.
    pub fn learn(&mut self, place: Place) -> bool
        ensures still { NoMore (stand_of self.old.end) (stand_of self.new.end) }
        ensures learned { result ≡ true → IsUpTo place (knows false (stand_of self.new.end)) }
        ensures missed { result ≡ false
            → IsUpTo place (knows false (stand_of self.new.end)) → ⊥ }
        ensures behind { IsBehind self.old.end → IsBehind self.new.end }
        ensures wakes { Tells 0 (wakes_of self.old.end) (wakes_of self.new.end) }
    {
        self.end.learn(place, false)
    }
}

impl<T: Drop> Receiver<T> {
    /// How far the receiver knows: what it received lies before this place, and so do all receives that it learned of. One
    /// access at most.
    pub fn known(&mut self) -> Place
        ensures still { NoMore (stand_of self.old.end) (stand_of self.new.end) }
        ensures known { result ≡ knows true (stand_of self.new.end) }
        ensures behind { IsBehind self.old.end → IsBehind self.new.end }
        ensures wakes { Tells 0 (wakes_of self.old.end) (wakes_of self.new.end) }
    {
        self.end.look_up(true)
    }

    /// Learns that all before a place that another end told is received: what the receiver receives from then on stands
    /// behind it. It is `false` exactly if it does not know that, as when a value before the place still waits, or a lock
    /// is taken. It never waits, and receives nothing. One access, if it is in the segment of the place.
    pub fn learn(&mut self, place: Place) -> bool
        ensures still { NoMore (stand_of self.old.end) (stand_of self.new.end) }
        ensures learned { result ≡ true → IsUpTo place (knows true (stand_of self.new.end)) }
        ensures missed { result ≡ false
            → IsUpTo place (knows true (stand_of self.new.end)) → ⊥ }
        ensures behind { IsBehind self.old.end → IsBehind self.new.end }
        ensures wakes { Tells 0 (wakes_of self.old.end) (wakes_of self.new.end) }
    {
        self.end.learn(place, true)
    }
}
