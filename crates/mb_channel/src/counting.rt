//! How many values wait.
ghost use Rattle.std.specs.Prelude.{◌≡◌, ◌<◌, [], IfSome, Some, length, true};
ghost use Rattle.mb_channel.specs.Ends.{end_told};
ghost use Rattle.mb_channel.specs.Kept.{kept_told};
ghost use Rattle.mb_channel.specs.Homes.{Changes, HoldsHomes, IsReady, unlocked, view_in};
ghost use Rattle.mb_channel.specs.Lengths.{AreWaiting, HasLooked, HasSummed, HaveLooked};
ghost use Rattle.mb_channel.specs.Lengths.{chair_told, drawn_there, sum_of, taken_there, told_length};

use crate::channel::TRIES;
use crate::end::{End, Receiver, Sender};
use crate::home::{Home, Homes};
use crate::kept::KeptSender;
use crate::list::{Chair, List};
use crate::rule::{GivesLength, Length};
use mb_segment::pause;
use std::marker::Brand;
use std::sync::Wait;

impl<T: Drop> Home<T> {
    /// The hub looks how many positions of the segment are claimed.
    fn count_taken(&mut self) -> u64
        ensures looked { HasLooked self.old self.new }
        ensures taken { result ≡ taken_there self.new }
        ensures drawn { drawn_there self.new ≡ drawn_there self.old }
    {
        self.segment.count_taken(&mut self.hub)
    }

    /// The same of the positions that are drawn.
    fn count_drawn(&mut self) -> u64
        ensures looked { HasLooked self.old self.new }
        ensures drawn { result ≡ drawn_there self.new }
    {
        self.segment.count_drawn(&mut self.hub)
    }
}

impl<T: Drop> Homes<T> {
    fn taken_at(&mut self, at: usize) -> u64
        requires there { at < length self.old.list.items }
        ensures first { (self.new.first ≡ self.old.first) × (self.new.audited ≡ self.old.audited) }
        ensures taken { Changes self.old.list.items self.new.list.items at
            (λ h g. HasLooked h g × (result ≡ taken_there g)) }
        ensures drawn { Changes self.old.list.items self.new.list.items at
            (λ h g. HasLooked h g × (drawn_there g ≡ drawn_there h)) }
    {
        self.list[at].count_taken()
    }

    fn drawn_at(&mut self, at: usize) -> u64
        requires there { at < length self.old.list.items }
        ensures first { (self.new.first ≡ self.old.first) × (self.new.audited ≡ self.old.audited) }
        ensures drawn { Changes self.old.list.items self.new.list.items at
            (λ h g. HasLooked h g × (result ≡ drawn_there g)) }
    {
        self.list[at].count_drawn()
    }

    /// How many positions are claimed in the segments of the list. It is `None` if they cannot be counted.
    fn taken(&mut self) -> Option<u64>
        ensures first { (self.new.first ≡ self.old.first) × (self.new.audited ≡ self.old.audited) }
        ensures looked { HaveLooked self.old.list.items self.new.list.items }
        ensures taken { IfSome result (λ n. n ≡ sum_of taken_there self.new.list.items) }
        ensures drawn { sum_of drawn_there self.new.list.items
            ≡ sum_of drawn_there self.old.list.items }
    {
        let mut taken: u64 = 0;
        for at in 0..self.list.len() {
            taken = taken.checked_add(self.taken_at(at))?;
        }
        Some(taken)
    }

    /// The same of the positions that are drawn.
    fn drawn(&mut self) -> Option<u64>
        ensures first { (self.new.first ≡ self.old.first) × (self.new.audited ≡ self.old.audited) }
        ensures looked { HaveLooked self.old.list.items self.new.list.items }
        ensures drawn { IfSome result (λ n. n ≡ sum_of drawn_there self.new.list.items) }
    {
        let mut drawn: u64 = 0;
        for at in 0..self.list.len() {
            drawn = drawn.checked_add(self.drawn_at(at))?;
        }
        Some(drawn)
    }

    /// How many values wait: the number drawn, less the number claimed. That is looked up before and again behind, and is
    /// the same. All segments but the last are over, so just so many waited at the load of the last one's number drawn.
    /// It is `None` if others claimed meanwhile.
    fn waiting_now(&mut self) -> Option<u64>
        ensures first { (self.new.first ≡ self.old.first) × (self.new.audited ≡ self.old.audited) }
        ensures looked { HaveLooked self.old.list.items self.new.list.items }
        ensures waiting { IfSome result (λ n. AreWaiting self.new n) }
    {
        let taken = self.taken()?;
        let drawn = self.drawn()?;
        if self.taken()? != taken {
            return None;
        }
        drawn.checked_sub(taken)
    }

    /// The same, with a few tries.
    fn waiting(&mut self) -> Option<u64>
        ensures first { (self.new.first ≡ self.old.first) × (self.new.audited ≡ self.old.audited) }
        ensures looked { HaveLooked self.old.list.items self.new.list.items }
        ensures waiting { IfSome result (λ n. AreWaiting self.new n) }
    {
        for _ in 0..TRIES {
            if let Some(waiting) = self.waiting_now() {
                return Some(waiting);
            }
        }
        None
    }
}

impl<T: Drop> List<T> {
    /// How many values wait in the segments, for an end that has the lock.
    fn waiting(&self, chair: &mut Chair<T>) -> Option<u64>
        requires list { chair.old.table_id ≡ self.now.table.shared.table_id }
        requires homes { HoldsHomes chair.old.me (λ hs. hs ≡ (view_in chair.old).before) }
        ensures list { (chair.new.table_id ≡ chair.old.table_id) × (chair.new.id ≡ chair.old.id) }
        ensures view { view_in chair.new ≡ view_in chair.old }
        ensures looked { HasSummed (view_in chair.old).before result chair.new.me.1 }
    {
        let homes = chair.slot_mut(&self.table.shared, 0);
        homes.waiting()
    }

    /// Gives the lock back, and tells how many values wait in the list. `found` is what the proof that picks that may use.
    fn give_length<N: Length>(&self, chair: &mut Chair<T>, found: Option<u64>)
        requires list { chair.old.table_id ≡ self.now.table.shared.table_id }
        requires held { ((view_in chair.old).live ≡ true) × ((view_in chair.old).holds ≡ true) }
        requires waiting { HasSummed (view_in chair.old).before N.told chair.old.me.1 }
        ensures list { (chair.new.table_id ≡ chair.old.table_id) × (chair.new.id ≡ chair.old.id) }
        ensures told { chair.new.me ≡ (told_length N.told (unlocked (view_in chair.old)), []) }
    {
        let _ = found;
        self.table.shared.store::<GivesLength<N>>(chair, 0, 0);
    }

    /// How many values wait in the segments. It is `None` if the lock is taken, or if others claimed meanwhile.
    pub fn len(&self, chair: &mut Chair<T>) -> Option<u64>
        requires list { chair.old.table_id ≡ self.now.table.shared.table_id }
        requires ready { IsReady chair.old.me }
        ensures told { chair.new ≡ chair_told result chair.old }
    {
        if !self.try_lock(chair) {
            return None;
        }
        let found = self.waiting(chair);
        self.give_length::<Brand>(chair, found);
        found
    }
}

impl<T: Drop> End<T> {
    fn try_len(&mut self) -> Option<u64>
        ensures told { self.new ≡ end_told result self.old }
    {
        self.list.len(&mut self.chair)
    }

    fn len<R: Wait>(&mut self, rt: &R) -> u64
        ensures told { self.new ≡ end_told (Some result) self.old }
    {
        let mut tries: u32 = 0;
        for _ in rt.forever() {
            if let Some(found) = self.try_len() {
                return found;
            }
            pause(tries);
            tries = tries.saturating_add(1);
        }
        unreachable!()
    }
}

impl<T: Drop> Sender<T> {
    /// How many values wait: in all segments, the number drawn, less the number claimed, which was the same before and
    /// behind that look. It is `None` if the list's lock is taken, or if others received at each of a few tries: yield,
    /// and try again. It never waits. The sender is told the number, and stays as it is otherwise.
    pub fn try_len(&mut self) -> Option<u64>
        ensures told { self.new.end ≡ end_told result self.old.end }
    {
        self.end.try_len()
    }

    /// How many values wait. It goes on while others receive, or while one has the list's lock.
    pub fn len<R: Wait>(&mut self, rt: &R) -> u64
        ensures told { self.new.end ≡ end_told (Some result) self.old.end }
    {
        self.end.len(rt)
    }
}

impl<T: Drop> Receiver<T> {
    /// How many values wait, as [`Sender::try_len`].
    pub fn try_len(&mut self) -> Option<u64>
        ensures told { self.new.end ≡ end_told result self.old.end }
    {
        self.end.try_len()
    }

    /// How many values wait, as [`Sender::len`].
    pub fn len<R: Wait>(&mut self, rt: &R) -> u64
        ensures told { self.new.end ≡ end_told (Some result) self.old.end }
    {
        self.end.len(rt)
    }
}

impl<T: Drop> KeptSender<T> {
    /// How many values wait, as [`Sender::try_len`], whatever the sender owes.
    pub fn try_len(&mut self) -> Option<u64>
        ensures told { self.new ≡ kept_told result self.old }
    {
        self.list.len(&mut self.chair)
    }
}
