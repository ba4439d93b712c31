//! For how many senders and receivers the ends of the list count, and its closing.
ghost use Rattle.std.specs.Prelude.{◌≡◌, ◌≢◌, ◌+◌, ◌<◌, ◌≤◌, ◌∷◌, [], true, false};
ghost use Rattle.mb_channel.specs.Answers.{OfRetired};
ghost use Rattle.mb_channel.specs.Homes.{IsReady, view_in};
ghost use Rattle.mb_channel.specs.Tallies.{hires_receiver, hires_sender, retires_receiver, retires_sender};
ghost use Rattle.mb_channel.specs.Tallies.{IsLast, saw_closed, saw_none, saw_open, saw_sender};

use crate::answers::Retired;
use crate::list::{Chair, List};
use crate::rule::{
    Closes, HiresReceiver, HiresSender, RetiresReceiver, RetiresSender, SeesMark, SeesSenders,
};

impl<T: Drop> List<T> {
    /// An end counts for one sender more, if there are still as many as were seen. If none is left, it knows that.
    pub fn hire_sender(&self, chair: &mut Chair<T>, seen: u64, new: u64) -> u64
        requires list { chair.old.table_id ≡ self.now.table.shared.table_id }
        requires live { (view_in chair.old).live ≡ true }
        requires seen { 0 < seen }
        requires new { new ≡ seen + 1 }
        ensures list { (chair.new.table_id ≡ chair.old.table_id) × (chair.new.id ≡ chair.old.id) }
        ensures held { chair.new.me.1 ≡ chair.old.me.1 }
        ensures done { result ≡ seen → (view_in chair.new ≡ hires_sender (view_in chair.old))
            × ((view_in chair.old).alone ≡ false) }
        ensures missed { result ≢ seen → result ≢ 0 → view_in chair.new ≡ view_in chair.old }
        ensures none { result ≡ 0 → (view_in chair.new ≡ saw_none (view_in chair.old))
            × ((view_in chair.old).sends ≡ 0) }
    {
        self.table
            .shared
            .compare_exchange::<HiresSender>(chair, 2, seen, new)
    }

    /// A receiver counts for one receiver more, if there are still as many as were seen.
    pub fn hire_receiver(&self, chair: &mut Chair<T>, seen: u64, new: u64) -> u64
        requires list { chair.old.table_id ≡ self.now.table.shared.table_id }
        requires live { (view_in chair.old).live ≡ true }
        requires receiver { 0 < (view_in chair.old).receives }
        requires new { new ≡ seen + 1 }
        ensures list { (chair.new.table_id ≡ chair.old.table_id) × (chair.new.id ≡ chair.old.id) }
        ensures held { chair.new.me.1 ≡ chair.old.me.1 }
        ensures done { result ≡ seen → view_in chair.new ≡ hires_receiver (view_in chair.old) }
        ensures missed { result ≢ seen → view_in chair.new ≡ view_in chair.old }
    {
        self.table
            .shared
            .compare_exchange::<HiresReceiver>(chair, 3, seen, new)
    }

    /// Counts for one sender less, if there are still as many as were seen. It tells whether that was the last one.
    pub fn retire_sender(&self, chair: &mut Chair<T>, seen: u64) -> Retired
        requires list { chair.old.table_id ≡ self.now.table.shared.table_id }
        requires live { (view_in chair.old).live ≡ true }
        requires sender { 0 < (view_in chair.old).sends }
        requires seen { 0 < seen }
        ensures list { (chair.new.table_id ≡ chair.old.table_id) × (chair.new.id ≡ chair.old.id) }
        ensures held { chair.new.me.1 ≡ chair.old.me.1 }
        ensures answer { OfRetired result
            (view_in chair.new ≡ retires_sender true (view_in chair.old))
            (view_in chair.new ≡ retires_sender false (view_in chair.old))
            (λ n. (view_in chair.new ≡ view_in chair.old) × (n ≢ seen)
            × ((view_in chair.old).sends ≤ n)) }
    {
        let found = self
            .table
            .shared
            .compare_exchange::<RetiresSender>(chair, 2, seen, seen - 1);
        if found != seen {
            Retired::Again(found)
        } else if found == 1 {
            Retired::Last
        } else {
            Retired::One
        }
    }

    /// Counts for one receiver less, if there are still as many as were seen.
    pub fn retire_receiver(&self, chair: &mut Chair<T>, seen: u64) -> u64
        requires list { chair.old.table_id ≡ self.now.table.shared.table_id }
        requires live { (view_in chair.old).live ≡ true }
        requires receiver { 0 < (view_in chair.old).receives }
        requires seen { 0 < seen }
        ensures list { (chair.new.table_id ≡ chair.old.table_id) × (chair.new.id ≡ chair.old.id) }
        ensures held { chair.new.me.1 ≡ chair.old.me.1 }
        ensures done { result ≡ seen → view_in chair.new ≡ retires_receiver (view_in chair.old) }
        ensures missed { result ≢ seen → view_in chair.new ≡ view_in chair.old }
    {
        self.table
            .shared
            .compare_exchange::<RetiresReceiver>(chair, 3, seen, seen - 1)
    }

    /// Looks whether no sender is left, behind the last segment. If one is, and the end may receive there, it counts that.
    pub(crate) fn sees_no_sender(&self, chair: &mut Chair<T>) -> bool
        requires list { chair.old.table_id ≡ self.now.table.shared.table_id }
        requires live { (view_in chair.old).live ≡ true }
        requires last { IsLast (view_in chair.old) }
        ensures list { (chair.new.table_id ≡ chair.old.table_id) × (chair.new.id ≡ chair.old.id) }
        ensures held { chair.new.me.1 ≡ chair.old.me.1 }
        ensures none { result ≡ true → (view_in chair.new ≡ saw_none (view_in chair.old))
            × ((view_in chair.old).sends ≡ 0) }
        ensures some { result ≡ false → view_in chair.new ≡ saw_sender (view_in chair.old) }
    {
        self.table.shared.load::<SeesSenders>(chair, 2) == 0
    }

    /// Looks whether the list is closed. If not, it stays so while this end has the lock.
    pub(crate) fn sees_closed(&self, chair: &mut Chair<T>) -> bool
        requires list { chair.old.table_id ≡ self.now.table.shared.table_id }
        requires live { (view_in chair.old).live ≡ true }
        ensures list { (chair.new.table_id ≡ chair.old.table_id) × (chair.new.id ≡ chair.old.id) }
        ensures held { chair.new.me.1 ≡ chair.old.me.1 }
        ensures closed { result ≡ true → view_in chair.new ≡ saw_closed (view_in chair.old) }
        ensures open_ { result ≡ false
            → view_in chair.new ≡ saw_open (view_in chair.old) }
    {
        self.table.shared.load::<SeesMark>(chair, 4) == 0
    }

    /// Closes the list, of which the end has the lock.
    fn mark_closed(&self, chair: &mut Chair<T>)
        requires list { chair.old.table_id ≡ self.now.table.shared.table_id }
        requires held { ((view_in chair.old).live ≡ true) × ((view_in chair.old).holds ≡ true) }
        ensures list { (chair.new.table_id ≡ chair.old.table_id) × (chair.new.id ≡ chair.old.id) }
        ensures held { chair.new.me.1 ≡ chair.old.me.1 }
        ensures closed { view_in chair.new
            ≡ record (view_in chair.old) { is_open = false; may_add = false; shut = true } }
    {
        self.table.shared.store::<Closes>(chair, 4, 0);
    }

    /// Closes the list: no segment is added any more. It is `false` if the lock is taken.
    pub fn close(&self, chair: &mut Chair<T>) -> bool
        requires list { chair.old.table_id ≡ self.now.table.shared.table_id }
        requires ready { IsReady chair.old.me }
        ensures list { (chair.new.table_id ≡ chair.old.table_id) × (chair.new.id ≡ chair.old.id) }
        ensures closed { result ≡ true → chair.new.me ≡ (saw_closed (view_in chair.old), []) }
        ensures missed { result ≡ false → chair.new.me ≡ chair.old.me }
    {
        if !self.try_lock(chair) {
            return false;
        }
        self.mark_closed(chair);
        self.unlock(chair);
        true
    }
}
