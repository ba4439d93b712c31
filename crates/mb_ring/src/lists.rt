//! The two lists of those that wait, and the calls on them, which are the same for both.
ghost use Rattle.std.specs.Prelude.{false, true, ◌<◌, ◌≡◌};
ghost use Rattle.mb_ring.specs.{Becomes, IsStill, Member, OfLeave, OfRest, OfWake, enters, gives_token, has_closed, has_woken};
ghost use Rattle.mb_ring.specs.{leaves, leaves_with_token, part, takes_token, view_in, wakes_up, with_duty};

use crate::list::LISTED;
use crate::ring::{Pass, Ring};
use mb_segment::{Leave, Rest, Wake};
use std::alloc::Allocator;

/// A list of those that wait.
pub trait AnyList {
    ghost use Rattle.std.specs.Prelude.{◌<◌, ◌≡◌};
    ghost use Rattle.mb_ring.specs.declared.view.Want.{Want};
    ghost use Rattle.mb_ring.specs.Steps.{list_word};

    ghost want: { Want };

    /// The number of its word in the table.
    fn word() -> usize
        ensures word { result ≡ list_word want }
        ensures small { result < 4 };
}

/// The list of receivers that wait for values.
pub struct ForValues;

impl AnyList for ForValues {
    ghost use Rattle.mb_ring.specs.Types.{Values};

    ghost want = { Values };

    fn word() -> usize {
        2
    }
}

/// The list of senders that wait for room.
pub struct ForRoom;

impl AnyList for ForRoom {
    ghost use Rattle.mb_ring.specs.Types.{Room};

    ghost want = { Room };

    fn word() -> usize {
        3
    }
}

impl<T: Drop, A: Allocator + Drop> Ring<T, A> {
    /// Pays one wake that is owed: gives a token to one that waits, or finds that nobody does. [`Wake::One`] is the answer
    /// exactly if it gave a token. Two accesses at most.
    pub fn wake<Q: AnyList>(&self, pass: &mut Pass<T>) -> Wake
        requires ring { pass.old.seat.table_id ≡ self.now.table.shared.table_id }
        requires owes { 0 < (part Q.want (view_in pass.old).duty).wakes }
        ensures pass { IsStill pass.old pass.new }
        ensures answer { OfWake result
            (Becomes pass.old pass.new (with_duty Q.want has_woken (view_in pass.old)))
            (Becomes pass.old pass.new
            (with_duty Q.want has_woken (gives_token Q.want (view_in pass.old))))
            (Becomes pass.old pass.new (view_in pass.old)) }
    {
        let seen = self.see_sleepers::<Q>(pass);
        if seen < LISTED {
            return Wake::Nobody;
        }
        if seen % LISTED < LISTED - 1
            && self.give_token::<Q>(pass, seen, seen - LISTED + 1) == seen
        {
            return Wake::One;
        }
        Wake::Again
    }

    /// Gives a token to one of all that wait, for a pass that owes tokens to all. It owes this until the answer is
    /// [`Wake::Nobody`]. The answer is [`Wake::One`] exactly if it gave a token. Two accesses at most.
    pub fn wake_all<Q: AnyList>(&self, pass: &mut Pass<T>) -> Wake
        requires ring { pass.old.seat.table_id ≡ self.now.table.shared.table_id }
        requires owes { 0 < (part Q.want (view_in pass.old).duty).closing }
        ensures pass { IsStill pass.old pass.new }
        ensures answer { OfWake result
            (Becomes pass.old pass.new (with_duty Q.want has_closed (view_in pass.old)))
            (Becomes pass.old pass.new (gives_token Q.want (view_in pass.old)))
            (Becomes pass.old pass.new (view_in pass.old)) }
    {
        let seen = self.see_rest::<Q>(pass);
        if seen < LISTED {
            return Wake::Nobody;
        }
        if seen % LISTED < LISTED - 1
            && self.give_one_of_all::<Q>(pass, seen, seen - LISTED + 1) == seen
        {
            return Wake::One;
        }
        Wake::Again
    }

    /// Enters the list of those that wait. The pass then owes a look. False if another pass changed the list, or 2^32 - 1
    /// wait. One access at most.
    pub fn enter<Q: AnyList>(&self, pass: &mut Pass<T>) -> bool
        requires ring { pass.old.seat.table_id ≡ self.now.table.shared.table_id }
        requires member { (view_in pass.old).role ≡ Member }
        ensures pass { IsStill pass.old pass.new }
        ensures entered { result ≡ true
            → Becomes pass.old pass.new (with_duty Q.want enters (view_in pass.old)) }
        ensures missed { result ≡ false → Becomes pass.old pass.new (view_in pass.old) }
    {
        let seen = self.peek_list::<Q>();
        match seen.checked_add(LISTED) {
            Some(new) => self.enter_from::<Q>(pass, seen, new) == seen,
            None => false,
        }
    }

    /// A sleeper takes a token, if one is there. It owes a look then. One access at most.
    pub fn accept<Q: AnyList>(&self, pass: &mut Pass<T>) -> Rest
        requires ring { pass.old.seat.table_id ≡ self.now.table.shared.table_id }
        requires asleep { 0 < (part Q.want (view_in pass.old).duty).asleep }
        ensures pass { IsStill pass.old pass.new }
        ensures answer { OfRest result
            (Becomes pass.old pass.new
            (with_duty Q.want wakes_up (takes_token Q.want (view_in pass.old))))
            (Becomes pass.old pass.new (view_in pass.old)) }
    {
        let seen = self.peek_list::<Q>();
        if seen % LISTED == 0 {
            return Rest::Sleep;
        }
        if self.accept_from::<Q>(pass, seen, seen - 1) == seen {
            Rest::Woken
        } else {
            Rest::Again
        }
    }

    /// Leaves the list. If each that waits has a token, the pass takes one with it, and owes a wake. One access at most.
    pub fn leave<Q: AnyList>(&self, pass: &mut Pass<T>) -> Leave
        requires ring { pass.old.seat.table_id ≡ self.now.table.shared.table_id }
        requires leaving { 0 < (part Q.want (view_in pass.old).duty).leaving }
        ensures pass { IsStill pass.old pass.new }
        ensures answer { OfLeave result
            (Becomes pass.old pass.new (with_duty Q.want leaves (view_in pass.old)))
            (Becomes pass.old pass.new
            (with_duty Q.want leaves_with_token (takes_token Q.want (view_in pass.old))))
            (Becomes pass.old pass.new (view_in pass.old)) }
    {
        let seen = self.peek_list::<Q>();
        if seen >= LISTED {
            if self.leave_from::<Q>(pass, seen, seen - LISTED) == seen {
                return Leave::Left;
            }
        } else if seen > 0 && self.leave_with_token::<Q>(pass, seen, seen - 1) == seen {
            return Leave::Owes;
        }
        Leave::Again
    }
}
