//! Each atomic step on a list of those that wait, and the sleep itself.
ghost use Rattle.std.specs.Prelude.{ℕ, ◌%◌, ◌+◌, ◌<◌, ◌≡◌, ◌≢◌, ◌≤◌};
ghost use Rattle.mb_ring.specs.{Becomes, IsStill, Member, enters, gives_token, gives_up, goes_unseen, hands_on, has_closed};
ghost use Rattle.mb_ring.specs.{has_woken, leaves, leaves_with_token, part, takes_token, view_in, wakes_up, with_duty};

use crate::effects::{
    Enters, GivesUp, GoesUnseen, HandsOn, HasClosed, HasWoken, Leaves, LeavesWithToken, Same,
    WakesUp,
};
use crate::lists::AnyList;
use crate::ring::{Pass, Ring};
use crate::rule::{Always, Exchanges, Gives, NoneWaits, Takes};
use std::alloc::Allocator;
use std::sync::Wait;
use std::time::Duration;

/// One that waits without a token, in the word of a list. Its low half has the tokens that were given and not taken, its
/// high half those that wait without a token.
pub(crate) const LISTED: u64 = 4294967296;

impl<T: Drop, A: Allocator + Drop> Ring<T, A> {
    /// What the list may be. It tells nothing.
    pub(crate) fn peek_list<Q: AnyList>(&self) -> u64 {
        self.table.shared.peek(Q::word())
    }

    /// Sleeps until a token is there. It may also return for no reason.
    pub(crate) fn park<Q: AnyList, R: Wait>(&self, rt: &R, pass: &Pass<T>)
        requires asleep { 0 < (part Q.want (view_in pass.now).duty).asleep }
    {
        let _ = pass;
        self.table.shared.park(rt, Q::word(), 0);
    }

    /// The same, for no longer than `most`.
    pub(crate) fn park_for<Q: AnyList, R: Wait>(&self, rt: &R, pass: &Pass<T>, most: Duration)
        requires asleep { 0 < (part Q.want (view_in pass.now).duty).asleep }
    {
        let _ = pass;
        self.table.shared.park_timeout(rt, Q::word(), 0, most);
    }

    /// Wakes a thread for a token that was given.
    pub fn wake_thread<Q: AnyList>(&self) {
        self.table.shared.wake_one(Q::word());
    }

    /// Looks whether anybody waits without a token. If not, one wake is no longer owed.
    pub(crate) fn see_sleepers<Q: AnyList>(&self, pass: &mut Pass<T>) -> u64
        requires ring { pass.old.seat.table_id ≡ self.now.table.shared.table_id }
        requires owes { 0 < (part Q.want (view_in pass.old).duty).wakes }
        ensures pass { IsStill pass.old pass.new }
        ensures none { result < 4294967296
            → Becomes pass.old pass.new (with_duty Q.want has_woken (view_in pass.old)) }
        ensures some { 4294967296 ≤ result → Becomes pass.old pass.new (view_in pass.old) }
    {
        self.table
            .shared
            .load::<NoneWaits<Q, HasWoken>>(&mut pass.seat, Q::word())
    }

    /// The same for one that owes tokens to all.
    pub(crate) fn see_rest<Q: AnyList>(&self, pass: &mut Pass<T>) -> u64
        requires ring { pass.old.seat.table_id ≡ self.now.table.shared.table_id }
        requires owes { 0 < (part Q.want (view_in pass.old).duty).closing }
        ensures pass { IsStill pass.old pass.new }
        ensures none { result < 4294967296
            → Becomes pass.old pass.new (with_duty Q.want has_closed (view_in pass.old)) }
        ensures some { 4294967296 ≤ result → Becomes pass.old pass.new (view_in pass.old) }
    {
        self.table
            .shared
            .load::<NoneWaits<Q, HasClosed>>(&mut pass.seat, Q::word())
    }

    /// Gives a token for a wake that is owed, if the list is still as it was seen.
    pub(crate) fn give_token<Q: AnyList>(&self, pass: &mut Pass<T>, seen: u64, new: u64) -> u64
        requires ring { pass.old.seat.table_id ≡ self.now.table.shared.table_id }
        requires owes { 0 < (part Q.want (view_in pass.old).duty).wakes }
        requires waits { 4294967296 ≤ seen }
        requires room { seen % 4294967296 < 4294967295 }
        requires new { new + 4294967296 ≡ seen + 1 }
        ensures pass { IsStill pass.old pass.new }
        ensures given { result ≡ seen → Becomes pass.old pass.new
            (with_duty Q.want has_woken (gives_token Q.want (view_in pass.old))) }
        ensures missed { result ≢ seen → Becomes pass.old pass.new (view_in pass.old) }
    {
        self.table
            .shared
            .compare_exchange::<Gives<Q, HasWoken>>(&mut pass.seat, Q::word(), seen, new)
    }

    /// The same for one that owes tokens to all, and still does then.
    pub(crate) fn give_one_of_all<Q: AnyList>(&self, pass: &mut Pass<T>, seen: u64, new: u64) -> u64
        requires ring { pass.old.seat.table_id ≡ self.now.table.shared.table_id }
        requires waits { 4294967296 ≤ seen }
        requires room { seen % 4294967296 < 4294967295 }
        requires new { new + 4294967296 ≡ seen + 1 }
        ensures pass { IsStill pass.old pass.new }
        ensures given { result ≡ seen
            → Becomes pass.old pass.new (gives_token Q.want (view_in pass.old)) }
        ensures missed { result ≢ seen → Becomes pass.old pass.new (view_in pass.old) }
    {
        self.table
            .shared
            .compare_exchange::<Gives<Q, Same>>(&mut pass.seat, Q::word(), seen, new)
    }

    /// Enters the list, if it is still as it was seen.
    pub(crate) fn enter_from<Q: AnyList>(&self, pass: &mut Pass<T>, seen: u64, new: u64) -> u64
        requires ring { pass.old.seat.table_id ≡ self.now.table.shared.table_id }
        requires member { (view_in pass.old).role ≡ Member }
        requires new { new ≡ seen + 4294967296 }
        ensures pass { IsStill pass.old pass.new }
        ensures entered { result ≡ seen
            → Becomes pass.old pass.new (with_duty Q.want enters (view_in pass.old)) }
        ensures missed { result ≢ seen → Becomes pass.old pass.new (view_in pass.old) }
    {
        self.table
            .shared
            .compare_exchange::<Exchanges<Q, Enters>>(&mut pass.seat, Q::word(), seen, new)
    }

    /// Leaves the list without a token, if it is still as it was seen.
    pub(crate) fn leave_from<Q: AnyList>(&self, pass: &mut Pass<T>, seen: u64, new: u64) -> u64
        requires ring { pass.old.seat.table_id ≡ self.now.table.shared.table_id }
        requires leaving { 0 < (part Q.want (view_in pass.old).duty).leaving }
        requires new { seen ≡ new + 4294967296 }
        ensures pass { IsStill pass.old pass.new }
        ensures left { result ≡ seen
            → Becomes pass.old pass.new (with_duty Q.want leaves (view_in pass.old)) }
        ensures missed { result ≢ seen → Becomes pass.old pass.new (view_in pass.old) }
    {
        self.table
            .shared
            .compare_exchange::<Exchanges<Q, Leaves>>(&mut pass.seat, Q::word(), seen, new)
    }

    /// Leaves the list with a token, if each that waits has one. The pass then owes a wake.
    pub(crate) fn leave_with_token<Q: AnyList>(
        &self,
        pass: &mut Pass<T>,
        seen: u64,
        new: u64,
    ) -> u64
        requires ring { pass.old.seat.table_id ≡ self.now.table.shared.table_id }
        requires leaving { 0 < (part Q.want (view_in pass.old).duty).leaving }
        requires woken { seen < 4294967296 }
        requires new { seen ≡ new + 1 }
        ensures pass { IsStill pass.old pass.new }
        ensures left { result ≡ seen
            → Becomes pass.old pass.new
            (with_duty Q.want leaves_with_token (takes_token Q.want (view_in pass.old))) }
        ensures missed { result ≢ seen → Becomes pass.old pass.new (view_in pass.old) }
    {
        self.table
            .shared
            .compare_exchange::<Takes<Q, LeavesWithToken>>(&mut pass.seat, Q::word(), seen, new)
    }

    /// A sleeper takes a token, if the list is still as it was seen. It then owes a look.
    pub(crate) fn accept_from<Q: AnyList>(&self, pass: &mut Pass<T>, seen: u64, new: u64) -> u64
        requires ring { pass.old.seat.table_id ≡ self.now.table.shared.table_id }
        requires asleep { 0 < (part Q.want (view_in pass.old).duty).asleep }
        requires token { 0 < seen % 4294967296 }
        requires new { seen ≡ new + 1 }
        ensures pass { IsStill pass.old pass.new }
        ensures woken { result ≡ seen → Becomes pass.old pass.new
            (with_duty Q.want wakes_up (takes_token Q.want (view_in pass.old))) }
        ensures missed { result ≢ seen → Becomes pass.old pass.new (view_in pass.old) }
    {
        self.table
            .shared
            .compare_exchange::<Takes<Q, WakesUp>>(&mut pass.seat, Q::word(), seen, new)
    }

    /// A sleeper stops waiting, and is about to leave.
    pub fn give_up<Q: AnyList>(&self, pass: &mut Pass<T>)
        requires ring { pass.old.seat.table_id ≡ self.now.table.shared.table_id }
        requires asleep { 0 < (part Q.want (view_in pass.old).duty).asleep }
        ensures pass { IsStill pass.old pass.new }
        ensures given_up { Becomes pass.old pass.new
            (with_duty Q.want gives_up (view_in pass.old)) }
    {
        self.table
            .shared
            .load::<Always<Q, GivesUp>>(&mut pass.seat, Q::word());
    }

    /// One that entered the list goes without its look, and owes a wake in its place. It is about to leave.
    pub fn go_unseen<Q: AnyList>(&self, pass: &mut Pass<T>)
        requires ring { pass.old.seat.table_id ≡ self.now.table.shared.table_id }
        requires fresh { 0 < (part Q.want (view_in pass.old).duty).fresh }
        ensures pass { IsStill pass.old pass.new }
        ensures gone { Becomes pass.old pass.new (with_duty Q.want goes_unseen (view_in pass.old)) }
    {
        self.table
            .shared
            .load::<Always<Q, GoesUnseen>>(&mut pass.seat, Q::word());
    }

    /// One that owes a look owes a wake in its place.
    pub fn hand_on<Q: AnyList>(&self, pass: &mut Pass<T>)
        requires ring { pass.old.seat.table_id ≡ self.now.table.shared.table_id }
        requires owes { 0 < (part Q.want (view_in pass.old).duty).looks }
        ensures pass { IsStill pass.old pass.new }
        ensures handed { Becomes pass.old pass.new (with_duty Q.want hands_on (view_in pass.old)) }
    {
        self.table
            .shared
            .load::<Always<Q, HandsOn>>(&mut pass.seat, Q::word());
    }
}
