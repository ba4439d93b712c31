//! Each atomic step on the list of those that wait, and the sleep itself.
ghost use Rattle.std.specs.Prelude.{ℕ, ◌%◌, ◌+◌, ◌<◌, ◌≡◌, ◌≢◌, ◌≤◌};
ghost use Rattle.mb_segment.specs.{Becomes, IsStill, Member, enters, gives_token, gives_up, goes_unseen, hands_on};
ghost use Rattle.mb_segment.specs.{has_closed, has_woken, leaves, leaves_with_token, takes_token, view_in, wakes_up, with_duty};

use crate::effects::{
    Enters, GivesUp, GoesUnseen, HandsOn, HasClosed, HasWoken, Leaves, LeavesWithToken, Same,
    WakesUp,
};
use crate::rule::{Always, Exchanges, Gives, NoneWaits, Takes};
use crate::segment::{Pass, Segment};
use std::alloc::Allocator;
use std::sync::Wait;
use std::time::{Clock, Duration, Instant};

/// The word of the list: in its low half the tokens that were given and not taken, in its high half those that wait
/// without a token.
pub(crate) const LIST: usize = 8;

/// One that waits without a token, in the word of the list.
pub(crate) const LISTED: u64 = 4294967296;

impl<T: Drop, A: Allocator + Drop> Segment<T, A> {
    /// What the list may be. It tells nothing.
    pub(crate) fn peek_list(&self) -> u64 {
        self.table.shared.peek(LIST)
    }

    /// Lets the thread sleep until a token is there. It may also return for no reason.
    pub fn park<R: Wait>(&self, rt: &R, pass: &Pass<T>)
        requires segment { pass.now.seat.table_id ≡ self.now.table.shared.table_id }
        requires asleep { 0 < (view_in pass.now).duty.asleep }
    {
        let _ = pass;
        self.table.shared.park(rt, LIST, 0);
    }

    /// The same until a deadline. It is `false` if that has come, or if there is no clock.
    pub fn park_by<R: Wait + Clock>(&self, rt: &R, pass: &Pass<T>, deadline: Instant) -> bool
        requires segment { pass.now.seat.table_id ≡ self.now.table.shared.table_id }
        requires asleep { 0 < (view_in pass.now).duty.asleep }
    {
        let _ = pass;
        let left = match Instant::now(rt) {
            Ok(now) => deadline.saturating_duration_since(now),
            Err(_) => Duration::ZERO,
        };
        if left.is_zero() {
            return false;
        }
        self.table.shared.park_timeout(rt, LIST, 0, left);
        true
    }

    /// Wakes a thread for a token that was given.
    pub fn wake_thread(&self) {
        self.table.shared.wake_one(LIST);
    }

    /// Looks whether anybody waits without a token. If not, one wake is no longer owed.
    pub(crate) fn see_sleepers(&self, pass: &mut Pass<T>) -> u64
        requires segment { pass.old.seat.table_id ≡ self.now.table.shared.table_id }
        requires owes { 0 < (view_in pass.old).duty.wakes }
        ensures pass { IsStill pass.old pass.new }
        ensures none { result < 4294967296
            → Becomes pass.old pass.new (with_duty has_woken (view_in pass.old)) }
        ensures some { 4294967296 ≤ result → Becomes pass.old pass.new (view_in pass.old) }
    {
        self.table
            .shared
            .load::<NoneWaits<HasWoken>>(&mut pass.seat, LIST)
    }

    /// The same for one that owes tokens to all.
    pub(crate) fn see_rest(&self, pass: &mut Pass<T>) -> u64
        requires segment { pass.old.seat.table_id ≡ self.now.table.shared.table_id }
        requires owes { 0 < (view_in pass.old).duty.closing }
        ensures pass { IsStill pass.old pass.new }
        ensures none { result < 4294967296
            → Becomes pass.old pass.new (with_duty has_closed (view_in pass.old)) }
        ensures some { 4294967296 ≤ result → Becomes pass.old pass.new (view_in pass.old) }
    {
        self.table
            .shared
            .load::<NoneWaits<HasClosed>>(&mut pass.seat, LIST)
    }

    /// Gives a token for a wake that is owed, if the list is still as it was seen.
    pub(crate) fn give_token(&self, pass: &mut Pass<T>, seen: u64, new: u64) -> u64
        requires segment { pass.old.seat.table_id ≡ self.now.table.shared.table_id }
        requires owes { 0 < (view_in pass.old).duty.wakes }
        requires waits { 4294967296 ≤ seen }
        requires room { seen % 4294967296 < 4294967295 }
        requires new { new + 4294967296 ≡ seen + 1 }
        ensures pass { IsStill pass.old pass.new }
        ensures given { result ≡ seen
            → Becomes pass.old pass.new (with_duty has_woken (gives_token (view_in pass.old))) }
        ensures missed { result ≢ seen → Becomes pass.old pass.new (view_in pass.old) }
    {
        self.table
            .shared
            .compare_exchange::<Gives<HasWoken>>(&mut pass.seat, LIST, seen, new)
    }

    /// The same for one that owes tokens to all, and still does then.
    pub(crate) fn give_one_of_all(&self, pass: &mut Pass<T>, seen: u64, new: u64) -> u64
        requires segment { pass.old.seat.table_id ≡ self.now.table.shared.table_id }
        requires waits { 4294967296 ≤ seen }
        requires room { seen % 4294967296 < 4294967295 }
        requires new { new + 4294967296 ≡ seen + 1 }
        ensures pass { IsStill pass.old pass.new }
        ensures given { result ≡ seen
            → Becomes pass.old pass.new (gives_token (view_in pass.old)) }
        ensures missed { result ≢ seen → Becomes pass.old pass.new (view_in pass.old) }
    {
        self.table
            .shared
            .compare_exchange::<Gives<Same>>(&mut pass.seat, LIST, seen, new)
    }

    /// Enters the list, if it is still as it was seen.
    pub(crate) fn enter_from(&self, pass: &mut Pass<T>, seen: u64, new: u64) -> u64
        requires segment { pass.old.seat.table_id ≡ self.now.table.shared.table_id }
        requires member { (view_in pass.old).role ≡ Member }
        requires new { new ≡ seen + 4294967296 }
        ensures pass { IsStill pass.old pass.new }
        ensures entered { result ≡ seen
            → Becomes pass.old pass.new (with_duty enters (view_in pass.old)) }
        ensures missed { result ≢ seen → Becomes pass.old pass.new (view_in pass.old) }
    {
        self.table
            .shared
            .compare_exchange::<Exchanges<Enters>>(&mut pass.seat, LIST, seen, new)
    }

    /// Leaves the list without a token, if it is still as it was seen.
    pub(crate) fn leave_from(&self, pass: &mut Pass<T>, seen: u64, new: u64) -> u64
        requires segment { pass.old.seat.table_id ≡ self.now.table.shared.table_id }
        requires leaving { 0 < (view_in pass.old).duty.leaving }
        requires new { seen ≡ new + 4294967296 }
        ensures pass { IsStill pass.old pass.new }
        ensures left { result ≡ seen
            → Becomes pass.old pass.new (with_duty leaves (view_in pass.old)) }
        ensures missed { result ≢ seen → Becomes pass.old pass.new (view_in pass.old) }
    {
        self.table
            .shared
            .compare_exchange::<Exchanges<Leaves>>(&mut pass.seat, LIST, seen, new)
    }

    /// Leaves the list with a token, if each that waits has one. The pass then owes a wake.
    pub(crate) fn leave_with_token(&self, pass: &mut Pass<T>, seen: u64, new: u64) -> u64
        requires segment { pass.old.seat.table_id ≡ self.now.table.shared.table_id }
        requires leaving { 0 < (view_in pass.old).duty.leaving }
        requires woken { seen < 4294967296 }
        requires new { seen ≡ new + 1 }
        ensures pass { IsStill pass.old pass.new }
        ensures left { result ≡ seen
            → Becomes pass.old pass.new
            (with_duty leaves_with_token (takes_token (view_in pass.old))) }
        ensures missed { result ≢ seen → Becomes pass.old pass.new (view_in pass.old) }
    {
        self.table
            .shared
            .compare_exchange::<Takes<LeavesWithToken>>(&mut pass.seat, LIST, seen, new)
    }

    /// A sleeper takes a token, if the list is still as it was seen. It then owes a look.
    pub(crate) fn accept_from(&self, pass: &mut Pass<T>, seen: u64, new: u64) -> u64
        requires segment { pass.old.seat.table_id ≡ self.now.table.shared.table_id }
        requires asleep { 0 < (view_in pass.old).duty.asleep }
        requires token { 0 < seen % 4294967296 }
        requires new { seen ≡ new + 1 }
        ensures pass { IsStill pass.old pass.new }
        ensures woken { result ≡ seen
            → Becomes pass.old pass.new (with_duty wakes_up (takes_token (view_in pass.old))) }
        ensures missed { result ≢ seen → Becomes pass.old pass.new (view_in pass.old) }
    {
        self.table
            .shared
            .compare_exchange::<Takes<WakesUp>>(&mut pass.seat, LIST, seen, new)
    }

    /// A sleeper stops waiting, and is about to leave.
    pub fn give_up(&self, pass: &mut Pass<T>)
        requires segment { pass.old.seat.table_id ≡ self.now.table.shared.table_id }
        requires asleep { 0 < (view_in pass.old).duty.asleep }
        ensures pass { IsStill pass.old pass.new }
        ensures given_up { Becomes pass.old pass.new (with_duty gives_up (view_in pass.old)) }
    {
        self.table
            .shared
            .load::<Always<GivesUp>>(&mut pass.seat, LIST);
    }

    /// One that entered the list goes without its look, and owes a wake in its place. It is about to leave.
    pub fn go_unseen(&self, pass: &mut Pass<T>)
        requires segment { pass.old.seat.table_id ≡ self.now.table.shared.table_id }
        requires fresh { 0 < (view_in pass.old).duty.fresh }
        ensures pass { IsStill pass.old pass.new }
        ensures gone { Becomes pass.old pass.new (with_duty goes_unseen (view_in pass.old)) }
    {
        self.table
            .shared
            .load::<Always<GoesUnseen>>(&mut pass.seat, LIST);
    }

    /// One that owes a look owes a wake in its place.
    pub fn hand_on(&self, pass: &mut Pass<T>)
        requires segment { pass.old.seat.table_id ≡ self.now.table.shared.table_id }
        requires owes { 0 < (view_in pass.old).duty.looks }
        ensures pass { IsStill pass.old pass.new }
        ensures handed { Becomes pass.old pass.new (with_duty hands_on (view_in pass.old)) }
    {
        self.table
            .shared
            .load::<Always<HandsOn>>(&mut pass.seat, LIST);
    }
}
