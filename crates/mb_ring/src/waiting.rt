//! What waits, and is the same for both lists: paying what is owed, and sleep.
ghost use Rattle.std.specs.Prelude.{false, true, ℕ, ◌<◌, ◌≡◌, ◌≤◌};
ghost use Rattle.mb_ring.specs.{Becomes, BecomesUncounted, IsStill, Member, enters, gives_tokens, gives_up, has_closed, has_woken, leaves, part};
ghost use Rattle.mb_ring.specs.{takes_token, view_in, wakes_up, with_duty};

use crate::lists::AnyList;
use crate::ring::{Pass, Ring};
use mb_segment::{Leave, Rest, Wake};
use std::alloc::Allocator;
use std::sync::Wait;
use std::time::{Clock, Duration, Instant};

impl<T: Drop, A: Allocator + Drop> Ring<T, A> {
    /// Pays one wake that is owed. It gives one token at most, and wakes a thread of that list for it.
    pub fn pay<Q: AnyList, R: Wait>(&self, rt: &R, pass: &mut Pass<T>)
        requires ring { pass.old.seat.table_id ≡ self.now.table.shared.table_id }
        requires owes { 0 < (part Q.want (view_in pass.old).duty).wakes }
        ensures pass { IsStill pass.old pass.new }
        ensures paid { (n : ℕ) × (n ≤ 1) × Becomes pass.old pass.new
            (with_duty Q.want has_woken (gives_tokens Q.want n (view_in pass.old))) }
    {
        for _ in rt.forever() {
            match self.wake::<Q>(pass) {
                Wake::Nobody => return,
                Wake::One => {
                    self.wake_thread::<Q>();
                    return;
                }
                Wake::Again => {}
            }
        }
        unreachable!()
    }

    /// Gives a token to each that waits, and wakes a thread for each, for a pass that owes tokens to all.
    pub fn pay_all<Q: AnyList, R: Wait>(&self, rt: &R, pass: &mut Pass<T>)
        requires ring { pass.old.seat.table_id ≡ self.now.table.shared.table_id }
        requires owes { 0 < (part Q.want (view_in pass.old).duty).closing }
        ensures pass { IsStill pass.old pass.new }
        ensures paid { (n : ℕ) × Becomes pass.old pass.new
            (with_duty Q.want has_closed (gives_tokens Q.want n (view_in pass.old))) }
    {
        for _ in rt.forever() {
            match self.wake_all::<Q>(pass) {
                Wake::Nobody => return,
                Wake::One => self.wake_thread::<Q>(),
                Wake::Again => {}
            }
        }
        unreachable!()
    }

    /// Enters the list. The pass owes a look then.
    pub(crate) fn enter_list<Q: AnyList, R: Wait>(&self, rt: &R, pass: &mut Pass<T>)
        requires ring { pass.old.seat.table_id ≡ self.now.table.shared.table_id }
        requires member { (view_in pass.old).role ≡ Member }
        ensures pass { IsStill pass.old pass.new }
        ensures entered { Becomes pass.old pass.new (with_duty Q.want enters (view_in pass.old)) }
    {
        for _ in rt.forever() {
            if self.enter::<Q>(pass) {
                return;
            }
        }
        unreachable!()
    }

    /// Leaves the list. If the pass was given a token, it wakes another in its place.
    #[tactic(auto, using(crate::proofs::ListMoves::on_leaves, crate::proofs::ListMoves::owes_after))]
    pub(crate) fn leave_list<Q: AnyList, R: Wait>(&self, rt: &R, pass: &mut Pass<T>)
        requires ring { pass.old.seat.table_id ≡ self.now.table.shared.table_id }
        requires leaving { 0 < (part Q.want (view_in pass.old).duty).leaving }
        ensures pass { IsStill pass.old pass.new }
        ensures left { BecomesUncounted pass.old pass.new
            (with_duty Q.want leaves (view_in pass.old)) }
    {
        for _ in rt.forever() {
            match self.leave::<Q>(pass) {
                Leave::Left => return,
                Leave::Owes => {
                    self.pay::<Q, R>(rt, pass);
                    return;
                }
                Leave::Again => {}
            }
        }
        unreachable!()
    }

    /// Sleeps until it has a token. It owes a look then.
    pub(crate) fn sleep<Q: AnyList, R: Wait>(&self, rt: &R, pass: &mut Pass<T>)
        requires ring { pass.old.seat.table_id ≡ self.now.table.shared.table_id }
        requires asleep { 0 < (part Q.want (view_in pass.old).duty).asleep }
        ensures pass { IsStill pass.old pass.new }
        ensures woken { Becomes pass.old pass.new
            (with_duty Q.want wakes_up (takes_token Q.want (view_in pass.old))) }
    {
        for _ in rt.forever() {
            match self.accept::<Q>(pass) {
                Rest::Woken => return,
                Rest::Sleep => self.park::<Q, R>(rt, pass),
                Rest::Again => {}
            }
        }
        unreachable!()
    }

    /// The same until a deadline. If that came first, the answer is false, and the pass is about to leave.
    pub(crate) fn sleep_by<Q: AnyList, R: Wait + Clock>(
        &self,
        rt: &R,
        pass: &mut Pass<T>,
        deadline: Instant,
    ) -> bool
        requires ring { pass.old.seat.table_id ≡ self.now.table.shared.table_id }
        requires asleep { 0 < (part Q.want (view_in pass.old).duty).asleep }
        ensures pass { IsStill pass.old pass.new }
        ensures woken { result ≡ true
            → Becomes pass.old pass.new
            (with_duty Q.want wakes_up (takes_token Q.want (view_in pass.old))) }
        ensures late { result ≡ false
            → Becomes pass.old pass.new (with_duty Q.want gives_up (view_in pass.old)) }
    {
        for _ in rt.forever() {
            match self.accept::<Q>(pass) {
                Rest::Woken => return true,
                Rest::Sleep => {
                    let most = left_until(rt, deadline);
                    if most.is_zero() {
                        self.give_up::<Q>(pass);
                        return false;
                    }
                    self.park_for::<Q, R>(rt, pass, most);
                }
                Rest::Again => {}
            }
        }
        unreachable!()
    }
}

/// How long it is until the deadline. Zero if it has come, or if there is no clock.
fn left_until<R: Clock>(rt: &R, deadline: Instant) -> Duration {
    match Instant::now(rt) {
        Ok(now) => deadline.saturating_duration_since(now),
        Err(_) => Duration::ZERO,
    }
}
