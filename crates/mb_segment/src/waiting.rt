//! The calls that wait: one send, and one receive that sleeps until a value comes.
ghost use Rattle.std.specs.Prelude.{IfErr, IfNone, IfOk, IfSome, [], false, true, ℕ, ◌+◌, ◌++◌, ◌<◌, ◌∷◌, ◌≡◌, ◌≤◌, ◌⊎◌};
ghost use Rattle.mb_segment.specs.{Becomes, IsCalm, IsFree, IsStill, MaySend, MayTake, Member, Nothing, OfFound, OfNotSent, OfReceived};
ghost use Rattle.mb_segment.specs.{SawAllTaken, bare, calm, did_cut, done, ended, enters, falls_asleep, found_empty, gives_tokens, gives_up, got_at, has_closed, has_woken, held_by};
ghost use Rattle.mb_segment.specs.{leaves, looked, marked_to, sees_cut, sent_at, takes_token, told, took, value_of, view_in, wakes_up, with_duty};

use crate::answers::{Cut, Draw, Leave, Look, Rest, Wake};
use crate::pauses::stand_back;
use crate::segment::{Pass, Segment};
use std::alloc::Allocator;
use std::sync::Wait;
use std::thread::yield_now;
use std::time::{Clock, Instant};

/// A value that could not be sent, since no more positions will be drawn.
#[derive(Debug, Drop)]
pub enum NotSent<T> {
    /// All positions of the segment are drawn.
    Full(T),
    /// The segment was cut.
    Closed(T),
}

/// What a receive came to.
#[derive(Debug, Drop)]
pub enum Received<T> {
    Value(T),
    /// The segment is done: each position drawn is claimed, and no more will be drawn.
    Over,
    /// The deadline came first, or there is no clock. At a moment of this call nothing waited (`laws::empty_is_true`).
    TimedOut,
}

/// What was found by looks that wait for no sleep.
#[derive(Drop)]
pub(crate) enum Found<T> {
    Value(T),
    Empty,
    Over,
}

impl<T: Drop, A: Allocator + Drop> Segment<T, A> {
    /// Pays one wake that is owed. It gives one token at most, and wakes a thread for that.
    pub fn pay<R: Wait>(&self, rt: &R, pass: &mut Pass<T>)
        requires segment { pass.old.seat.table_id ≡ self.now.table.shared.table_id }
        requires owes { 0 < (view_in pass.old).duty.wakes }
        ensures pass { IsStill pass.old pass.new }
        ensures paid { (n : ℕ) × (n ≤ 1) × Becomes pass.old pass.new
            (with_duty has_woken (gives_tokens n (view_in pass.old))) }
    {
        for _ in rt.forever() {
            match self.wake(pass) {
                Wake::Nobody => return,
                Wake::One => {
                    self.wake_thread();
                    return;
                }
                Wake::Again => {}
            }
        }
        unreachable!()
    }

    /// Gives a token to each that waits, and wakes a thread for each, for a pass that drew the last position or cut the
    /// segment.
    pub fn pay_all<R: Wait>(&self, rt: &R, pass: &mut Pass<T>)
        requires segment { pass.old.seat.table_id ≡ self.now.table.shared.table_id }
        requires owes { 0 < (view_in pass.old).duty.closing }
        ensures pass { IsStill pass.old pass.new }
        ensures paid { (n : ℕ) × Becomes pass.old pass.new
            (with_duty has_closed (gives_tokens n (view_in pass.old))) }
    {
        for _ in rt.forever() {
            match self.wake_all(pass) {
                Wake::Nobody => return,
                Wake::One => self.wake_thread(),
                Wake::Again => {}
            }
        }
        unreachable!()
    }

    /// Sends a value, and wakes a receiver for it. The error gives the value back. A pass that was told that the segment
    /// is full, cut or done sends no more.
    pub fn send<R: Wait>(
        &self,
        rt: &R,
        pass: &mut Pass<T>,
        value: T,
        name: u32,
    ) -> Result<(), NotSent<T>>
        requires segment { pass.old.seat.table_id ≡ self.now.table.shared.table_id }
        requires free { IsFree pass.old }
        requires name { (view_in pass.old).account.name ≡ name }
        ensures pass { IsStill pass.old pass.new }
        ensures sent { IfOk result (λ _. (at : ℕ)
            × (bare (view_in pass.new) ≡ sent_at at value (calm (view_in pass.old)))
            × MaySend at (view_in pass.old)) }
        ensures found { found_empty (view_in pass.old) ≤ found_empty (view_in pass.new) }
        ensures refused { IfErr result (λ e. (value_of e ≡ value)
            × (bare (view_in pass.new) ≡ calm (view_in pass.old))
            × OfNotSent e ((view_in pass.new).sight.full ≡ true)
            ((view_in pass.new).sight.cut ≡ true)) }
        ensures free { IsFree pass.new }
    {
        for _ in rt.forever() {
            match self.draw(pass, &value) {
                Draw::At(at) => {
                    self.mark(pass, at, value, name);
                    if at + 1 < self.size {
                        self.pay(rt, pass);
                    } else {
                        self.pay_all(rt, pass);
                    }
                    return Ok(());
                }
                Draw::Full => return Err(NotSent::Full(value)),
                Draw::Closed => return Err(NotSent::Closed(value)),
                Draw::Again => stand_back(),
            }
        }
        unreachable!()
    }

    /// Cuts the segment, and wakes all that wait. No more positions will be drawn.
    pub fn close<R: Wait>(&self, rt: &R, pass: &mut Pass<T>)
        requires segment { pass.old.seat.table_id ≡ self.now.table.shared.table_id }
        requires free { IsFree pass.old }
        ensures pass { IsStill pass.old pass.new }
        ensures cut { Becomes pass.old pass.new (sees_cut (view_in pass.old))
            ⊎ ((n : ℕ) × Becomes pass.old pass.new (gives_tokens n (did_cut (view_in pass.old)))) }
    {
        for _ in rt.forever() {
            match self.cut(pass) {
                Cut::Done => {
                    self.pay_all(rt, pass);
                    return;
                }
                Cut::Was => return,
                Cut::Again => {}
            }
        }
        unreachable!()
    }

    /// Takes the first value, or finds that none is there. Yields while the next position is drawn and not marked.
    pub(crate) fn find<R: Wait>(&self, rt: &R, pass: &mut Pass<T>, name: u32) -> Found<T>
        requires segment { pass.old.seat.table_id ≡ self.now.table.shared.table_id }
        requires name { (view_in pass.old).account.name ≡ name }
        requires member { (view_in pass.old).role ≡ Member }
        requires idle { ((view_in pass.old).half ≡ Nothing) × (held_by pass.old ≡ []) }
        ensures pass { IsStill pass.old pass.new }
        ensures held { held_by pass.new ≡ [] }
        ensures mark { marked_to (view_in pass.old) ≤ marked_to (view_in pass.new) }
        ensures found { found_empty (view_in pass.old) ≤ found_empty (view_in pass.new) }
        ensures answer { OfFound result
            (λ x. (at : ℕ)
            × (bare (view_in pass.new) ≡ got_at at x (with_duty looked (bare (view_in pass.old))))
            × MayTake at (view_in pass.old))
            ((bare (view_in pass.new) ≡ with_duty looked (bare (view_in pass.old)))
            × SawAllTaken (view_in pass.new)
            × (found_empty (view_in pass.old) < found_empty (view_in pass.new)))
            (bare (view_in pass.new) ≡ told (with_duty looked (bare (view_in pass.old)))) }
    {
        for _ in rt.forever() {
            match self.look(pass) {
                Look::Ready(at) => {
                    if self.claim(pass, at) {
                        return Found::Value(self.read(pass, at, name));
                    }
                    stand_back();
                }
                Look::Yield => yield_now(),
                Look::Empty => return Found::Empty,
                Look::Over => return Found::Over,
            }
        }
        unreachable!()
    }

    /// The same for one in the list. It sleeps from then on if nothing is there yet, and else is about to leave.
    fn find_listed<R: Wait>(&self, rt: &R, pass: &mut Pass<T>, name: u32) -> Found<T>
        requires segment { pass.old.seat.table_id ≡ self.now.table.shared.table_id }
        requires name { (view_in pass.old).account.name ≡ name }
        requires member { (view_in pass.old).role ≡ Member }
        requires fresh { 0 < (view_in pass.old).duty.fresh }
        requires idle { ((view_in pass.old).half ≡ Nothing) × (held_by pass.old ≡ []) }
        ensures pass { IsStill pass.old pass.new }
        ensures held { held_by pass.new ≡ [] }
        ensures mark { marked_to (view_in pass.old) ≤ marked_to (view_in pass.new) }
        ensures found { found_empty (view_in pass.old) ≤ found_empty (view_in pass.new) }
        ensures answer { OfFound result
            (λ x. (at : ℕ)
            × (bare (view_in pass.new) ≡ got_at at x (with_duty done (bare (view_in pass.old))))
            × MayTake at (view_in pass.old))
            ((bare (view_in pass.new) ≡ with_duty falls_asleep (bare (view_in pass.old)))
            × SawAllTaken (view_in pass.new)
            × (found_empty (view_in pass.old) < found_empty (view_in pass.new)))
            (bare (view_in pass.new) ≡ told (with_duty done (bare (view_in pass.old)))) }
    {
        for _ in rt.forever() {
            match self.look_listed(pass) {
                Look::Ready(at) => {
                    if self.claim_listed(pass, at) {
                        return Found::Value(self.read(pass, at, name));
                    }
                }
                Look::Yield => yield_now(),
                Look::Empty => return Found::Empty,
                Look::Over => return Found::Over,
            }
        }
        unreachable!()
    }

    fn enter_list<R: Wait>(&self, rt: &R, pass: &mut Pass<T>)
        requires segment { pass.old.seat.table_id ≡ self.now.table.shared.table_id }
        requires member { (view_in pass.old).role ≡ Member }
        ensures pass { IsStill pass.old pass.new }
        ensures entered { Becomes pass.old pass.new (with_duty enters (view_in pass.old)) }
    {
        for _ in rt.forever() {
            if self.enter(pass) {
                return;
            }
        }
        unreachable!()
    }

    /// Leaves the list. If the pass was given a token, it wakes another in its place.
    fn leave_list<R: Wait>(&self, rt: &R, pass: &mut Pass<T>)
        requires segment { pass.old.seat.table_id ≡ self.now.table.shared.table_id }
        requires leaving { 0 < (view_in pass.old).duty.leaving }
        ensures pass { IsStill pass.old pass.new }
        ensures left { bare (view_in pass.new) ≡ with_duty leaves (bare (view_in pass.old)) }
        ensures sight { (view_in pass.new).sight ≡ (view_in pass.old).sight }
        ensures held { held_by pass.new ≡ held_by pass.old }
    {
        for _ in rt.forever() {
            match self.leave(pass) {
                Leave::Left => return,
                Leave::Owes => {
                    self.pay(rt, pass);
                    return;
                }
                Leave::Again => {}
            }
        }
        unreachable!()
    }

    /// Sleeps until it has a token. It owes a look then.
    fn sleep<R: Wait>(&self, rt: &R, pass: &mut Pass<T>)
        requires segment { pass.old.seat.table_id ≡ self.now.table.shared.table_id }
        requires asleep { 0 < (view_in pass.old).duty.asleep }
        ensures pass { IsStill pass.old pass.new }
        ensures woken { Becomes pass.old pass.new
            (with_duty wakes_up (takes_token (view_in pass.old))) }
    {
        for _ in rt.forever() {
            match self.accept(pass) {
                Rest::Woken => return,
                Rest::Sleep => self.park(rt, pass),
                Rest::Again => {}
            }
        }
        unreachable!()
    }

    /// The same until a deadline. If that came first, the answer is false, and the pass is about to leave.
    fn sleep_by<R: Wait + Clock>(&self, rt: &R, pass: &mut Pass<T>, deadline: Instant) -> bool
        requires segment { pass.old.seat.table_id ≡ self.now.table.shared.table_id }
        requires asleep { 0 < (view_in pass.old).duty.asleep }
        ensures pass { IsStill pass.old pass.new }
        ensures woken { result ≡ true
            → Becomes pass.old pass.new
            (with_duty wakes_up (takes_token (view_in pass.old))) }
        ensures late { result ≡ false
            → Becomes pass.old pass.new (with_duty gives_up (view_in pass.old)) }
    {
        for _ in rt.forever() {
            match self.accept(pass) {
                Rest::Woken => return true,
                Rest::Sleep => {
                    if !self.park_by(rt, pass, deadline) {
                        self.give_up(pass);
                        return false;
                    }
                }
                Rest::Again => {}
            }
        }
        unreachable!()
    }

    /// Receives the first value, and sleeps until there is one. `None` only if none can come any more, and no
    /// later call gives a value then.
    pub fn receive<R: Wait>(&self, rt: &R, pass: &mut Pass<T>, name: u32) -> Option<T>
        requires segment { pass.old.seat.table_id ≡ self.now.table.shared.table_id }
        requires free { IsFree pass.old }
        requires name { (view_in pass.old).account.name ≡ name }
        ensures pass { IsStill pass.old pass.new }
        ensures received { IfSome result (λ x. (at : ℕ)
            × (bare (view_in pass.new) ≡ got_at at x (calm (view_in pass.old)))
            × MayTake at (view_in pass.old)) }
        ensures over { IfNone result
            (bare (view_in pass.new) ≡ told (calm (view_in pass.old))) }
        ensures found { found_empty (view_in pass.old) ≤ found_empty (view_in pass.new) }
        ensures free { IsFree pass.new }
    {
        for _ in rt.forever() {
            match self.find_soon(rt, pass, name) {
                Found::Value(value) => return Some(value),
                Found::Over => return None,
                Found::Empty => {}
            }
            self.enter_list(rt, pass);
            match self.find_listed(rt, pass, name) {
                Found::Value(value) => {
                    self.leave_list(rt, pass);
                    return Some(value);
                }
                Found::Over => {
                    self.leave_list(rt, pass);
                    return None;
                }
                Found::Empty => {}
            }
            self.sleep(rt, pass);
            match self.find(rt, pass, name) {
                Found::Value(value) => return Some(value),
                Found::Over => return None,
                Found::Empty => {}
            }
        }
        unreachable!()
    }

    /// The same until a deadline. While the next position is drawn and not marked, it goes on past the deadline.
    pub fn receive_by<R: Wait + Clock>(
        &self,
        rt: &R,
        pass: &mut Pass<T>,
        deadline: Instant,
        name: u32,
    ) -> Received<T>
        requires segment { pass.old.seat.table_id ≡ self.now.table.shared.table_id }
        requires free { IsFree pass.old }
        requires name { (view_in pass.old).account.name ≡ name }
        ensures pass { IsStill pass.old pass.new }
        ensures answer { OfReceived result
            (λ x. (at : ℕ) × (bare (view_in pass.new) ≡ got_at at x (calm (view_in pass.old)))
            × MayTake at (view_in pass.old))
            (bare (view_in pass.new) ≡ told (calm (view_in pass.old)))
            ((bare (view_in pass.new) ≡ calm (view_in pass.old)) × SawAllTaken (view_in pass.new)
            × (found_empty (view_in pass.old) < found_empty (view_in pass.new))) }
        ensures mark { marked_to (view_in pass.old) ≤ marked_to (view_in pass.new) }
        ensures found { found_empty (view_in pass.old) ≤ found_empty (view_in pass.new) }
        ensures free { IsFree pass.new }
    {
        for _ in rt.forever() {
            // A value that is there is taken without the list.
            match self.find_soon(rt, pass, name) {
                Found::Value(value) => return Received::Value(value),
                Found::Over => return Received::Over,
                Found::Empty => {}
            }
            self.enter_list(rt, pass);
            match self.find_listed(rt, pass, name) {
                Found::Value(value) => {
                    self.leave_list(rt, pass);
                    return Received::Value(value);
                }
                Found::Over => {
                    self.leave_list(rt, pass);
                    return Received::Over;
                }
                Found::Empty => {}
            }
            if !self.sleep_by(rt, pass, deadline) {
                self.leave_list(rt, pass);
                return Received::TimedOut;
            }
            match self.find(rt, pass, name) {
                Found::Value(value) => return Received::Value(value),
                Found::Over => return Received::Over,
                Found::Empty => {}
            }
        }
        unreachable!()
    }
}
