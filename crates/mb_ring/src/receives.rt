//! The calls of receivers that wait: a receive that sleeps until a value comes.
ghost use Rattle.std.specs.Prelude.{IfNone, IfSome, Some, [], false, true, ℕ, ◌%◌, ◌<◌, ◌∷◌, ◌≡◌, ◌≤◌};
ghost use Rattle.mb_ring.specs.{IsCalm, IsFree, IsStill, MayTake, Member, Nothing, OfFound, OfReceived, Reads, Room, SawEmpty, Values};
ghost use Rattle.mb_ring.specs.{blinded, calm, done, ended, falls_asleep, found_empty, got_at, has_woken, held_by, looked, marked_to};
ghost use Rattle.mb_ring.specs.{spot, told, uncounted, view_in, with_duty};

use crate::lists::{ForRoom, ForValues};
use crate::ring::{Pass, Ring};
use mb_segment::{Look, Received};
use std::alloc::Allocator;
use std::sync::Wait;
use std::thread::yield_now;
use std::time::{Clock, Instant};

/// What a receive that does not sleep came to.
#[derive(Debug, Drop)]
pub enum Found<T> {
    Value(T),
    /// At a moment of this call no value waited ([`crate::laws::looks_are_true`]).
    Empty,
    /// The ring is cut, and each position drawn is claimed.
    Over,
}

impl<T: Drop, A: Allocator + Drop> Ring<T, A> {
    /// Takes the value of the position claimed, and wakes a sender for its room.
    fn take<R: Wait>(&self, rt: &R, pass: &mut Pass<T>, at: u64) -> T
        requires ring { pass.old.seat.table_id ≡ self.now.table.shared.table_id }
        requires member { (view_in pass.old).role ≡ Member }
        requires claimed { (x : T) × ((view_in pass.old).half ≡ Reads (spot at x))
            × (held_by pass.old ≡ (at % self.now.size, Some x) ∷ []) }
        requires most { at ≤ 4611686018427387904 }
        requires owes { 0 < (view_in pass.old).duty.room.wakes }
        ensures pass { IsStill pass.old pass.new }
        ensures value { (view_in pass.old).half ≡ Reads (spot at result) }
        ensures taken { uncounted (view_in pass.new)
            ≡ uncounted (with_duty Room has_woken (ended (view_in pass.old))) }
        ensures held { held_by pass.new ≡ [] }
    {
        let value = self.read(pass, at);
        self.pay::<ForRoom, R>(rt, pass);
        value
    }

    /// Takes the first value, and wakes a sender for its room, or finds that no value is there. Yields while the next
    /// position is drawn and not marked.
    fn find<R: Wait>(&self, rt: &R, pass: &mut Pass<T>) -> Found<T>
        requires ring { pass.old.seat.table_id ≡ self.now.table.shared.table_id }
        requires member { (view_in pass.old).role ≡ Member }
        requires idle { ((view_in pass.old).half ≡ Nothing) × (held_by pass.old ≡ []) }
        ensures pass { IsStill pass.old pass.new }
        ensures held { held_by pass.new ≡ [] }
        ensures mark { marked_to (view_in pass.old) ≤ marked_to (view_in pass.new) }
        ensures found { found_empty (view_in pass.old) ≤ found_empty (view_in pass.new) }
        ensures answer { OfFound result
            (λ x. (at : ℕ)
            × (blinded (view_in pass.new)
            ≡ got_at at x (with_duty Values looked (blinded (view_in pass.old))))
            × MayTake (view_in pass.old))
            ((blinded (view_in pass.new) ≡ with_duty Values looked (blinded (view_in pass.old)))
            × SawEmpty (view_in pass.old) (view_in pass.new))
            (blinded (view_in pass.new)
            ≡ told (with_duty Values looked (blinded (view_in pass.old)))) }
    {
        for _ in rt.forever() {
            match self.look(pass) {
                Look::Ready(at) => {
                    if self.claim(pass, at) {
                        return Found::Value(self.take(rt, pass, at));
                    }
                }
                Look::Yield => yield_now(),
                Look::Empty => return Found::Empty,
                Look::Over => return Found::Over,
            }
        }
        unreachable!()
    }

    /// The same for one in the list. It sleeps from then on if nothing is there yet, and else is about to leave.
    fn find_listed<R: Wait>(&self, rt: &R, pass: &mut Pass<T>) -> Found<T>
        requires ring { pass.old.seat.table_id ≡ self.now.table.shared.table_id }
        requires member { (view_in pass.old).role ≡ Member }
        requires fresh { 0 < (view_in pass.old).duty.values.fresh }
        requires idle { ((view_in pass.old).half ≡ Nothing) × (held_by pass.old ≡ []) }
        ensures pass { IsStill pass.old pass.new }
        ensures held { held_by pass.new ≡ [] }
        ensures mark { marked_to (view_in pass.old) ≤ marked_to (view_in pass.new) }
        ensures found { found_empty (view_in pass.old) ≤ found_empty (view_in pass.new) }
        ensures answer { OfFound result
            (λ x. (at : ℕ)
            × (blinded (view_in pass.new)
            ≡ got_at at x (with_duty Values done (blinded (view_in pass.old))))
            × MayTake (view_in pass.old))
            ((blinded (view_in pass.new)
            ≡ with_duty Values falls_asleep (blinded (view_in pass.old)))
            × SawEmpty (view_in pass.old) (view_in pass.new))
            (blinded (view_in pass.new)
            ≡ told (with_duty Values done (blinded (view_in pass.old)))) }
    {
        for _ in rt.forever() {
            match self.look_listed(pass) {
                Look::Ready(at) => {
                    if self.claim_listed(pass, at) {
                        return Found::Value(self.take(rt, pass, at));
                    }
                }
                Look::Yield => yield_now(),
                Look::Empty => return Found::Empty,
                Look::Over => return Found::Over,
            }
        }
        unreachable!()
    }

    /// Receives the first value, if one waits. It does not sleep, but yields while the next position is drawn and not
    /// marked.
    pub fn try_receive<R: Wait>(&self, rt: &R, pass: &mut Pass<T>) -> Found<T>
        requires ring { pass.old.seat.table_id ≡ self.now.table.shared.table_id }
        requires free { IsFree pass.old }
        ensures pass { IsStill pass.old pass.new }
        ensures answer { OfFound result
            (λ x. (at : ℕ) × (blinded (view_in pass.new) ≡ got_at at x (calm (view_in pass.old)))
            × MayTake (view_in pass.old))
            ((blinded (view_in pass.new) ≡ calm (view_in pass.old))
            × SawEmpty (view_in pass.old) (view_in pass.new))
            (blinded (view_in pass.new) ≡ told (calm (view_in pass.old))) }
        ensures mark { marked_to (view_in pass.old) ≤ marked_to (view_in pass.new) }
        ensures found { found_empty (view_in pass.old) ≤ found_empty (view_in pass.new) }
        ensures free { IsFree pass.new }
    {
        self.find(rt, pass)
    }

    /// Receives the first value, and sleeps until there is one. `None` only if none can come any more, and no
    /// later call gives a value then.
    pub fn receive<R: Wait>(&self, rt: &R, pass: &mut Pass<T>) -> Option<T>
        requires ring { pass.old.seat.table_id ≡ self.now.table.shared.table_id }
        requires free { IsFree pass.old }
        ensures pass { IsStill pass.old pass.new }
        ensures received { IfSome result (λ x. (at : ℕ)
            × (blinded (view_in pass.new) ≡ got_at at x (calm (view_in pass.old)))
            × MayTake (view_in pass.old)) }
        ensures over { IfNone result
            (blinded (view_in pass.new) ≡ told (calm (view_in pass.old))) }
        ensures mark { marked_to (view_in pass.old) ≤ marked_to (view_in pass.new) }
        ensures found { found_empty (view_in pass.old) ≤ found_empty (view_in pass.new) }
        ensures free { IsFree pass.new }
    {
        for _ in rt.forever() {
            match self.find(rt, pass) {
                Found::Value(value) => return Some(value),
                Found::Over => return None,
                Found::Empty => {}
            }
            self.enter_list::<ForValues, R>(rt, pass);
            match self.find_listed(rt, pass) {
                Found::Value(value) => {
                    self.leave_list::<ForValues, R>(rt, pass);
                    return Some(value);
                }
                Found::Over => {
                    self.leave_list::<ForValues, R>(rt, pass);
                    return None;
                }
                Found::Empty => {}
            }
            self.sleep::<ForValues, R>(rt, pass);
            match self.find(rt, pass) {
                Found::Value(value) => return Some(value),
                Found::Over => return None,
                Found::Empty => {}
            }
        }
        unreachable!()
    }

    /// The same until a deadline. While the next position is drawn and not marked, it goes on past the deadline.
    pub fn receive_by<R: Wait + Clock>(
        &self,
        rt: &R,
        pass: &mut Pass<T>,
        deadline: Instant,
    ) -> Received<T>
        requires ring { pass.old.seat.table_id ≡ self.now.table.shared.table_id }
        requires free { IsFree pass.old }
        ensures pass { IsStill pass.old pass.new }
        ensures answer { OfReceived result
            (λ x. (at : ℕ) × (blinded (view_in pass.new) ≡ got_at at x (calm (view_in pass.old)))
            × MayTake (view_in pass.old))
            (blinded (view_in pass.new) ≡ told (calm (view_in pass.old)))
            ((blinded (view_in pass.new) ≡ calm (view_in pass.old))
            × SawEmpty (view_in pass.old) (view_in pass.new)) }
        ensures mark { marked_to (view_in pass.old) ≤ marked_to (view_in pass.new) }
        ensures found { found_empty (view_in pass.old) ≤ found_empty (view_in pass.new) }
        ensures free { IsFree pass.new }
    {
        for _ in rt.forever() {
            // A value that is there is taken without the list.
            match self.find(rt, pass) {
                Found::Value(value) => return Received::Value(value),
                Found::Over => return Received::Over,
                Found::Empty => {}
            }
            self.enter_list::<ForValues, R>(rt, pass);
            match self.find_listed(rt, pass) {
                Found::Value(value) => {
                    self.leave_list::<ForValues, R>(rt, pass);
                    return Received::Value(value);
                }
                Found::Over => {
                    self.leave_list::<ForValues, R>(rt, pass);
                    return Received::Over;
                }
                Found::Empty => {}
            }
            if !self.sleep_by::<ForValues, R>(rt, pass, deadline) {
                self.leave_list::<ForValues, R>(rt, pass);
                return Received::TimedOut;
            }
            match self.find(rt, pass) {
                Found::Value(value) => return Received::Value(value),
                Found::Over => return Received::Over,
                Found::Empty => {}
            }
        }
        unreachable!()
    }
}
