//! The calls of senders that wait: a send that sleeps until there is room.
ghost use Rattle.std.specs.Prelude.{IfErr, IfOk, None, [], true, ℕ, ◌%◌, ◌<◌, ◌∷◌, ◌≡◌, ◌≤◌, ◌⊎◌, ⊤};
ghost use Rattle.mb_ring.specs.{Becomes, BecomesUncounted, IsCalm, IsFree, IsShutOut, IsStill, KnowsCut, MaySend, Member, Nothing, OfNotSent};
ghost use Rattle.mb_ring.specs.{OfPlace, Room, SawFull, Values, Writes, blinded, calm, did_cut, done, done_with_all, drew, ended, falls_asleep};
ghost use Rattle.mb_ring.specs.{found_full, gives_tokens, has_closed, has_woken, held_by, leaves, looked, marked_to, owes_wake, sees_cut, sent_at, spot};
ghost use Rattle.mb_ring.specs.{uncounted, value_of, view_in, with_duty};

use crate::answers::Draw;
use crate::lists::{ForRoom, ForValues};
use crate::ring::{Pass, Ring};
use mb_segment::Cut;
use std::alloc::Allocator;
use std::sync::Wait;
use std::thread::yield_now;
use std::time::{Clock, Instant};

/// A value that could not be sent.
#[derive(Debug, Drop)]
pub enum NotSent<T> {
    /// As many values waited as the ring has slots. [`Ring::draw`] says what is proved of this.
    Full(T),
    /// The ring was cut.
    Closed(T),
    /// 2^62 positions were drawn. No more will be.
    Worn(T),
}

/// What came of draws that wait for no sleep.
#[derive(Drop)]
enum Place {
    At(u64),
    Full,
    Closed,
    Worn,
}

impl<T: Drop, A: Allocator + Drop> Ring<T, A> {
    /// Draws a position for this value, or finds that none is to be had. Yields while the next slot is claimed and not
    /// read.
    fn find_place<R: Wait>(&self, rt: &R, pass: &mut Pass<T>, value: &T) -> Place
        requires ring { pass.old.seat.table_id ≡ self.now.table.shared.table_id }
        requires member { (view_in pass.old).role ≡ Member }
        requires idle { ((view_in pass.old).half ≡ Nothing) × (held_by pass.old ≡ []) }
        ensures pass { IsStill pass.old pass.new }
        ensures mark { marked_to (view_in pass.old) ≤ marked_to (view_in pass.new) }
        ensures found { found_full (view_in pass.old) ≤ found_full (view_in pass.new) }
        ensures open { OfPlace result (λ _. ⊤) (MaySend (view_in pass.old)) ⊤
            (MaySend (view_in pass.old)) }
        ensures answer { OfPlace result
            (λ at. (at < 4611686018427387904)
            × (held_by pass.new ≡ (at % self.now.size, None) ∷ [])
            × (blinded (view_in pass.new) ≡ with_duty Room looked
            (with_duty Values owes_wake (drew at value.now (blinded (view_in pass.old)))))
            × MaySend (view_in pass.old))
            ((blinded (view_in pass.new) ≡ with_duty Room looked (blinded (view_in pass.old)))
            × (held_by pass.new ≡ [])
            × SawFull self.now.size (view_in pass.old) (view_in pass.new))
            ((blinded (view_in pass.new) ≡ with_duty Room looked (blinded (view_in pass.old)))
            × (held_by pass.new ≡ []) × ((view_in pass.new).sight.cut ≡ true))
            ((blinded (view_in pass.new) ≡ blinded (view_in pass.old))
            × (held_by pass.new ≡ []) × (4611686018427387904 ≤ (view_in pass.new).sight.top)) }
    {
        for _ in rt.forever() {
            match self.draw(pass, value) {
                Draw::At(at) => return Place::At(at),
                Draw::Full => return Place::Full,
                Draw::Closed => return Place::Closed,
                Draw::Worn => return Place::Worn,
                Draw::Yield => yield_now(),
                Draw::Again => {}
            }
        }
        unreachable!()
    }

    /// The same for one in the list. If the ring is full, it sleeps from then on. If 2^62 positions are drawn, it still
    /// owes its look. Else it is about to leave, and if the ring is cut, it owes a token to each that waits for room.
    fn find_place_listed<R: Wait>(&self, rt: &R, pass: &mut Pass<T>, value: &T) -> Place
        requires ring { pass.old.seat.table_id ≡ self.now.table.shared.table_id }
        requires member { (view_in pass.old).role ≡ Member }
        requires fresh { 0 < (view_in pass.old).duty.room.fresh }
        requires idle { ((view_in pass.old).half ≡ Nothing) × (held_by pass.old ≡ []) }
        ensures pass { IsStill pass.old pass.new }
        ensures mark { marked_to (view_in pass.old) ≤ marked_to (view_in pass.new) }
        ensures found { found_full (view_in pass.old) ≤ found_full (view_in pass.new) }
        ensures answer { OfPlace result
            (λ at. (at < 4611686018427387904)
            × (held_by pass.new ≡ (at % self.now.size, None) ∷ [])
            × (blinded (view_in pass.new) ≡ with_duty Room done
            (with_duty Values owes_wake (drew at value.now (blinded (view_in pass.old)))))
            × MaySend (view_in pass.old))
            ((blinded (view_in pass.new) ≡ with_duty Room falls_asleep (blinded (view_in pass.old)))
            × (held_by pass.new ≡ [])
            × SawFull self.now.size (view_in pass.old) (view_in pass.new))
            ((blinded (view_in pass.new)
            ≡ with_duty Room done_with_all (blinded (view_in pass.old)))
            × (held_by pass.new ≡ []) × ((view_in pass.new).sight.cut ≡ true))
            ((blinded (view_in pass.new) ≡ blinded (view_in pass.old))
            × (held_by pass.new ≡ []) × (4611686018427387904 ≤ (view_in pass.new).sight.top)) }
    {
        for _ in rt.forever() {
            match self.draw_listed(pass, value) {
                Draw::At(at) => return Place::At(at),
                Draw::Full => return Place::Full,
                Draw::Closed => return Place::Closed,
                Draw::Worn => return Place::Worn,
                Draw::Yield => yield_now(),
                Draw::Again => {}
            }
        }
        unreachable!()
    }

    /// Marks the position drawn, and wakes a receiver for it.
    fn give<R: Wait>(&self, rt: &R, pass: &mut Pass<T>, at: u64, value: T)
        requires ring { pass.old.seat.table_id ≡ self.now.table.shared.table_id }
        requires member { (view_in pass.old).role ≡ Member }
        requires drawn { (view_in pass.old).half ≡ Writes (spot at value) }
        requires most { at ≤ 4611686018427387904 }
        requires held { held_by pass.old ≡ (at % self.now.size, None) ∷ [] }
        requires owes { 0 < (view_in pass.old).duty.values.wakes }
        ensures pass { IsStill pass.old pass.new }
        ensures given { uncounted (view_in pass.new)
            ≡ uncounted (with_duty Values has_woken (ended (view_in pass.old))) }
        ensures held { held_by pass.new ≡ [] }
    {
        self.mark(pass, at, value);
        self.pay::<ForValues, R>(rt, pass);
    }

    /// Sends a value, and wakes a receiver for it. The error gives the value back. It does not sleep, but yields while the
    /// next slot is claimed and not read. A pass that was told that the ring is cut or over sends no more.
    #[tactic(auto, using(crate::proofs::SendMoves::knows_nothing))]
    pub fn try_send<R: Wait>(&self, rt: &R, pass: &mut Pass<T>, value: T) -> Result<(), NotSent<T>>
        requires ring { pass.old.seat.table_id ≡ self.now.table.shared.table_id }
        requires free { IsFree pass.old }
        ensures pass { IsStill pass.old pass.new }
        ensures sent { IfOk result (λ _. (at : ℕ)
            × (blinded (view_in pass.new) ≡ sent_at at value (calm (view_in pass.old)))
            × MaySend (view_in pass.old)) }
        ensures refused { IfErr result (λ e. (value_of e ≡ value)
            × (blinded (view_in pass.new) ≡ calm (view_in pass.old))
            × OfNotSent e (SawFull self.now.size (view_in pass.old) (view_in pass.new))
            ((view_in pass.new).sight.cut ≡ true)
            (4611686018427387904 ≤ (view_in pass.new).sight.top)) }
        ensures told { KnowsCut (view_in pass.old) → IsShutOut result }
        ensures mark { marked_to (view_in pass.old) ≤ marked_to (view_in pass.new) }
        ensures found { found_full (view_in pass.old) ≤ found_full (view_in pass.new) }
        ensures free { IsFree pass.new }
    {
        match self.find_place(rt, pass, &value) {
            Place::At(at) => {
                self.give(rt, pass, at, value);
                Ok(())
            }
            Place::Full => Err(NotSent::Full(value)),
            Place::Closed => Err(NotSent::Closed(value)),
            Place::Worn => Err(NotSent::Worn(value)),
        }
    }

    /// Leaves the list of a ring that is cut, and wakes all that wait for room.
    fn leave_cut<R: Wait>(&self, rt: &R, pass: &mut Pass<T>)
        requires ring { pass.old.seat.table_id ≡ self.now.table.shared.table_id }
        requires leaving { 0 < (view_in pass.old).duty.room.leaving }
        requires owes { 0 < (view_in pass.old).duty.room.closing }
        ensures pass { IsStill pass.old pass.new }
        ensures left { BecomesUncounted pass.old pass.new
            (with_duty Room leaves (with_duty Room has_closed (view_in pass.old))) }
    {
        self.pay_all::<ForRoom, R>(rt, pass);
        self.leave_list::<ForRoom, R>(rt, pass);
    }

    /// Leaves the list without the look that is owed, and wakes another in its place.
    fn leave_worn<R: Wait>(&self, rt: &R, pass: &mut Pass<T>)
        requires ring { pass.old.seat.table_id ≡ self.now.table.shared.table_id }
        requires fresh { 0 < (view_in pass.old).duty.room.fresh }
        ensures pass { IsStill pass.old pass.new }
        ensures left { BecomesUncounted pass.old pass.new
            (with_duty Room leaves (with_duty Room done (view_in pass.old))) }
    {
        self.go_unseen::<ForRoom>(pass);
        self.leave_list::<ForRoom, R>(rt, pass);
        self.pay::<ForRoom, R>(rt, pass);
    }

    /// Owes a look, and wakes another in its place.
    fn pass_on<R: Wait>(&self, rt: &R, pass: &mut Pass<T>)
        requires ring { pass.old.seat.table_id ≡ self.now.table.shared.table_id }
        requires owes { 0 < (view_in pass.old).duty.room.looks }
        ensures pass { IsStill pass.old pass.new }
        ensures paid { BecomesUncounted pass.old pass.new
            (with_duty Room looked (view_in pass.old)) }
    {
        self.hand_on::<ForRoom>(pass);
        self.pay::<ForRoom, R>(rt, pass);
    }

    /// Sends a value, and sleeps until there is room for it. It is never told that the ring is full.
    #[tactic(auto, using(crate::proofs::SendMoves::knows_nothing))]
    pub fn send<R: Wait>(&self, rt: &R, pass: &mut Pass<T>, value: T) -> Result<(), NotSent<T>>
        requires ring { pass.old.seat.table_id ≡ self.now.table.shared.table_id }
        requires free { IsFree pass.old }
        ensures pass { IsStill pass.old pass.new }
        ensures sent { IfOk result (λ _. (at : ℕ)
            × (blinded (view_in pass.new) ≡ sent_at at value (calm (view_in pass.old)))
            × MaySend (view_in pass.old)) }
        ensures refused { IfErr result (λ e. (value_of e ≡ value)
            × (blinded (view_in pass.new) ≡ calm (view_in pass.old))
            × OfNotSent e ⊥
            ((view_in pass.new).sight.cut ≡ true)
            (4611686018427387904 ≤ (view_in pass.new).sight.top)) }
        ensures told { KnowsCut (view_in pass.old) → IsShutOut result }
        ensures mark { marked_to (view_in pass.old) ≤ marked_to (view_in pass.new) }
        ensures found { found_full (view_in pass.old) ≤ found_full (view_in pass.new) }
        ensures free { IsFree pass.new }
    {
        // Room that is there is taken without the list.
        match self.find_place(rt, pass, &value) {
            Place::At(at) => return Ok(self.give(rt, pass, at, value)),
            Place::Full => {}
            Place::Closed => return Err(NotSent::Closed(value)),
            Place::Worn => return Err(NotSent::Worn(value)),
        }
        for _ in rt.forever() {
            self.enter_list::<ForRoom, R>(rt, pass);
            match self.find_place_listed(rt, pass, &value) {
                Place::At(at) => {
                    self.give(rt, pass, at, value);
                    self.leave_list::<ForRoom, R>(rt, pass);
                    return Ok(());
                }
                Place::Full => {}
                Place::Closed => {
                    self.leave_cut(rt, pass);
                    return Err(NotSent::Closed(value));
                }
                Place::Worn => {
                    self.leave_worn(rt, pass);
                    return Err(NotSent::Worn(value));
                }
            }
            self.sleep::<ForRoom, R>(rt, pass);
            match self.find_place(rt, pass, &value) {
                Place::At(at) => return Ok(self.give(rt, pass, at, value)),
                Place::Full => {}
                Place::Closed => return Err(NotSent::Closed(value)),
                Place::Worn => {
                    self.pass_on(rt, pass);
                    return Err(NotSent::Worn(value));
                }
            }
        }
        unreachable!()
    }

    /// Sends a value as [`Ring::send`] until a deadline. The error is "full" if that comes first, or if there is no clock:
    /// in this call, the ring was seen full. While the next slot is claimed and not read, it goes on past the deadline.
    #[tactic(auto, using(crate::proofs::SendMoves::knows_nothing))]
    pub fn send_by<R: Wait + Clock>(
        &self,
        rt: &R,
        pass: &mut Pass<T>,
        value: T,
        deadline: Instant,
    ) -> Result<(), NotSent<T>>
        requires ring { pass.old.seat.table_id ≡ self.now.table.shared.table_id }
        requires free { IsFree pass.old }
        ensures pass { IsStill pass.old pass.new }
        ensures sent { IfOk result (λ _. (at : ℕ)
            × (blinded (view_in pass.new) ≡ sent_at at value (calm (view_in pass.old)))
            × MaySend (view_in pass.old)) }
        ensures refused { IfErr result (λ e. (value_of e ≡ value)
            × (blinded (view_in pass.new) ≡ calm (view_in pass.old))
            × OfNotSent e (SawFull self.now.size (view_in pass.old) (view_in pass.new))
            ((view_in pass.new).sight.cut ≡ true)
            (4611686018427387904 ≤ (view_in pass.new).sight.top)) }
        ensures told { KnowsCut (view_in pass.old) → IsShutOut result }
        ensures mark { marked_to (view_in pass.old) ≤ marked_to (view_in pass.new) }
        ensures found { found_full (view_in pass.old) ≤ found_full (view_in pass.new) }
        ensures free { IsFree pass.new }
    {
        // Room that is there is taken without the list.
        match self.find_place(rt, pass, &value) {
            Place::At(at) => return Ok(self.give(rt, pass, at, value)),
            Place::Full => {}
            Place::Closed => return Err(NotSent::Closed(value)),
            Place::Worn => return Err(NotSent::Worn(value)),
        }
        for _ in rt.forever() {
            self.enter_list::<ForRoom, R>(rt, pass);
            match self.find_place_listed(rt, pass, &value) {
                Place::At(at) => {
                    self.give(rt, pass, at, value);
                    self.leave_list::<ForRoom, R>(rt, pass);
                    return Ok(());
                }
                Place::Full => {}
                Place::Closed => {
                    self.leave_cut(rt, pass);
                    return Err(NotSent::Closed(value));
                }
                Place::Worn => {
                    self.leave_worn(rt, pass);
                    return Err(NotSent::Worn(value));
                }
            }
            if !self.sleep_by::<ForRoom, R>(rt, pass, deadline) {
                self.leave_list::<ForRoom, R>(rt, pass);
                return Err(NotSent::Full(value));
            }
            match self.find_place(rt, pass, &value) {
                Place::At(at) => return Ok(self.give(rt, pass, at, value)),
                Place::Full => {}
                Place::Closed => return Err(NotSent::Closed(value)),
                Place::Worn => {
                    self.pass_on(rt, pass);
                    return Err(NotSent::Worn(value));
                }
            }
        }
        unreachable!()
    }

    /// Cuts the ring, and wakes all that wait, for values and for room. No more positions will be drawn.
    pub fn close<R: Wait>(&self, rt: &R, pass: &mut Pass<T>)
        requires ring { pass.old.seat.table_id ≡ self.now.table.shared.table_id }
        requires free { IsFree pass.old }
        ensures pass { IsStill pass.old pass.new }
        ensures cut { Becomes pass.old pass.new (sees_cut (view_in pass.old))
            ⊎ ((m : ℕ) × (n : ℕ) × Becomes pass.old pass.new
            (gives_tokens Room n (gives_tokens Values m (did_cut (view_in pass.old))))) }
    {
        for _ in rt.forever() {
            match self.cut(pass) {
                Cut::Done => {
                    self.pay_all::<ForValues, R>(rt, pass);
                    self.pay_all::<ForRoom, R>(rt, pass);
                    return;
                }
                Cut::Was => return,
                Cut::Again => {}
            }
        }
        unreachable!()
    }
}
