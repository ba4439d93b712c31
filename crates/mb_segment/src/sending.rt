//! The calls of senders that never wait.
ghost use Rattle.std.specs.Prelude.{None, [], ◌+◌, ◌<◌, ◌∷◌, ◌≡◌, ◌≢◌};
ghost use Rattle.mb_segment.specs.{Becomes, IsFree, IsStill, MaySend, Member, OfCut, OfDraw, OfWake, Writes, did_cut};
ghost use Rattle.mb_segment.specs.{drew, ended, gives_token, has_closed, has_woken, held_by, owes_all, owes_wake, sees_cut, sees_full, spot};
ghost use Rattle.mb_segment.specs.{view_in, with_duty};

use crate::answers::{Cut, Draw, Wake};
use crate::list::LISTED;
use crate::rule::Ends;
use crate::segment::{Pass, Segment};
use crate::words::{CUT, state_of};
use std::alloc::Allocator;
use std::marker::Brand;

impl<T: Drop, A: Allocator + Drop> Segment<T, A> {
    /// Draws the next position for this value, which counts as sent from then on. The pass has to mark the position,
    /// and then owes a wake, or for the last position a wake to all. Two accesses at most. If another pass was first, let
    /// it go on for some microseconds before the next try: two that try all the time cost each other more than that.
    pub fn draw(&self, pass: &mut Pass<T>, value: &T) -> Draw
        requires segment { pass.old.seat.table_id ≡ self.now.table.shared.table_id }
        requires free { IsFree pass.old }
        ensures pass { IsStill pass.old pass.new }
        ensures answer { OfDraw result
            (λ at. (at < self.now.size) × (held_by pass.new ≡ (at, None) ∷ [])
            × (at + 1 < self.now.size
            → view_in pass.new ≡ with_duty owes_wake (drew at value.now (view_in pass.old)))
            × (at + 1 ≡ self.now.size
            → view_in pass.new ≡ with_duty owes_all (drew at value.now (view_in pass.old)))
            × MaySend at (view_in pass.old))
            (Becomes pass.old pass.new (sees_full (view_in pass.old)))
            (Becomes pass.old pass.new (sees_cut (view_in pass.old)))
            (Becomes pass.old pass.new (view_in pass.old)) }
    {
        let seen = self.load_to_draw(pass);
        if seen >= CUT {
            return Draw::Closed;
        }
        if seen >= self.size {
            return Draw::Full;
        }
        if self.draw_from(pass, seen, value) == seen {
            Draw::At(seen)
        } else {
            Draw::Again
        }
    }

    /// Draws the position, if it is still the next one. One access.
    fn draw_from(&self, pass: &mut Pass<T>, at: u64, value: &T) -> u64
        requires segment { pass.old.seat.table_id ≡ self.now.table.shared.table_id }
        requires free { IsFree pass.old }
        requires room { at < self.now.size }
        ensures pass { IsStill pass.old pass.new }
        ensures drawn { result ≡ at → (held_by pass.new ≡ (at, None) ∷ [])
            × (at + 1 < self.now.size
            → view_in pass.new ≡ with_duty owes_wake (drew at value.now (view_in pass.old)))
            × (at + 1 ≡ self.now.size
            → view_in pass.new ≡ with_duty owes_all (drew at value.now (view_in pass.old)))
            × MaySend at (view_in pass.old) }
        ensures missed { result ≢ at → Becomes pass.old pass.new (view_in pass.old) }
    {
        if at + 1 < self.size {
            self.draw_next::<Brand>(pass, at, at + 1, value)
        } else {
            self.draw_last::<Brand>(pass, at, at + 1, value)
        }
    }

    /// Writes the value that the position was drawn for, and marks the position, with the name of the pass. One access.
    pub fn mark(&self, pass: &mut Pass<T>, at: u64, value: T, name: u32)
        requires segment { pass.old.seat.table_id ≡ self.now.table.shared.table_id }
        requires member { (view_in pass.old).role ≡ Member }
        requires drawn { (view_in pass.old).half ≡ Writes (spot at value) }
        requires within { at < self.now.size }
        requires held { held_by pass.old ≡ (at, None) ∷ [] }
        requires name { (view_in pass.old).account.name ≡ name }
        ensures pass { IsStill pass.old pass.new }
        ensures marked { view_in pass.new ≡ ended (view_in pass.old) }
        ensures held { held_by pass.new ≡ [] }
    {
        *pass.seat.slot_mut(&self.table.shared, at as usize) = Some(value);
        self.table
            .shared
            .store::<Ends>(&mut pass.seat, state_of(at), name as u64 + 1);
    }

    /// Pays one wake that is owed: gives a token to one that waits, or finds that nobody does. [`Wake::One`] is the answer
    /// exactly if it gave a token. Two accesses at most.
    pub fn wake(&self, pass: &mut Pass<T>) -> Wake
        requires segment { pass.old.seat.table_id ≡ self.now.table.shared.table_id }
        requires owes { 0 < (view_in pass.old).duty.wakes }
        ensures pass { IsStill pass.old pass.new }
        ensures answer { OfWake result
            (Becomes pass.old pass.new (with_duty has_woken (view_in pass.old)))
            (Becomes pass.old pass.new (with_duty has_woken (gives_token (view_in pass.old))))
            (Becomes pass.old pass.new (view_in pass.old)) }
    {
        let seen = self.see_sleepers(pass);
        if seen < LISTED {
            return Wake::Nobody;
        }
        if seen % LISTED < LISTED - 1 && self.give_token(pass, seen, seen - LISTED + 1) == seen {
            return Wake::One;
        }
        Wake::Again
    }

    /// Gives a token to one of all that wait, for a pass that drew the last position or cut the segment. It owes this
    /// until the answer is [`Wake::Nobody`]. It is [`Wake::One`] exactly if it gave a token. Two accesses at most.
    pub fn wake_all(&self, pass: &mut Pass<T>) -> Wake
        requires segment { pass.old.seat.table_id ≡ self.now.table.shared.table_id }
        requires owes { 0 < (view_in pass.old).duty.closing }
        ensures pass { IsStill pass.old pass.new }
        ensures answer { OfWake result
            (Becomes pass.old pass.new (with_duty has_closed (view_in pass.old)))
            (Becomes pass.old pass.new (gives_token (view_in pass.old)))
            (Becomes pass.old pass.new (view_in pass.old)) }
    {
        let seen = self.see_rest(pass);
        if seen < LISTED {
            return Wake::Nobody;
        }
        if seen % LISTED < LISTED - 1
            && self.give_one_of_all(pass, seen, seen - LISTED + 1) == seen
        {
            return Wake::One;
        }
        Wake::Again
    }

    /// Cuts the segment: no more positions will be drawn. Two accesses at most.
    pub fn cut(&self, pass: &mut Pass<T>) -> Cut
        requires segment { pass.old.seat.table_id ≡ self.now.table.shared.table_id }
        requires member { (view_in pass.old).role ≡ Member }
        ensures pass { IsStill pass.old pass.new }
        ensures answer { OfCut result
            (Becomes pass.old pass.new (with_duty owes_all (did_cut (view_in pass.old))))
            (Becomes pass.old pass.new (sees_cut (view_in pass.old)))
            (Becomes pass.old pass.new (view_in pass.old)) }
    {
        let seen = self.load_to_cut(pass);
        if seen >= CUT {
            return Cut::Was;
        }
        if self.cut_from(pass, seen, seen + CUT) == seen {
            Cut::Done
        } else {
            Cut::Again
        }
    }
}
